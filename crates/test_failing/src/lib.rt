//! An allocator for tests: it refuses some of its requests, and counts them.
#![tactic(auto)]

ghost use Rattle.std.specs.Prelude.{◌≡◌, IfSome};
ghost use Rattle.test_failing.specs.Refused.{is_refused};

use std::alloc::{AllocError, Allocator};
use std::cell::Cell;

/// Which requests are refused, counted from 1 on.
#[derive(Clone, Copy, Debug, PartialEq, Eq)]
pub enum Refusal {
    /// None of them.
    Never,
    /// The one of this number.
    Nth(u64),
    /// The one of this number, and each later one.
    From(u64),
}

impl Refusal {
    /// Whether the request of a number is refused.
    pub fn refuses(self, number: u64) -> bool
        ensures { result ≡ is_refused self number }
    {
        match self {
            Refusal::Never => false,
            Refusal::Nth(refused) => number == refused,
            Refusal::From(first) => number >= first,
        }
    }
}

/// Passes each request on to `inner` that is not refused, and counts them.
#[derive(Drop)]
pub struct Failing<A> {
    inner: A,
    requests: Cell<u64>,
    refused: Refusal,
}

impl<A> Failing<A> {
    /// An allocator over `inner` that was asked for nothing yet.
    pub fn new(inner: A, refused: Refusal) -> Failing<A>
        ensures inner { result.inner ≡ inner }
        ensures refused { result.refused ≡ refused }
    {
        Failing {
            inner,
            requests: Cell::new(0),
            refused,
        }
    }

    /// How many requests were made, those that were refused included.
    pub fn requests(&self) -> u64 {
        self.requests.get()
    }

    // The allocator that a further request goes to, or none where it is refused.
    fn lent(&self) -> Option<&A>
        ensures { IfSome result (λ h. h.now ≡ self.now.inner) }
    {
        let number = self.requests.get().saturating_add(1);
        self.requests.set(number);
        if self.refused.refuses(number) {
            None
        } else {
            Some(&self.inner)
        }
    }
}

unsafe impl<A: Allocator> Allocator for Failing<A> {
    ghost dealloc_token = { λ it ty ptr. A.dealloc_token it.inner ty ptr };

    fn allocate(&self, size: usize, align: usize) -> Result<*mut u8, AllocError> {
        match self.lent() {
            Some(inner) => inner.allocate(size, align),
            None => Err(AllocError),
        }
    }

    unsafe fn deallocate(&self, ptr: *mut u8, size: usize, align: usize) {
        self.inner.deallocate(ptr, size, align);
    }
}
