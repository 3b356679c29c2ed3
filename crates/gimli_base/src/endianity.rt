//! Byte orders.

ghost use Rattle.std.specs.Prelude.{◌≡◌, Bool, true, false, refl};
ghost use Rattle.gimli_base.specs.Order.{is_big, flag_of, order_of, order_back};

use std::fmt::Debug;

/// A byte order.
pub trait Endianity: Copy + Debug + Eq {
    /// What a reader keeps of the order: a form as wide as its other fields, or with no width. A
    /// narrower one would leave padding in the reader, which is copied in pieces wherever a value
    /// with a reader inside moves.
    type Kept: Copy;

    // whether the highest byte comes first
    ghost big: { Self → Bool };

    // the kept form of an order, and the order of a kept form
    ghost to_kept: { Self → Self.Kept };

    ghost order: { Self.Kept → Self };

    /// Whether the highest byte comes first.
    fn is_big_endian(self) -> bool
        ensures { result ≡ big self };

    /// The form in which a reader keeps the order.
    fn to_kept(self) -> Self::Kept
        ensures { result ≡ to_kept self };

    /// The order of a kept form.
    fn from_kept(form: Self::Kept) -> Self
        ensures { result ≡ order form };

    // nothing of an order is lost where it is kept
    ghost order_back: { (e : Self) → order (to_kept e) ≡ e };
}

/// The lowest byte comes first.
#[derive(Clone, Copy, Debug, Default, PartialEq, Eq, Hash)]
pub struct LittleEndian;

impl Endianity for LittleEndian {
    type Kept = ();

    ghost big = { λ _. false };

    ghost to_kept = { λ _. tt };

    ghost order = { λ _. record {} };

    #[inline]
    fn is_big_endian(self) -> bool {
        false
    }

    #[inline]
    fn to_kept(self) {}

    #[inline]
    fn from_kept(_form: ()) -> LittleEndian {
        LittleEndian
    }

    ghost order_back = { λ e. refl };
}

/// The highest byte comes first.
#[derive(Clone, Copy, Debug, Default, PartialEq, Eq, Hash)]
pub struct BigEndian;

impl Endianity for BigEndian {
    type Kept = ();

    ghost big = { λ _. true };

    ghost to_kept = { λ _. tt };

    ghost order = { λ _. record {} };

    #[inline]
    fn is_big_endian(self) -> bool {
        true
    }

    #[inline]
    fn to_kept(self) {}

    #[inline]
    fn from_kept(_form: ()) -> BigEndian {
        BigEndian
    }

    ghost order_back = { λ e. refl };
}

/// An order that is known when the program runs.
#[derive(Clone, Copy, Debug, PartialEq, Eq, Hash)]
pub enum RunTimeEndian {
    /// The lowest byte comes first.
    Little,
    /// The highest byte comes first.
    Big,
}

impl Endianity for RunTimeEndian {
    // as wide as the fields beside it in a reader
    type Kept = u64;

    ghost big = { is_big };

    ghost to_kept = { flag_of };

    ghost order = { order_of };

    #[inline]
    fn is_big_endian(self) -> bool {
        match self {
            RunTimeEndian::Little => false,
            RunTimeEndian::Big => true,
        }
    }

    // 0 for `Little`, 1 for `Big`.
    #[inline]
    fn to_kept(self) -> u64 {
        match self {
            RunTimeEndian::Little => 0,
            RunTimeEndian::Big => 1,
        }
    }

    // 0 stands for `Little`, and any other number for `Big`.
    #[inline]
    fn from_kept(form: u64) -> RunTimeEndian {
        if form == 0 {
            RunTimeEndian::Little
        } else {
            RunTimeEndian::Big
        }
    }

    ghost order_back = { order_back };
}
