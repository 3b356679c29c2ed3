//! A call whose requests for memory are refused, one after the other.

use crate::memory::wanted::Wanted;
use gimli_base::Reader;
use std::alloc::Global;
use test_failing::{Failing, Refusal};
use test_tables::{Call, Outcome, Text};

/// The allocator of what is tried.
pub(crate) type Heap<'h> = &'h Failing<Global>;

/// A call that is tried with an allocator that refuses, and with one that refuses nothing.
#[derive(Drop)]
pub(crate) struct Trial<'s, 'c, R> {
    pub(crate) call: &'s Call<'c, R>,
    pub(crate) failing: Failing<Global>,
    pub(crate) ample: Failing<Global>,
    /// The number of the request that is the first to be refused.
    pub(crate) number: u64,
    refusal: Refusal,
}

// More requests than any call of a table makes.
const MANY: u64 = 1000;

/// Makes a call with each of its requests refused in turn, alone and with all after it, and writes what
/// differs.
pub(crate) fn try_each<R: Reader>(call: &Call<'_, R>, out: &mut Text) -> Outcome {
    let wanted = Wanted::new(call.alloc, call.wanted, call.name())?;
    for number in 1..MANY {
        let alone = Trial::new(call, number, Refusal::Nth(number)).judge(&wanted, out)?;
        let all = Trial::new(call, number, Refusal::From(number)).judge(&wanted, out)?;
        if !alone && !all {
            return Ok(());
        }
    }
    writeln!(out, "  no end of its requests");
    Ok(())
}

impl<'s, 'c, R: Reader> Trial<'s, 'c, R> {
    // A call whose request of a number is refused.
    fn new(call: &'s Call<'c, R>, number: u64, refusal: Refusal) -> Trial<'s, 'c, R> {
        Trial {
            call,
            failing: Failing::new(call.alloc, refusal),
            ample: Failing::new(call.alloc, Refusal::Never),
            number,
            refusal,
        }
    }

    // What the call answers, where the request of a number is the first to be refused.
    fn answer(&mut self, number: u64) -> Outcome<Vec<u8>> {
        self.number = number;
        let mut found = Text::new(self.call.alloc);
        if let Err(stop) = self.write(&mut found) {
            stop.write(&mut found);
        }
        Ok(found.finish()?)
    }

    // What the call answers when it is made again after a number of requests.
    fn answer_again(&mut self, asked: u64) -> Outcome<Vec<u8>> {
        match self.refusal {
            Refusal::From(_) => self.answer(asked.saturating_add(1)),
            // none of these requests is refused
            _ => self.answer(u64::MAX),
        }
    }

    // Makes the call, and where a request was refused makes it again. Writes what it answered, and what it
    // answered again, where that is not what is wanted. Answers whether one was refused.
    fn judge(&mut self, wanted: &Wanted<'_>, out: &mut Text) -> Outcome<bool> {
        let (number, refusal) = (self.number, self.refusal);
        let alone = refusal == Refusal::Nth(number);
        if alone && !wanted.alone {
            return Ok(false);
        }
        let first = self.answer(number)?;
        let asked = self.failing.requests();
        let mut second = Vec::new(self.call.alloc);
        if number <= asked {
            second = self.answer_again(asked)?;
        }
        let found = str::from_utf8(&first).unwrap_or("no text");
        let again = str::from_utf8(&second).unwrap_or("no text");
        let is_right = if number <= asked {
            (wanted.goes_on || asked == number) && wanted.is_told(number, alone, (found, again))
        } else {
            wanted.is_whole(number, found)
        };
        if !is_right {
            writeln!(
                out,
                "{refusal:?}, {asked} requests:\n{found}again:\n{again}"
            );
        }
        Ok(number <= asked)
    }
}
