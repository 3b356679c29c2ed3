//! What a case wants.

use std::alloc::{AllocError, Global};

// Of a call: how it tells that memory was refused; whether the case itself makes the call again, so that
// more may be asked for; and whether a request is refused alone too: the words of the program ask for less
// room where room for the steps is refused, and go on with that.
fn mark_of(call: &str) -> (&'static str, bool, bool) {
    match call {
        "words" => ("error 24\nstatus 1", true, false),
        "text" => ("error 24\nstatus 1", false, true),
        "units" | "type_units" | "ranges" | "locations" => ("stopped", false, true),
        "run_cursor" | "run_plain" | "run_tree" => ("stopped", false, true),
        "table" | "entry" | "check" | "dump_to_vec" => ("refused 24", false, true),
        _ => ("refused 24", true, true),
    }
}

/// The answer of a case: all lines of the call, and what it says of its requests for memory.
#[derive(Drop)]
pub(crate) struct Wanted<'a> {
    /// The lines, each with its end.
    pub(crate) text: String,
    // what is told where each request is refused: `0` where there are none, and `..` for the usual words,
    // and for any that follow
    asks: &'a str,
    // the usual words, which stand after whole lines
    words: &'static str,
    /// Whether the case itself makes the call again.
    pub(crate) goes_on: bool,
    /// Whether a request is refused alone too.
    pub(crate) alone: bool,
}

impl<'a> Wanted<'a> {
    /// The answer of a call that a table writes: lines joined by `; `, and after `asks ` what is told of
    /// each request.
    pub(crate) fn new(alloc: Global, answer: &'a str, call: &str) -> Result<Self, AllocError> {
        let (lines, asks) = answer.split_once("asks ").unwrap_or((answer, ".."));
        let mut text = lines.replace(alloc, "; ", "\n")?;
        if !text.is_empty() && !text.ends_with("\n") {
            text.push_str("\n")?;
        }
        let (words, goes_on, alone) = mark_of(call);
        Ok(Wanted {
            text,
            asks,
            words,
            goes_on,
            alone,
        })
    }

    // What is told where the request of a number is refused, and whether so many are made at least; or
    // none where so many are not made.
    fn told_at(&self, number: u64) -> Option<(&str, bool)> {
        let mut left = number;
        for told in self.asks.split(", ") {
            left = left.saturating_sub(1);
            if left == 0 && told != "0" {
                return Some((if told == ".." { self.words } else { told }, true));
            }
        }
        if self.asks.ends_with("..") {
            return Some((self.words, false));
        }
        None
    }

    /// Whether a call of which no request was refused answers in full.
    pub(crate) fn is_whole(&self, number: u64, found: &str) -> bool {
        let is_due = matches!(self.told_at(number), Some((_, true)));
        found == self.text.as_str() && !is_due
    }

    /// Whether a call whose request of a number was refused, and the one after it, answer as is wanted.
    pub(crate) fn is_told(&self, number: u64, alone: bool, (found, again): (&str, &str)) -> bool {
        let (Some((told, _)), Some((first, _))) = (self.told_at(number), self.told_at(1)) else {
            return false;
        };
        let is_again = if alone {
            again == self.text.as_str()
        } else {
            // each of its requests is refused, and so the first
            self.is_cut(first, again, false)
        };
        self.is_cut(told, found, alone) && is_again
    }

    // Whether a text is whole lines from the front of the answer, and not all of them.
    fn has_front(&self, front: &str) -> bool {
        let left = self.text.strip_prefix(front).unwrap_or("");
        let is_lines = front.is_empty() || front.ends_with("\n");
        is_lines && !left.is_empty() && !left.starts_with("status")
    }

    // Whether a text is that of a refused call: whole lines from the front, what is told, and after that
    // nothing, or the lines that the call answers when it is made again.
    fn is_cut(&self, told: &str, found: &str, alone: bool) -> bool {
        let Some((front, rest)) = found.split_once(told) else {
            return false;
        };
        let Some((tail, behind)) = rest.split_once("\n") else {
            return false;
        };
        let is_told = tail.is_empty() || told == self.words;
        let is_whole = behind == self.text.as_str()
            || self.text.strip_prefix(front) == Some(behind);
        is_told
            && self.has_front(front)
            && (behind.is_empty() || is_whole || !alone && self.is_cut_again(behind))
    }

    // Whether a text is that of a call that was refused once more.
    fn is_cut_again(&self, found: &str) -> bool {
        let Some((front, rest)) = found.split_once(self.words) else {
            return false;
        };
        self.has_front(front) && rest.split_once(self.words).is_none()
    }
}
