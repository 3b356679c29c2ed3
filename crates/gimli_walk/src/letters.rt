//! The steps and the address that words of the command line write.

ghost use Rattle.std.specs.Prelude.{◌≡◌, ◌↔◌, ℕ, Option, None, IfOk, IfSome, IsTrue};
ghost use Rattle.std.specs.List.{filter_map, AllPass};
ghost use Rattle.std.specs.Str.Parse.{digits_value};
ghost use Rattle.gimli_walk.specs.Words.{cursor_step_of, tree_step_of, AreSteps, is_lower_digit};
ghost use Rattle.gimli_walk.specs.Words.{IsAddress};

use crate::{CursorStep, TreeStep};
use std::alloc::{AllocError, Allocator};

/// A kind of steps that letters name.
pub(crate) trait Lettered: Copy {
    ghost names: { ℕ → Option Self };

    /// The step that a letter names, or none. The steps of a cursor are `e`, `d` and `s`, those of
    /// a tree `r`, `n`, `i` and `o`.
    fn of_letter(letter: u8) -> Option<Self>
        ensures { result ≡ names letter };
}

impl Lettered for CursorStep {
    ghost names = { cursor_step_of };

    fn of_letter(letter: u8) -> Option<CursorStep> {
        match letter {
            b'e' => Some(CursorStep::NextEntry),
            b'd' => Some(CursorStep::NextDfs),
            b's' => Some(CursorStep::NextSibling),
            _ => None,
        }
    }
}

impl Lettered for TreeStep {
    ghost names = { tree_step_of };

    fn of_letter(letter: u8) -> Option<TreeStep> {
        match letter {
            b'r' => Some(TreeStep::Root),
            b'n' => Some(TreeStep::Next),
            b'i' => Some(TreeStep::Enter),
            b'o' => Some(TreeStep::Leave),
            _ => None,
        }
    }
}

/// Whether each of these letters names a step; true of no letters.
pub(crate) fn are_steps<S: Lettered>(letters: &str) -> bool
    ensures { IsTrue result ↔ AreSteps S.names letters.now }
{
    letters
        .as_bytes()
        .iter()
        .all(|&letter| S::of_letter(letter).is_some())
}

/// The steps that these letters name, in order; a letter that names none is passed. Refusal:
/// `AllocError`, where memory is refused.
pub(crate) fn steps_in<S: Lettered, A: Allocator>(
    alloc: A,
    letters: &str,
) -> Result<Vec<S, A>, AllocError>
    ensures { IfOk result (λ v. v.items ≡ filter_map S.names letters.now) }
{
    letters
        .as_bytes()
        .iter()
        .filter_map(|&letter| S::of_letter(letter))
        .collect(alloc)
}

/// The number that 1 to 16 hexadecimal digits write. None of any other letters: capitals, a sign
/// and a prefix are not taken.
pub(crate) fn address_in(letters: &str) -> Option<u64>
    ensures value { IfSome result (λ n. IsAddress letters.now × (n ≡ digits_value 16 letters.now)) }
    ensures none { result ≡ None → IsAddress letters.now → ⊥ }
{
    if letters.is_empty() || letters.len() > 16 || !are_digits(letters) {
        return None;
    }
    u64::from_str_radix(letters, 16).ok()
}

// Whether each of these letters is a digit in hexadecimal that is no capital; true of no letters.
fn are_digits(letters: &str) -> bool
    ensures { IsTrue result ↔ AllPass is_lower_digit letters.now }
{
    letters.as_bytes().iter().all(|&letter| char::from(letter).is_digit(16)
        && !letter.is_ascii_uppercase())
}
