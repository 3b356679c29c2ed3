//! What takes the answers of a run, one by one.

ghost use Rattle.std.specs.Prelude.{◌≡◌, Bool, List, [], ◌∷◌, ◌++◌, OnOk, Err, true, false};
ghost use Rattle.gimli_units.specs.TreePlace.{StepAnswer, a_node};
ghost use Rattle.gimli_units.specs.TreeWalker.{node_held};
ghost use Rattle.gimli_walk.specs.declared.lines.Stop.TheVariants.{Memory, Write as WriteStop};
ghost use Rattle.gimli_walk.specs.Cursors.{Answer};
ghost use Rattle.gimli_walk.specs.CursorTurns.{answer_at};
ghost use Rattle.gimli_walk.specs.TreeTurns.{word_answer};

use crate::lines::Stop;
use crate::tree::Word;
use gimli_base::{Reader, Result as AnswerResult};
use gimli_units::{DebuggingInformationEntry, EntriesCursor};
use std::alloc::Allocator;

/// What takes the answers of a cursor's run.
pub(crate) trait Sink<R: Reader, A: Allocator> {
    // the first has taken these answers, and is then the second
    ghost has_received: { Self → List Answer → Self → Type 0 };

    // whether it writes
    ghost writes: { Bool };

    /// Takes what a step answered, and of the cursor the place where it then stands.
    /// `Stop::Memory`: nothing is taken. `Stop::Write`, only of a sink that writes: it is left
    /// anywhere.
    fn tell(
        &mut self,
        outcome: AnswerResult<bool>,
        cursor: &EntriesCursor<'_, R, A>,
    ) -> Result<(), Stop>
        ensures answer { OnOk result
            (has_received self.old (answer_at outcome cursor.now ∷ []) self.new) }
        ensures kept { result ≡ Err Memory → has_received self.old [] self.new }
        ensures fault { result ≡ Err WriteStop → writes ≡ true };

    ghost none: { (s : Self) → has_received s [] s };

    ghost more: { (s t u : Self) (xs ys : List Answer) → has_received s xs t → has_received t ys u
        → has_received s (xs ++ ys) u };
}

/// What takes the answers of a tree's run.
pub(crate) trait TreeSink<R: Reader, A: Allocator> {
    // the first has taken these answers, and is then the second
    ghost has_received: { Self → List StepAnswer → Self → Type 0 };

    // whether it writes
    ghost writes: { Bool };

    /// Takes a node, by its entry. `Stop::Memory`: nothing is taken. `Stop::Write`, only of a sink
    /// that writes: it is left anywhere.
    fn tell_node(&mut self, entry: &DebuggingInformationEntry<R, A>) -> Result<(), Stop>
        ensures answer { OnOk result (has_received self.old
            (a_node (node_held R.view R.Offset.number entry.now) ∷ []) self.new) }
        ensures kept { result ≡ Err Memory → has_received self.old [] self.new }
        ensures fault { result ≡ Err WriteStop → writes ≡ true };

    /// Takes an answer that is no node. `Stop::Memory`: nothing is taken. `Stop::Write`, only of a
    /// sink that writes: it is left anywhere.
    fn tell(&mut self, word: Word) -> Result<(), Stop>
        ensures answer { OnOk result (has_received self.old (word_answer word ∷ []) self.new) }
        ensures kept { result ≡ Err Memory → has_received self.old [] self.new }
        ensures fault { result ≡ Err WriteStop → writes ≡ true };

    ghost none: { (s : Self) → has_received s [] s };

    ghost more: { (s t u : Self) (xs ys : List StepAnswer) → has_received s xs t
        → has_received t ys u → has_received s (xs ++ ys) u };
}
