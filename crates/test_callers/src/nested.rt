//! A list inside a list.

ghost use Rattle.std.specs.Prelude.{◌≡◌, true, Ok, Err, IfOk, IfErr};
ghost use Rattle.gimli_base.specs.declared.error.Error.TheVariants.{OutOfMemory};
ghost use Rattle.gimli_base.specs.Reading.{UnlessMemory};
ghost use Rattle.gimli_units.specs.Honest.{AreHonest};
ghost use Rattle.gimli_units.specs.CursorModel.{rows_of};
ghost use Rattle.test_callers.specs.Children.{children_counted};
ghost use Rattle.gimli_units.specs.CursorModel.{IsHonestCursor};
ghost use Rattle.gimli_units.specs.TreeWalker.{IsWalker};
ghost use Rattle.test_callers.specs.Subtree.{count_innermost};
ghost use Rattle.test_callers.specs.Enters.{HasEntered};

use gimli_base::{Reader, Result};
use gimli_units::EntriesTreeWalker;
use std::alloc::Allocator;

// Whether the node that a walk stands on has a child, which is then read, and its list left.
fn has_child<R: Reader, A: Allocator>(walker: &mut EntriesTreeWalker<'_, R, A>) -> Result<bool>
    requires sound { IsWalker walker.old }
    requires node { walker.old.is_on ≡ true }
    ensures ok { IfOk result (λ b.
        HasEntered R.Offset.limit walker.old.tree (Ok b) walker.new.tree) }
    ensures lists { IfOk result (λ b. walker.new.lists ≡ walker.old.lists) }
    ensures err { IfErr result (λ e. (e ≡ OutOfMemory → ⊥)
        → HasEntered R.Offset.limit walker.old.tree (Err e) walker.new.tree) }
    ensures sound { IsWalker walker.new }
{
    walker.enter()?;
    let found = walker.next()?;
    walker.leave();
    Ok(found)
}

// How many nodes the innermost list still has, where the list of each is begun in between.
fn count_entered<R: Reader, A: Allocator>(walker: &mut EntriesTreeWalker<'_, R, A>) -> Result<usize>
    requires sound { IsWalker walker.old }
    ensures counted { IsHonestCursor R.Offset.limit walker.old.tree.cursor → UnlessMemory result
        (result ≡ count_innermost walker.old.lists 0
        (rows_of R.Offset.limit walker.old.tree.cursor.raw)) }
{
    let mut count = 0;
    'nodes: while walker.next()? {
        let _ = has_child(walker)?;
        count += 1;
    }
    Ok(count)
}

/// How many children the root of a tree has, where the list of each child is begun in between:
/// where the sibling references are honest, as many as there are rows of their depth before the
/// null that closes their list, or the refusal that comes first.
pub fn count_entered_children<R: Reader, A: Allocator>(
    walker: &mut EntriesTreeWalker<'_, R, A>,
) -> Result<usize>
    ensures counted { let start = walker.old.tree.start in
        let rows = rows_of R.Offset.limit start in
        AreHonest start.end rows.rows →
        UnlessMemory result (result ≡ children_counted start.end rows) }
{
    walker.root()?;
    walker.enter()?;
    count_entered(walker)
}
