//! Counts by the walker.

ghost use Rattle.std.specs.Prelude.{◌≡◌, ◌<◌, ◌+◌, ◌^◌, ℕ, length, true, false, IfOk};
ghost use Rattle.gimli_base.specs.Reading.{UnlessMemory};
ghost use Rattle.gimli_units.specs.Honest.{AreHonest};
ghost use Rattle.gimli_units.specs.CursorModel.{rows_of};
ghost use Rattle.gimli_units.specs.CursorModel.{IsHonestCursor};
ghost use Rattle.gimli_units.specs.TreeWalker.{IsWalker};
ghost use Rattle.test_callers.specs.Children.{children_counted};
ghost use Rattle.test_callers.specs.Subtree.{count_innermost, rest_of, entries_counted};
ghost use Rattle.test_callers.specs.Subtree.{IsReady};

use gimli_base::{Reader, Result};
use gimli_units::EntriesTreeWalker;
use std::alloc::Allocator;

// How many nodes the innermost list still has.
fn count_nodes<R: Reader, A: Allocator>(walker: &mut EntriesTreeWalker<'_, R, A>) -> Result<usize>
    requires sound { IsWalker walker.old }
    ensures counted { IsHonestCursor R.Offset.limit walker.old.tree.cursor → UnlessMemory result
        (result ≡ count_innermost walker.old.lists 0
        (rows_of R.Offset.limit walker.old.tree.cursor.raw)) }
{
    let mut count = 0;
    'nodes: while walker.next()? {
        count += 1;
    }
    Ok(count)
}

/// How many children the root of a tree has: where the sibling references are honest, as many as
/// there are rows of their depth before the null that closes their list, or the refusal that comes
/// first.
pub fn count_root_children<R: Reader, A: Allocator>(
    walker: &mut EntriesTreeWalker<'_, R, A>,
) -> Result<usize>
    ensures counted { AreHonest walker.old.tree.start.end
        (rows_of R.Offset.limit walker.old.tree.start).rows
        → UnlessMemory result (result ≡ children_counted walker.old.tree.start.end
        (rows_of R.Offset.limit walker.old.tree.start)) }
{
    walker.root()?;
    walker.enter()?;
    count_nodes(walker)
}

// How many entries are in the lists that were entered, with all below them, counted on from a
// number.
fn count_on<R: Reader, A: Allocator>(
    walker: &mut EntriesTreeWalker<'_, R, A>,
    from: usize,
) -> Result<usize>
    requires sound { IsWalker walker.old }
    requires ready { IsReady walker.old }
    requires few { from + length walker.old.tree.cursor.raw.rest.bytes < 2 ^ 63 }
    ensures counted { UnlessMemory result (result ≡ rest_of R.Offset.limit from walker.old) }
{
    let mut count = from;
    'walk: while walker.list_count() > 0 {
        if walker.next()? {
            count += 1;
            walker.enter()?;
        } else {
            walker.leave();
        }
    }
    Ok(count)
}

/// How many entries a tree has: its root, and those below it up to the null that closes the list of
/// its children, or the refusal that comes first. No sibling reference is followed, so that it is
/// the same whatever they say.
pub fn count_entries<R: Reader, A: Allocator>(
    walker: &mut EntriesTreeWalker<'_, R, A>,
) -> Result<usize>
    ensures counted { UnlessMemory result (result ≡ entries_counted walker.old.tree.start.end
        (rows_of R.Offset.limit walker.old.tree.start)) }
{
    walker.root()?;
    walker.enter()?;
    count_on(walker, 1)
}
