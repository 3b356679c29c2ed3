//! The number of a root's children.

ghost use Rattle.std.specs.Prelude.{◌≡◌, ◌<◌, ◌+◌, ◌^◌, ℕ, unsigned_abs, length, true, false, IfOk};
ghost use Rattle.gimli_base.specs.Reading.{UnlessMemory};
ghost use Rattle.gimli_units.specs.Honest.{AreHonest};
ghost use Rattle.gimli_units.specs.CursorModel.{rows_of};
ghost use Rattle.gimli_units.specs.CursorModel.{IsHonestCursor};
ghost use Rattle.gimli_units.specs.TreeMoves.{list_of, IsTree};
ghost use Rattle.test_callers.specs.Children.{count_rows, count_in, children_counted};

use gimli_base::{Reader, Result};
use gimli_units::{EntriesTree, EntriesTreeIter};
use std::alloc::Allocator;

// How many children a list still has.
fn count<R: Reader, A: Allocator>(children: &mut EntriesTreeIter<'_, '_, R, A>) -> Result<usize>
    requires shallow { children.old.is_open ≡ true → unsigned_abs children.old.depth < 2 ^ 63 }
    requires few { let cursor = children.old.tree.now.cursor in
        cursor.reads + length cursor.raw.rest.bytes < 2 ^ 63 }
    ensures counted { let cursor = children.old.tree.now.cursor in
        let list = list_of children.old.is_open children.old.depth in
        IsHonestCursor R.Offset.limit cursor → UnlessMemory result
        (result ≡ count_in list 0 (rows_of R.Offset.limit cursor.raw)) }
{
    let mut count = 0;
    'steps: while children.advance()? {
        count += 1;
    }
    Ok(count)
}

/// How many children the root of a tree has, by the tree's own walk: where the sibling references
/// are honest, as many as there are rows of their depth before the null that closes their list, or
/// the refusal that comes first.
pub fn count_children<R: Reader, A: Allocator>(tree: &mut EntriesTree<'_, R, A>) -> Result<usize>
    ensures counted { let start = tree.old.start in
        let rows = rows_of R.Offset.limit start in
        AreHonest start.end rows.rows →
        UnlessMemory result (result ≡ children_counted start.end rows) }
{
    let root = tree.root()?;
    let mut children = root.children();
    count(&mut children)
}
