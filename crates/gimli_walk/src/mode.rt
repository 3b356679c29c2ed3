//! What a walk does.

use crate::{CursorStep, TreeStep};

/// What a walk does, and so which lines it writes.
#[derive(Clone, Copy, Debug, PartialEq, Eq)]
pub enum Mode<'a> {
    /// A line for each row, nulls too.
    Rows,
    /// One line: whether the sibling references are honest, and else the first entry whose
    /// reference is not.
    Check,
    /// A line for each step of a cursor that follows sibling references.
    Cursor(&'a [CursorStep]),
    /// A line for each step of a cursor that follows no reference.
    Plain(&'a [CursorStep]),
    /// A line for each step of a walk over a tree.
    Tree(&'a [TreeStep]),
}
