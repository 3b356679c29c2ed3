//! Expressions, as bytes (DWARF 5, 2.5).

ghost use Rattle.std.specs.Prelude.{◌≡◌};

use crate::Reader;

/// The bytes of an expression (DWARF 5, 2.5).
#[derive(Clone, Copy, Debug, PartialEq, Eq, Hash, Drop)]
pub struct Expression<R>(pub R);

impl<R: Reader> Expression<R> {
    /// An expression of the same bytes at the same place.
    pub fn copy(&self) -> Self
        ensures { R.view result.0 ≡ R.view self.now.0 }
    {
        Expression(self.0.copy())
    }
}
