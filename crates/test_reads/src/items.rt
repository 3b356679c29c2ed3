//! Entries of lists, ranges and locations, as answers show them.

ghost use Rattle.std.specs.Iterator.{IsFinite};

use crate::shown::Shown;
use gimli_base::{DebugAddrIndex, Expression, Reader, ReaderOffset, Result};
use gimli_lists::{ArangeEntry, LocationListEntry, Range, RawLocListEntry, RawRngListEntry};
use test_tables::{Text, hex_of};

/// Writes a name, all that an iterator gives, and each refusal where it comes.
pub(crate) fn write_items<T: Shown, I: Iterator<Item = Result<T>> + Drop>(
    name: &str,
    items: I,
    out: &mut Text,
)
    requires can { I.can_next items }
    requires ends { IsFinite (I.remaining items) }
{
    write!(out, "{name}");
    for answer in items {
        write!(out, ", ");
        answer.show(out);
    }
}

impl<Offset: ReaderOffset> Shown for DebugAddrIndex<Offset> {
    fn show(&self, out: &mut Text) {
        self.0.into_u64().show(out);
    }
}

// The place and the bytes.
impl<R: Reader> Shown for Expression<R> {
    fn show(&self, out: &mut Text) {
        hex_of(out, &self.0, " ");
    }
}

impl Shown for Range {
    fn show(&self, out: &mut Text) {
        write!(out, "{} {}", self.begin, self.end);
    }
}

impl<R: Reader> Shown for LocationListEntry<R> {
    fn show(&self, out: &mut Text) {
        self.range.show(out);
        write!(out, " ");
        self.expr.show(out);
    }
}

// Where an entry begins, where it ends, and its length.
impl Shown for ArangeEntry {
    fn show(&self, out: &mut Text) {
        let (begin, end, length) = (self.address(), self.range().end, self.length());
        write!(out, "{begin} {end} {length}");
    }
}

// Writes the kind of an entry, which is one of those that are listed with their operands, and the operands.
macro_rules! write_entry {
    ($entry:expr, $out:expr; $($kind:ident($($operand:ident)*))*) => {
        match $entry {
            $(Self::$kind { $($operand),* } => {
                write!($out, "{}", stringify!($kind));
                $(
                    write!($out, " ");
                    $operand.show($out);
                )*
            })*
        }
    };
}

impl<Offset: ReaderOffset> Shown for RawRngListEntry<Offset> {
    fn show(&self, out: &mut Text) {
        write_entry!(self, out;
            AddressOrOffsetPair(begin end) BaseAddress(addr) BaseAddressx(addr) StartxEndx(begin end)
            StartxLength(begin length) OffsetPair(begin end) StartEnd(begin end) StartLength(begin length)
        );
    }
}

impl<R: Reader> Shown for RawLocListEntry<R> {
    fn show(&self, out: &mut Text) {
        write_entry!(self, out;
            AddressOrOffsetPair(begin end expr) BaseAddress(addr) BaseAddressx(addr) StartxEndx(begin end expr)
            StartxLength(begin length expr) OffsetPair(begin end expr) DefaultLocation(expr)
            StartEnd(begin end expr) StartLength(begin length expr)
        );
    }
}
