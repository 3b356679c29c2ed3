//! Attributes, as numbers.

ghost use Rattle.std.specs.Prelude.{◌≡◌, ◌+◌, ◌<◌, ◌≤◌, ◌++◌, ◌∷◌, [], ◌%◌, ◌/◌, ◌^◌, ℕ, List};
ghost use Rattle.std.specs.Prelude.{take, drop, length};
ghost use Rattle.std.specs.Vec.{vec_len, vec_capacity};
ghost use Rattle.gimli_units.specs.Value.{map_value};
ghost use Rattle.gimli_units.specs.Entry.{with_value};
ghost use Rattle.gimli_c.specs.Attrs.{numbers, place_numbers, values_of, attr_of};

use gimli_base::{AttributeSpecification, Reader, ReaderOffset};
use gimli_units::{AttributeSink, AttributeValue};
use std::alloc::Allocator;

/// An attribute of an entry.
#[repr(C)]
#[derive(Clone, Copy, Debug)]
pub struct GimliAttr {
    /// The value, where it is a number, its bits where it has a sign; of 16 bytes the low 8. Or
    /// where the bytes of a block, an expression or a text lie in the section of units.
    pub number: u64,
    /// The number of those bytes; or the high 8 of 16 bytes; or what is added to the address at an
    /// index; else 0.
    pub more: u64,
    /// The name.
    pub name: u16,
    /// The form of the declaration.
    pub form: u16,
    /// The kind of the value, from 1 on.
    pub kind: u32,
}

// A value, as the fields of `GimliAttr` of the same names have it.
#[derive(Clone, Copy)]
struct ValueNumbers {
    kind: u32,
    number: u64,
    more: u64,
}

// A value that is one number: `more` is 0.
#[inline(always)]
fn one_number(kind: u32, number: u64) -> ValueNumbers
    ensures { result ≡ numbers kind number 0 }
{
    two_numbers(kind, number, 0)
}

// A value of these two numbers.
#[inline(always)]
fn two_numbers(kind: u32, number: u64, more: u64) -> ValueNumbers
    ensures { result ≡ numbers kind number more }
{
    ValueNumbers { kind, number, more }
}

// A value of 16 bytes: `number` is the low 8 of them, `more` the high 8.
#[inline(always)]
fn wide_numbers(kind: u32, number: u128) -> ValueNumbers
    ensures { result ≡ numbers kind (number % 2 ^ 64) (number / 2 ^ 64) }
{
    two_numbers(
        kind,
        (number % (1 << 64)) as u64,
        (number / (1 << 64)) as u64,
    )
}

// A value that is bytes: `number` is where they lie in their section, `more` how many they are.
#[inline(always)]
fn place_numbers<R: Reader>(kind: u32, bytes: &R) -> ValueNumbers
    ensures { result ≡ place_numbers kind (R.view bytes.now) }
{
    two_numbers(kind, bytes.offset_id().0, bytes.len().into_u64())
}

// The kind of a value, and its numbers: the value itself, or where its bytes lie. Each variant has
// a kind of its own, from 1 on.
#[inline]
fn values_of<R: Reader>(value: &AttributeValue<R>) -> ValueNumbers
    ensures { result ≡ values_of (map_value R.view R.Offset.number value.now) }
{
    match value {
        AttributeValue::Addr(number) => one_number(1, *number),
        AttributeValue::Block(bytes) => place_numbers(2, bytes),
        AttributeValue::Data1(number) => one_number(3, u64::from(*number)),
        AttributeValue::Data2(number) => one_number(4, u64::from(*number)),
        AttributeValue::Data4(number) => one_number(5, u64::from(*number)),
        AttributeValue::Data8(number) => one_number(6, *number),
        AttributeValue::Data16(number) => wide_numbers(7, *number),
        AttributeValue::Sdata(number) => one_number(8, number.cast_unsigned()),
        AttributeValue::Udata(number) => one_number(9, *number),
        AttributeValue::Exprloc(expression) => place_numbers(10, &expression.0),
        AttributeValue::Flag(flag) => one_number(11, u64::from(*flag)),
        AttributeValue::SecOffset(offset) => one_number(12, offset.into_u64()),
        AttributeValue::DebugAddrBase(offset) => one_number(13, offset.0.into_u64()),
        AttributeValue::DebugAddrIndex(offset) => one_number(14, offset.0.into_u64()),
        AttributeValue::UnitRef(offset) => one_number(15, offset.0.into_u64()),
        AttributeValue::DebugInfoRef(offset) => one_number(16, offset.0.into_u64()),
        AttributeValue::DebugInfoRefSup(offset) => one_number(17, offset.0.into_u64()),
        AttributeValue::DebugLineRef(offset) => one_number(18, offset.0.into_u64()),
        AttributeValue::LocationListsRef(offset) => one_number(19, offset.0.into_u64()),
        AttributeValue::DebugLocListsBase(offset) => one_number(20, offset.0.into_u64()),
        AttributeValue::DebugLocListsIndex(offset) => one_number(21, offset.0.into_u64()),
        AttributeValue::DebugMacinfoRef(offset) => one_number(22, offset.0.into_u64()),
        AttributeValue::DebugMacroRef(offset) => one_number(23, offset.0.into_u64()),
        AttributeValue::RangeListsRef(offset) => one_number(24, offset.0.into_u64()),
        AttributeValue::DebugRngListsBase(offset) => one_number(25, offset.0.into_u64()),
        AttributeValue::DebugRngListsIndex(offset) => one_number(26, offset.0.into_u64()),
        AttributeValue::DebugTypesRef(code) => one_number(27, code.0),
        AttributeValue::DebugStrRef(offset) => one_number(28, offset.0.into_u64()),
        AttributeValue::DebugStrRefSup(offset) => one_number(29, offset.0.into_u64()),
        AttributeValue::DebugStrOffsetsBase(offset) => one_number(30, offset.0.into_u64()),
        AttributeValue::DebugStrOffsetsIndex(offset) => one_number(31, offset.0.into_u64()),
        AttributeValue::DebugLineStrRef(offset) => one_number(32, offset.0.into_u64()),
        AttributeValue::String(bytes) => place_numbers(33, bytes),
        AttributeValue::Encoding(code) => one_number(34, u64::from(code.0)),
        AttributeValue::DecimalSign(code) => one_number(35, u64::from(code.0)),
        AttributeValue::Endianity(code) => one_number(36, u64::from(code.0)),
        AttributeValue::Accessibility(code) => one_number(37, u64::from(code.0)),
        AttributeValue::Visibility(code) => one_number(38, u64::from(code.0)),
        AttributeValue::Virtuality(code) => one_number(39, u64::from(code.0)),
        AttributeValue::Language(code) => one_number(40, u64::from(code.0)),
        AttributeValue::AddressClass(code) => one_number(41, code.0),
        AttributeValue::IdentifierCase(code) => one_number(42, u64::from(code.0)),
        AttributeValue::CallingConvention(code) => one_number(43, u64::from(code.0)),
        AttributeValue::Inline(code) => one_number(44, u64::from(code.0)),
        AttributeValue::Ordering(code) => one_number(45, u64::from(code.0)),
        AttributeValue::FileIndex(number) => one_number(46, *number),
        AttributeValue::DwoId(code) => one_number(47, code.0),
        AttributeValue::DebugAddrIndexOffset(index, offset) => {
            two_numbers(48, index.0.into_u64(), u64::from(*offset))
        }
    }
}

/// A list that takes attributes onto its end, as numbers.
#[derive(Drop)]
pub(crate) struct Numbers<A: Allocator>(pub(crate) Vec<GimliAttr, A>);

// A list that has room: it stands for what it holds, and for how many they are and may be.
impl<R: Reader, A: Allocator> AttributeSink<R> for Numbers<A> {
    ghost use Rattle.gimli_c.specs.declared.attrs.GimliAttr.{GimliAttr};

    type Answer = ();

    ghost Meaning = { List GimliAttr × (ℕ × ℕ) };

    ghost meaning = { λ l _. (l.0.items, (vec_len l.0, vec_capacity l.0)) };

    ghost after_take = { λ l a. (
      l.0.items ++ attr_of a ∷ [],
      (vec_len l.0 + 1, vec_capacity l.0),
    ) };

    ghost has_room = { λ l. vec_len l.0 < vec_capacity l.0 };

    #[inline(always)]
    fn take(&mut self, specification: &AttributeSpecification, value: AttributeValue<R>)
        requires { vec_len self.old.0 < vec_capacity self.old.0 }
        ensures { ◌≡◌ {A = List GimliAttr × (ℕ × ℕ)}
            (self.new.0.items, (vec_len self.new.0, vec_capacity self.new.0)) (
              self.old.0.items
                  ++ attr_of (with_value specification.now
                  (map_value R.view R.Offset.number value)) ∷ [],
              (vec_len self.old.0 + 1, vec_capacity self.old.0),
            ) }
    {
        let values = values_of(&value);
        self.0.push_reserved(GimliAttr {
            number: values.number,
            more: values.more,
            name: specification.name().0,
            form: specification.form().0,
            kind: values.kind,
        });
    }
}

/// Writes attributes into `into`, the first at the index `from`; there is room for all, and the
/// others stay.
#[inline(always)]
pub(crate) fn write_attrs(numbers: &[GimliAttr], into: &mut [GimliAttr], from: usize)
    requires { from + length numbers.now ≤ length into.old }
    ensures { into.new
        ≡ (take from into.old ++ numbers.now) ++ drop (from + length numbers.now) into.old }
{
    let mut at = from;
    'each: for number in numbers {
        into[at] = *number;
        at += 1;
    }
}
