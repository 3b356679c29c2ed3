//! The values of attributes as numbers, offsets, expressions and texts.

ghost use Rattle.std.specs.Prelude.{◌≡◌, ◌<◌, ◌≤◌, ◌*◌, ◌^◌, nat_lt, if◌then◌else◌, pos, ◌-ℤ◌};
ghost use Rattle.std.specs.Option.{option_map};
ghost use Rattle.gimli_units.specs.Value.{map_value};
ghost use Rattle.gimli_units.specs.NormalValue.{udata_of, sdata_of, sec_offset_of, exprloc_of};
ghost use Rattle.gimli_units.specs.NormalValue.{string_of, string_sup_of, below};
ghost use Rattle.gimli_base.specs.Sections.{str_content};

use crate::AttributeValue;
use gimli_base::{DebugStr, Expression, Reader, Section};

// `number` in two's complement, where `half` is the weight of the sign bit (0x80 for 8 bits). From
// `half` on it stands for a negative number: the one that is less by twice `half`.
fn signed_of(number: u64, half: u64) -> i64
    requires low { 0 < half }
    requires high { half ≤ 2 ^ 63 }
    requires fits { number < 2 * half }
    ensures { result ≡ (if nat_lt number half then pos number else pos number -ℤ pos (2 * half)) }
{
    if number < half {
        number as i64
    } else {
        (number - half) as i64 - (half - 1) as i64 - 1
    }
}

impl<R: Reader> AttributeValue<R> {
    /// The value as an unsigned number, as `udata_value` answers it, if it is below 2^8; else none.
    pub fn u8_value(&self) -> Option<u8>
        ensures { result ≡ below (2 ^ 8) (udata_of (map_value R.view R.Offset.number self.now)) }
    {
        match self.udata_value() {
            Some(value) if value < 256 => Some(value as u8),
            _ => None,
        }
    }

    /// The value as an unsigned number, as `udata_value` answers it, if it is below 2^16; else
    /// none.
    pub fn u16_value(&self) -> Option<u16>
        ensures { result ≡ below (2 ^ 16) (udata_of (map_value R.view R.Offset.number self.now)) }
    {
        match self.udata_value() {
            Some(value) if value < 65536 => Some(value as u16),
            _ => None,
        }
    }

    /// The value as an unsigned number: of data of 1, 2, 4 or 8 bytes, of a `Udata`, and of an
    /// `Sdata` that is not negative. None for a negative one, and for any other value, `Data16` and
    /// `SecOffset` too.
    pub fn udata_value(&self) -> Option<u64>
        ensures { result ≡ udata_of (map_value R.view R.Offset.number self.now) }
    {
        match self {
            AttributeValue::Data1(data) => Some(u64::from(*data)),
            AttributeValue::Data2(data) => Some(u64::from(*data)),
            AttributeValue::Data4(data) => Some(u64::from(*data)),
            AttributeValue::Data8(data) | AttributeValue::Udata(data) => Some(*data),
            AttributeValue::Sdata(data) => { if *data < 0 { None } else { Some(*data as u64) } }
            _ => None,
        }
    }

    /// The value as a signed number: of data of 1, 2, 4 or 8 bytes in two's complement at their own
    /// width, of an `Sdata`, and of a `Udata` below 2^63. None for a greater one, and for any other
    /// value, `Data16` too.
    pub fn sdata_value(&self) -> Option<i64>
        ensures { result ≡ sdata_of (map_value R.view R.Offset.number self.now) }
    {
        match self {
            AttributeValue::Data1(data) => Some(signed_of(u64::from(*data), 0x80)),
            AttributeValue::Data2(data) => Some(signed_of(u64::from(*data), 0x8000)),
            AttributeValue::Data4(data) => Some(signed_of(u64::from(*data), 0x8000_0000)),
            AttributeValue::Data8(data) => Some(signed_of(*data, 0x8000_0000_0000_0000)),
            AttributeValue::Sdata(data) => Some(*data),
            AttributeValue::Udata(data) => {
                if *data < 0x8000_0000_0000_0000 {
                    Some(*data as i64)
                } else {
                    None
                }
            }
            _ => None,
        }
    }

    /// The offset of a `SecOffset`, as the form sec_offset reads, or data4 and data8 under some
    /// names. None for any other value, also for an offset whose variant names its section, as
    /// `DebugLineRef`.
    pub fn offset_value(&self) -> Option<R::Offset>
        ensures { option_map R.Offset.number result
            ≡ sec_offset_of (map_value R.view R.Offset.number self.now) }
    {
        match self {
            AttributeValue::SecOffset(offset) => Some(*offset),
            _ => None,
        }
    }

    /// The value as an expression: of an `Exprloc`, and of a `Block`, as which versions 2 and 3
    /// write one. None for any other value.
    pub fn exprloc_value(&self) -> Option<Expression<R>>
        ensures { option_map (λ e. R.view e.0) result
            ≡ exprloc_of (map_value R.view R.Offset.number self.now) }
    {
        match self {
            AttributeValue::Block(bytes) => Some(Expression(bytes.copy())),
            AttributeValue::Exprloc(expression) => Some(expression.copy()),
            _ => None,
        }
    }

    /// The value as the bytes of a text, without the zero that ends it: of a `String`, and of a
    /// `DebugStrRef` those at its offset in `debug_str`. None where `debug_str` has no text there,
    /// and for any other value, an index or an offset into another section too.
    pub fn string_value(&self, debug_str: &DebugStr<R>) -> Option<R>
        ensures { option_map R.view result
            ≡ string_of (str_content R.view debug_str.now)
            (map_value R.view R.Offset.number self.now) }
    {
        match self {
            AttributeValue::String(text) => Some(text.copy()),
            AttributeValue::DebugStrRef(offset) => debug_str.get_str(*offset).ok(),
            _ => None,
        }
    }

    /// As `string_value`; and the text of a `DebugStrRefSup` is that at its offset in
    /// `debug_str_sup`, `.debug_str` of the supplementary file. None where that is not given, or
    /// has no text there.
    pub fn string_value_sup(
        &self,
        debug_str: &DebugStr<R>,
        debug_str_sup: Option<&DebugStr<R>>,
    ) -> Option<R>
        ensures { option_map R.view result
            ≡ string_sup_of (str_content R.view debug_str.now)
            (option_map (λ s. str_content R.view s.now) debug_str_sup.entry)
            (map_value R.view R.Offset.number self.now) }
    {
        match self {
            AttributeValue::DebugStrRefSup(offset) => debug_str_sup?.get_str(*offset).ok(),
            _ => self.string_value(debug_str),
        }
    }
}
