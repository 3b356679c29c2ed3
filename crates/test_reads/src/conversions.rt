//! The numbers and the expression that attributes and values can be made.

use crate::shown::write_either;
use gimli_base::{Expression, Reader, ReaderOffset};
use gimli_units::Attribute;
use std::alloc::Global;
use test_tables::{Text, hex_of};

// The numbers of an attribute or of a value, each with the name of its conversion.
macro_rules! numbers_of {
    ($converted:expr) => {
        [
            ("u8", $converted.u8_value().map(i128::from)),
            ("u16", $converted.u16_value().map(i128::from)),
            ("udata", $converted.udata_value().map(i128::from)),
            ("sdata", $converted.sdata_value().map(i128::from)),
            ("offset", $converted.offset_value().map(|it| i128::from(it.into_u64()))),
        ]
    };
}

/// Writes the conversions of an attribute that there are, and those of its value where they are others.
pub(crate) fn write_conversions<R: Reader>(attribute: &Attribute<R>, out: &mut Text) {
    let (value, alloc) = (attribute.raw_value(), out.alloc());
    let own = shown(alloc, numbers_of!(attribute), attribute.exprloc_value());
    let other = shown(alloc, numbers_of!(value), value.exprloc_value());
    write_either(&own, &other, " but of the value ", out);
}

// The numbers and the expression that there are, each after its name.
fn shown<R: Reader>(
    alloc: Global,
    numbers: [(&'static str, Option<i128>); 5],
    expression: Option<Expression<R>>,
) -> Text {
    let mut text = Text::new(alloc);
    for (name, number) in numbers {
        if let Some(number) = number {
            write!(text, " {name} {number}");
        }
    }
    if let Some(expression) = expression {
        write!(text, " exprloc ");
        hex_of(&mut text, &expression.0, ":");
    }
    text
}
