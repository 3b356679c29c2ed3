//! Sinks: what attributes are handed to as they are read.

ghost use Rattle.std.specs.Prelude.{◌≡◌};
ghost use Rattle.gimli_units.specs.Value.{map_value, map_attribute};
ghost use Rattle.gimli_units.specs.Entry.{Attr, with_value};

use super::Attribute;
use crate::AttributeValue;
use gimli_base::{AttributeSpecification, Reader};

/// What an attribute is handed to, once, when its value is read; where it is refused, it is not.
///
/// An impl says what a sink and its answer stand for (`meaning`), what that is when an attribute is
/// taken (`after_take`), and when one more can be (`has_room`).
pub trait AttributeSink<R: Reader> {
    /// What taking an attribute answers.
    type Answer;

    // what a sink and its answer stand for
    ghost Meaning: { Type 0 };

    ghost meaning: { Self → Self.Answer → Meaning };

    // the same, by what the attribute stands for
    ghost after_take: { Self → Attr → Meaning };

    // whether one more can be taken
    ghost has_room: { Self → Type 0 };

    /// Takes the attribute of a specification, whose value is this one; answers what the sink makes
    /// of it.
    fn take(
        &mut self,
        specification: &AttributeSpecification,
        value: AttributeValue<R>,
    ) -> Self::Answer
        requires { has_room self.old }
        ensures { meaning self.new result ≡ after_take self.old
            (with_value specification.now (map_value R.view R.Offset.number value)) };
}

/// A sink that hands the attribute back.
#[derive(Drop)]
pub(crate) struct Return;

impl<R: Reader> AttributeSink<R> for Return {
    type Answer = Attribute<R>;

    ghost Meaning = { Attr };

    ghost meaning = { λ _ a. map_attribute R.view R.Offset.number a };

    ghost after_take = { λ _ a. a };

    ghost has_room = { λ _. Unit {0} };

    #[inline]
    fn take(
        &mut self,
        specification: &AttributeSpecification,
        value: AttributeValue<R>,
    ) -> Attribute<R>
        ensures { map_attribute R.view R.Offset.number result
            ≡ with_value specification.now (map_value R.view R.Offset.number value) }
    {
        Attribute {
            name: specification.name(),
            form: specification.form(),
            value,
        }
    }
}

/// A sink that lets go what it is handed.
#[derive(Drop)]
pub(crate) struct Ignore;

impl<R: Reader> AttributeSink<R> for Ignore {
    type Answer = ();

    ghost Meaning = { Unit {0} };

    ghost meaning = { λ _ _. tt };

    ghost after_take = { λ _ _. tt };

    ghost has_room = { λ _. Unit {0} };

    #[inline(always)]
    fn take(&mut self, _specification: &AttributeSpecification, _value: AttributeValue<R>)
        ensures { Unit {0} }
    {}
}
