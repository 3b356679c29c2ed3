//! A list takes attributes onto its end.

ghost use Rattle.std.specs.Prelude.{◌≡◌, ◌+◌, ◌<◌, ℕ, List, map, ◌++◌, ◌∷◌, []};
ghost use Rattle.std.specs.Vec.{vec_len, vec_capacity};
ghost use Rattle.gimli_units.specs.Value.{map_value, map_attribute};
ghost use Rattle.gimli_units.specs.Entry.{Attr, with_value};

use super::Attribute;
use crate::AttributeValue;
use crate::attribute::sink::AttributeSink;
use gimli_base::{AttributeSpecification, Reader};
use std::alloc::Allocator;

// A list that has room: it stands for its attributes, and for how many they are and may be.
impl<R: Reader, A: Allocator> AttributeSink<R> for Vec<Attribute<R>, A> {
    type Answer = ();

    ghost Meaning = { List Attr × (ℕ × ℕ) };

    ghost meaning = { λ l _. (
      map (map_attribute R.view R.Offset.number) l.items,
      (vec_len l, vec_capacity l),
    ) };

    ghost after_take = { λ l a. (
      map (map_attribute R.view R.Offset.number) l.items ++ a ∷ [],
      (vec_len l + 1, vec_capacity l),
    ) };

    ghost has_room = { λ l. vec_len l < vec_capacity l };

    #[inline]
    fn take(&mut self, specification: &AttributeSpecification, value: AttributeValue<R>)
        requires { vec_len self.old < vec_capacity self.old }
        ensures { let read = map (map_attribute R.view R.Offset.number) in
            ◌≡◌ {A = List Attr × (ℕ × ℕ)}
            (read self.new.items, (vec_len self.new, vec_capacity self.new)) (
              read self.old.items
                  ++ with_value specification.now (map_value R.view R.Offset.number value) ∷ [],
              (vec_len self.old + 1, vec_capacity self.old),
            ) }
    {
        self.push_reserved(Attribute {
            name: specification.name(),
            form: specification.form(),
            value,
        });
    }
}
