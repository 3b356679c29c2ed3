//! The check of a unit's sibling references.

ghost use Rattle.std.specs.Prelude.{◌≡◌, ℕ};
ghost use Rattle.gimli_c.specs.Units.{unit_of, declarations_of};
ghost use Rattle.gimli_c.specs.Status.{end, memory_refused};
ghost use Rattle.gimli_c.specs.Siblings.{read_false, StandsIn, AreHonestIn};
ghost use Rattle.gimli_c.specs.Memory.{CheckMemory};

use crate::sections::UnitSections;
use crate::status::{END, MORE, refusal_status};
use gimli_base::{DebugAbbrev, Reader, ReaderOffset, Section};
use gimli_headers::first_false_sibling;
use std::alloc::Allocator;

/// Finds the first row of the unit at `unit` whose sibling reference is false, as
/// `first_false_sibling` does. `MORE`: it stands at `offset` of the unit. `END`: there is none. Any
/// other is the status of a refusal: of the unit, of its table, or of memory for the check. Unless
/// it is `MORE`, `offset` is as it was.
pub(crate) fn find_false<R: Reader, A: Allocator + Copy>(
    alloc: A,
    sections: &UnitSections<R>,
    unit: R::Offset,
    offset: &mut u64,
) -> u32
    ensures outcome { let u = unit_of R.Offset.limit R.view sections.now (R.Offset.number unit) in
        let declarations = declarations_of R.view sections.now in
        (result ≡ memory_refused → ⊥) →
        (result, offset.new) ≡ read_false R.Offset.limit u declarations offset.old }
    ensures starts { let u = unit_of R.Offset.limit R.view sections.now (R.Offset.number unit) in
        let declarations = declarations_of R.view sections.now in
        result ≡ end → (at : ℕ) → StandsIn R.Offset.limit u declarations at →
        AreHonestIn R.Offset.limit u declarations at }
    ensures memory { let u = unit_of R.Offset.limit R.view sections.now (R.Offset.number unit) in
        CheckMemory R.Offset.limit u (declarations_of R.view sections.now) result }
{
    let header = match sections.header(unit) {
        Ok(header) => header,
        Err(error) => return refusal_status(error),
    };
    let table = match header.abbreviations(alloc, &sections.abbreviations) {
        Ok(table) => table,
        Err(error) => return refusal_status(error),
    };
    match first_false_sibling(alloc, &header, &table) {
        Ok(Some(first)) => {
            *offset = first.0.into_u64();
            MORE
        }
        Ok(None) => END,
        Err(error) => refusal_status(error),
    }
}
