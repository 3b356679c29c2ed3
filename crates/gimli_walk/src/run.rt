//! Whole runs: every answer of an iterator, as far as there is memory for them.

ghost use Rattle.std.specs.Prelude.{◌≡◌, true, false, [], ◌∷◌, ◌++◌};
ghost use Rattle.std.specs.Iterator.{IsFinite, Yields, Drains};
ghost use Rattle.gimli_base.specs.declared.common.SectionId.TheVariants.{DebugInfo as InfoSection};
ghost use Rattle.gimli_base.specs.declared.common.SectionId.TheVariants.{DebugTypes as TypesSection};
ghost use Rattle.gimli_base.specs.Offset.{answer_of};
ghost use Rattle.gimli_base.specs.Chain.{each_answer};
ghost use Rattle.gimli_headers.specs.Units.{units_of};
ghost use Rattle.gimli_walk.specs.Runs.{IsRunOf, answers_of_run};
ghost use Rattle.gimli_units.specs.UnitHeld.{unit_view};
ghost use Rattle.gimli_headers.specs.Sections.{info_content, types_content};

use gimli_base::{Reader, Result, Section};
use gimli_headers::{DebugInfo, DebugTypes};
use gimli_units::UnitHeader;
use std::alloc::Allocator;

/// The answers of a run.
#[derive(Debug, PartialEq, Eq, Drop)]
pub struct Run<T, A: Allocator> {
    /// The answers, in order; where the run was stopped they are the first ones.
    pub answers: Vec<T, A>,
    /// Whether memory was refused, for the answers or for what they are read from.
    pub stopped: bool,
}

/// The items of an iterator that comes to an end, in order. Where memory for one is refused the run
/// is stopped, and holds the items before it.
pub(crate) fn run_all<T: Drop, I: Iterator<Item = T>, A: Allocator>(alloc: A, items: I) -> Run<T, A>
    requires can { I.can_next items }
    requires ends { IsFinite (I.remaining items) }
    ensures front { (rest : I) × Yields I.next_gives items result.answers.items rest }
    ensures fewer { result.stopped ≡ true →
        ((x : T) × (rest : I) × Yields I.next_gives items (result.answers.items ++ x ∷ []) rest) }
    ensures whole { result.stopped ≡ false → Drains I.next_gives items result.answers.items }
{
    let mut answers = Vec::new(alloc);
    'items: for item in items {
        if answers.push(item).is_err() {
            return Run {
                answers,
                stopped: true,
            };
        }
    }
    Run {
        answers,
        stopped: false,
    }
}

/// The units of `.debug_info` in order, and then the refusal that ends them, if it isn't the
/// section's end.
///
/// Where memory for the answers is refused the run is stopped, and holds the answers before.
pub fn run_units<R: Reader, A: Allocator + Copy>(
    alloc: A,
    debug_info: &DebugInfo<R>,
) -> Run<Result<UnitHeader<R>>, A>
    ensures { let section = info_content R.view debug_info.now in
        IsRunOf (answers_of_run (answer_of unit_view) result)
        (each_answer (units_of R.Offset.limit InfoSection section)) }
{
    run_all(alloc, debug_info.units())
}

/// The units of `.debug_types` in order, and then the refusal that ends them, if it isn't the
/// section's end.
///
/// Where memory for the answers is refused the run is stopped, and holds the answers before.
pub fn run_type_units<R: Reader, A: Allocator + Copy>(
    alloc: A,
    debug_types: &DebugTypes<R>,
) -> Run<Result<UnitHeader<R>>, A>
    ensures { let section = types_content R.view debug_types.now in
        IsRunOf (answers_of_run (answer_of unit_view) result)
        (each_answer (units_of R.Offset.limit TypesSection section)) }
{
    run_all(alloc, debug_types.units())
}
