//! The attributes of a declaration, and the steps by which their values are passed.

ghost use Rattle.std.specs.Prelude.{◌≡◌, ◌++◌, ◌∷◌, [], List, take, nat_le, if◌then◌else◌, OnOk};
ghost use Rattle.std.specs.Prelude.{IfSome, false, true, None};
ghost use Rattle.gimli_base.specs.Abbreviations.{Specification, specifications_at};
ghost use Rattle.gimli_base.specs.Reading.{read_of, answer_leaving, UnlessMemory};
ghost use Rattle.gimli_base.specs.Steps.{AreSteps, IsRun};
ghost use Rattle.std.specs.Option.{option_copied};
ghost use Rattle.gimli_base.specs.declared.step.Step.{Step};

use crate::abbrev::AttributeSpecification;
use crate::step::Step;
use crate::{DW_AT_null, DW_AT_sibling, DW_FORM_null, Reader, Result};
use std::alloc::{AllocError, Allocator};
use std::fmt::{self, Debug};
use std::marker::Model;

// Makes `more` a copy of `few`; the items that it had are dropped. Where memory is refused, `more`
// is left anywhere.
#[inline(never)]
fn spill<T: Copy, A: Allocator>(
    few: &[T],
    more: &mut Vec<T, A>,
) -> std::result::Result<(), AllocError>
    ensures { OnOk result (more.new.items ≡ few.now) }
{
    more.clear();
    more.extend_from_slice(few)?;
    Ok(())
}

// The attributes of a declaration: up to twelve in place, since to ask for memory takes longer than
// to read a declaration, and more in a list of their own.
#[derive(Drop)]
struct Specifications<A: Allocator> {
    // how many stand in place, if all do
    count: usize,
    few: [AttributeSpecification; 12],
    // all of them, where `count` is more than there are places
    more: Vec<AttributeSpecification, A>,
}

impl<A: Allocator> Model for Specifications<A> {
    ghost Value = { List Specification };

    ghost view = { λ l. if nat_le l.count 12 then take l.count l.few else l.more.items };
}

impl<A: Allocator> Specifications<A> {
    // No attributes. No memory is asked for.
    #[inline(always)]
    fn new(alloc: A) -> Self
        ensures { result ≡ [] }
    {
        Specifications {
            count: 0,
            few: [AttributeSpecification::new(DW_AT_null, DW_FORM_null, None); 12],
            more: Vec::new(alloc),
        }
    }

    // The attributes, in their order.
    #[inline]
    fn as_slice(&self) -> &[AttributeSpecification]
        ensures { result.now ≡ self.now }
    {
        if self.count <= 12 {
            &self.few[..self.count]
        } else {
            &self.more
        }
    }

    // Adds an attribute as the last. Memory is asked for from the thirteenth on; where it is
    // refused, the list is left anywhere.
    #[inline(always)]
    fn push(&mut self, specification: AttributeSpecification) -> std::result::Result<(), AllocError>
        ensures { OnOk result (self.new ≡ self.old ++ specification ∷ []) }
    {
        if self.count < 12 {
            self.few[self.count] = specification;
            self.count += 1;
            return Ok(());
        }
        if self.count == 12 {
            spill(&self.few, &mut self.more)?;
            self.count = 13;
        }
        self.more.push(specification)?;
        Ok(())
    }
}

// The steps of a declaration, likewise: thirteen in place, since each of twelve attributes ends a
// step at most, and after the last of them comes one step more.
#[derive(Drop)]
struct Steps<A: Allocator> {
    // how many stand in place, if all do
    count: usize,
    few: [Step; 13],
    // all of them, where `count` is more than there are places
    more: Vec<Step, A>,
}

impl<A: Allocator> Model for Steps<A> {
    ghost Value = { List Step };

    ghost view = { λ l. if nat_le l.count 13 then take l.count l.few else l.more.items };
}

impl<A: Allocator> Steps<A> {
    // No steps. No memory is asked for.
    #[inline(always)]
    fn new(alloc: A) -> Self
        ensures { result ≡ [] }
    {
        Steps {
            count: 0,
            few: [Step::new(); 13],
            more: Vec::new(alloc),
        }
    }

    // The steps, in their order.
    #[inline]
    fn as_slice(&self) -> &[Step]
        ensures { result.now ≡ self.now }
    {
        if self.count <= 13 {
            &self.few[..self.count]
        } else {
            &self.more
        }
    }

    // Adds a step as the last. Memory is asked for from the fourteenth on; where it is refused, the
    // list is left anywhere.
    #[inline(always)]
    fn push(&mut self, step: Step) -> std::result::Result<(), AllocError>
        ensures { OnOk result (self.new ≡ self.old ++ step ∷ []) }
    {
        if self.count < 13 {
            self.few[self.count] = step;
            self.count += 1;
            return Ok(());
        }
        if self.count == 13 {
            spill(&self.few, &mut self.more)?;
            self.count = 14;
        }
        self.more.push(step)?;
        Ok(())
    }
}

/// The attributes of a declaration, and the steps by which their values are passed.
#[derive(Drop)]
pub(crate) struct Attributes<A: Allocator> {
    // all values as one step, where that is kept (first, so that it lies near the code and the tag)
    whole: Option<Step>,
    specifications: Specifications<A>,
    steps: Steps<A>,
}

impl<A: Allocator> Debug for Attributes<A> {
    // Shows the list of the attributes alone, without the steps.
    fn fmt<W: fmt::Write>(&self, f: &mut fmt::Formatter<W>) -> fmt::Result {
        self.specifications().fmt(f)
    }
}

impl<A: Allocator> Attributes<A> {
    /// The attributes, in their order.
    #[inline]
    pub(crate) fn specifications(&self) -> &[AttributeSpecification]
        ensures { result.now ≡ self.now.specifications }
    {
        self.specifications.as_slice()
    }

    /// The steps, in their order: between two of them one value is read by itself.
    #[inline]
    pub(crate) fn steps(&self) -> &[Step]
        ensures { result.now ≡ self.now.steps }
    {
        self.steps.as_slice()
    }

    /// All values as one step; none where that is not kept.
    #[inline(always)]
    pub(crate) fn whole(&self) -> Option<&Step>
        ensures { option_copied result ≡ self.now.whole }
    {
        self.whole.as_ref()
    }
}

// All values as one step, where `steps` are those of the attributes: the only step, or both of two
// with the value between them, where `Step::join` joins these. None else.
#[inline]
fn whole_of(specifications: &[AttributeSpecification], steps: &[Step]) -> Option<Step>
    requires { AreSteps false steps.now specifications.now }
    ensures { IfSome result (λ s. IsRun s specifications.now) }
{
    let (first, others) = steps.split_first()?;
    let Some((last, more)) = others.split_first() else {
        return Some(*first);
    };
    if !more.is_empty() {
        return None;
    }
    let (value, _) = specifications[first.values as usize..].split_first()?;
    first.join(value, last)
}

impl<A: Allocator + Copy> Attributes<A> {
    /// No attributes, and no steps yet. No memory is asked for.
    #[inline(always)]
    pub(crate) fn new(alloc: A) -> Self
        ensures { result ≡ record { specifications = []; steps = []; whole = None } }
    {
        Attributes {
            whole: None,
            specifications: Specifications::new(alloc),
            steps: Steps::new(alloc),
        }
    }

    /// Reads the declared attributes up to the two zeros that end their list, which are passed, and
    /// makes their steps. `self` has to be as `new` answers it.
    ///
    /// Refusals: those of `AttributeSpecification::parse`, of each attribute in order, and
    /// `OutOfMemory`. The input and `self` are then left anywhere.
    #[inline(always)]
    pub(crate) fn parse<R: Reader>(&mut self, input: &mut R) -> Result<()>
        requires { self.old ≡ record { specifications = []; steps = []; whole = None } }
        ensures read { UnlessMemory result
            (read_of (answer_leaving self.new.specifications result) (R.view input.new)
            ≡ specifications_at (R.view input.old)) }
        ensures steps { OnOk result (AreSteps false self.new.steps self.new.specifications) }
        ensures whole { OnOk result
            (IfSome self.new.whole (λ s. IsRun s self.new.specifications)) }
    {
        let mut run = Step::new();
        let mut is_seen = false;
        while let Some(specification) = AttributeSpecification::parse(input)? {
            if !run.push(&specification, is_seen) {
                let ended = run;
                run = Step::new();
                self.steps.push(ended)?;
                is_seen |= specification.name() == DW_AT_sibling;
            }
            self.specifications.push(specification)?;
        }
        self.steps.push(run)?;
        self.whole = whole_of(self.specifications(), self.steps());
        Ok(())
    }
}
