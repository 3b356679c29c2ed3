//! Tables of abbreviations in a caller's buffers.

ghost use Rattle.std.specs.Prelude.{◌≡◌, ◌+◌, ◌<◌, ◌^◌, length, map, [], take, drop, IfOk, IfErr};
ghost use Rattle.gimli_base.specs.Abbreviations.{specifications_at, declaration_at};
ghost use Rattle.gimli_base.specs.Abbreviations.{declarations_at};
ghost use Rattle.gimli_c.specs.Tables.{specification_in, declared_in, count_of, have_room};
ghost use Rattle.gimli_c.specs.Tables.{IsTableAt};
ghost use Rattle.gimli_c.specs.Lists.{section_view};
ghost use Rattle.gimli_c.specs.TableReads.{WroteDeclared, ReadNext, IsScanned};
ghost use Rattle.gimli_c.specs.TableReads.{OwnSteps};

use crate::status::{END, MORE, UNORDERED, refusal_status};
use gimli_base::{
    AttributeSpecification, DW_FORM_implicit_const, DebugAbbrev, DwAt, DwForm, EndianSlice,
    Endianity, Error, Reader, Result, Section, Step,
};

/// A declaration of a table of abbreviations.
#[repr(C)]
#[derive(Clone, Copy, Debug)]
pub struct GimliDeclaration {
    /// The code by which entries name it, as `gimli_table` writes it; who reads by a table takes
    /// the place in it for the code, from 1 on.
    pub code: u64,
    /// The index of its first attribute among the specifications of the table.
    pub first: usize,
    /// The number of its attributes.
    pub attributes: usize,
    /// The tag of its entries.
    pub tag: u16,
    /// 1 where children follow its entries, else 0.
    pub has_children: u8,
}

/// A declared attribute.
#[repr(C)]
#[derive(Clone, Copy, Debug)]
pub struct GimliSpecification {
    /// The number that the form implicit_const has here; with any other form it says nothing.
    pub constant: i64,
    /// The name.
    pub name: u16,
    /// The form.
    pub form: u16,
    /// So many values from its own on are passed together; with no values it says nothing.
    pub step: Step,
}

/// A table of abbreviations: the declarations of the codes 1, 2, .., and their attributes.
#[repr(C)]
#[derive(Clone, Copy, Debug)]
pub struct GimliTable<'a> {
    /// The declarations, that of the code 1 first.
    pub declarations: &'a [GimliDeclaration],
    /// The attributes of all of them.
    pub specifications: &'a [GimliSpecification],
}

/// How much a table holds.
#[repr(C)]
#[derive(Clone, Copy, Debug)]
pub struct GimliCounted {
    /// The number of declarations.
    pub declarations: usize,
    /// The number of their attributes.
    pub specifications: usize,
}

impl GimliSpecification {
    // A declared attribute of the library as a caller has it. Its step has no values, and its
    // constant is 0 where the form has none.
    fn of(specification: AttributeSpecification) -> GimliSpecification
        ensures { specification_in result ≡ specification }
    {
        GimliSpecification {
            constant: specification.implicit_const_value().unwrap_or(0),
            name: specification.name().0,
            form: specification.form().0,
            step: Step::new(),
        }
    }

    /// This declared attribute as the library has it; `constant` is that of the form implicit_const
    /// alone.
    #[inline(always)]
    pub(crate) fn specification(&self) -> AttributeSpecification
        ensures { result ≡ specification_in self.now }
    {
        let form = DwForm(self.form);
        let constant = if form == DW_FORM_implicit_const {
            Some(self.constant)
        } else {
            None
        };
        AttributeSpecification::new(DwAt(self.name), form, constant)
    }
}

impl GimliDeclaration {
    /// The attributes of this declaration in the list of its table: those from `first` on, as many
    /// as `attributes` says, or fewer where the list ends before.
    #[inline(always)]
    pub(crate) fn attributes_in<'t>(
        &self,
        specifications: &'t [GimliSpecification],
    ) -> &'t [GimliSpecification]
        ensures { result.now ≡ declared_in specifications.now self.now }
    {
        part_of(specifications, self.first, self.attributes)
    }
}

/// `count` attributes of a list from the index `first` on, or fewer, or none, where the list ends
/// before.
#[inline(always)]
pub(crate) fn part_of(
    specifications: &[GimliSpecification],
    first: usize,
    count: usize,
) -> &[GimliSpecification]
    ensures { result.now ≡ take count (drop first specifications.now) }
{
    let first = first.min(specifications.len());
    let after = &specifications[first..];
    let count = count.min(after.len());
    &after[..count]
}

/// What reading a table answers.
#[derive(Clone, Copy)]
pub(crate) struct TableOutcome {
    pub(crate) status: u32,
    pub(crate) counted: GimliCounted,
}

// The outcome with this status where nothing is counted: both numbers are 0.
fn no_table(status: u32) -> TableOutcome
    ensures { result ≡ record { status = status; counted = count_of [] } }
{
    TableOutcome {
        status,
        counted: GimliCounted {
            declarations: 0,
            specifications: 0,
        },
    }
}

/// Reads the table at an offset of `.debug_abbrev`, first to count what it has, and then into the
/// buffers, if there is room for all. Status `END`: all is written and counted. `MORE`: there is no
/// room, and all is counted. Any other, where nothing is counted: the refusal of the offset;
/// `UNORDERED`, where the codes of the declarations before the first that is refused are not 1, 2,
/// ..; that refusal. The buffers are as they were unless the status is `END`.
pub(crate) fn read_table<E: Endianity>(
    abbreviations: &[u8],
    endian: E,
    offset: usize,
    declarations: &mut [GimliDeclaration],
    specifications: &mut [GimliSpecification],
) -> TableOutcome
    ensures { let v = section_view (E.big endian) abbreviations.now in
        IsTableAt offset v declarations.old specifications.old declarations.new
        specifications.new result.counted result.status }
{
    let mut input = EndianSlice::new(abbreviations, endian);
    match input.skip(offset) {
        Ok(()) => {}
        Err(error) => return no_table(refusal_status(error)),
    }
    let outcome = scan(&mut input.copy(), &mut [], &mut []);
    if outcome.status > END {
        return outcome;
    }
    if has_room(outcome.counted, declarations.len(), specifications.len()) {
        return scan(&mut input, declarations, specifications);
    }
    TableOutcome {
        status: MORE,
        counted: outcome.counted,
    }
}

// Whether there is room for what is counted: `room` is that for declarations, `space` that for
// attributes.
fn has_room(counted: GimliCounted, room: usize, space: usize) -> bool
    ensures { result ≡ have_room room space counted }
{
    counted.declarations <= room && counted.specifications <= space
}

// Reads the declarations up to the code 0 into the buffers, as far as there is room for them, and
// counts them all. The outcome is that of `read_table` at these bytes. Where the status is not
// `END`, the buffers are left anywhere, and so is the input in any case.
fn scan<R: Reader>(
    input: &mut R,
    declarations: &mut [GimliDeclaration],
    specifications: &mut [GimliSpecification],
) -> TableOutcome
    requires { length (R.view input.old).bytes < 2 ^ 63 }
    ensures { IsScanned (declarations_at (R.view input.old)) declarations.old specifications.old
        declarations.new specifications.new result.counted result.status }
{
    let mut count = 0;
    let mut used = 0;
    'declared: loop {
        match read_declaration(input, used, specifications) {
            Ok(Some(declared)) => {
                if declared.code != count as u64 + 1 {
                    return no_table(UNORDERED);
                }
                if count < declarations.len() {
                    declarations[count] = declared;
                }
                count += 1;
                used += declared.attributes;
            }
            Ok(None) => {
                let counted = GimliCounted {
                    declarations: count,
                    specifications: used,
                };
                let fits = has_room(counted, declarations.len(), specifications.len());
                let status = if fits { END } else { MORE };
                return TableOutcome { status, counted };
            }
            Err(error) => return no_table(refusal_status(error)),
        }
    }
}

// Reads the next declaration, whose attributes are written after the first `from`, as far as there
// is room for them; none at the code 0. Refusals, in the order of the bytes: of the code,
// `UnexpectedEof` and `BadUnsignedLeb128`; of the tag, these and `AbbreviationTagZero`; of the byte
// on children, `UnexpectedEof` and `InvalidAbbreviationChildren`; those of `read_specifications`.
// All is then left anywhere.
#[tactic(auto, unfolding(gimli_base::specs::Abbreviations::declared_at, gimli_base::specs::Abbreviations::tag_at, gimli_base::specs::Abbreviations::children_at))]
fn read_declaration<R: Reader>(
    input: &mut R,
    from: usize,
    specifications: &mut [GimliSpecification],
) -> Result<Option<GimliDeclaration>>
    requires { from + length (R.view input.old).bytes < 2 ^ 63 }
    ensures read { IfOk result (λ next. ReadNext from (R.view input.old) (R.view input.new)
        specifications.old specifications.new next) }
    ensures refused { IfErr result (λ e. Err e ≡ declaration_at (R.view input.old)) }
    ensures long { length specifications.new ≡ length specifications.old }
{
    let code = input.read_uleb128()?;
    if code == 0 {
        return Ok(None);
    }
    let tag = input.read_uleb128_u16()?;
    if tag == 0 {
        return Err(Error::AbbreviationTagZero);
    }
    let has_children = input.read_u8()?;
    if has_children > 1 {
        return Err(Error::InvalidAbbreviationChildren);
    }
    let attributes = read_specifications(input, from, specifications)?;
    Ok(Some(GimliDeclaration {
        code,
        first: from,
        attributes,
        tag,
        has_children,
    }))
}

// Reads the attributes of a declaration up to two zeros, and answers their number. They are written
// after the first `from`, as far as there is room for them; their steps too, where there is room
// for all. Refusals: those of `AttributeSpecification::read`; all is then left anywhere.
fn read_specifications<R: Reader>(
    input: &mut R,
    from: usize,
    specifications: &mut [GimliSpecification],
) -> Result<usize>
    requires { from + length (R.view input.old).bytes < 2 ^ 63 }
    ensures read { IfOk result (λ n. WroteDeclared from (R.view input.old) (R.view input.new)
        specifications.old specifications.new n) }
    ensures refused { IfErr result (λ e. Err e ≡ specifications_at (R.view input.old)) }
    ensures long { length specifications.new ≡ length specifications.old }
{
    let mut at = from;
    'each: while let Some(specification) = AttributeSpecification::read(input)? {
        if at < specifications.len() {
            specifications[at] = GimliSpecification::of(specification);
        }
        at += 1;
    }
    if at <= specifications.len() {
        put_steps(&mut specifications[from..at]);
    }
    Ok(at - from)
}

// Puts the steps of all attributes of a declaration, from the last on: that of an attribute is the
// one after it with its own value added, or, where that has no room, its own value alone. It has no
// values where the form does not tell their size.
fn put_steps(specifications: &mut [GimliSpecification])
    ensures steps { OwnSteps specifications.new }
    ensures same { map specification_in specifications.new
        ≡ map specification_in specifications.old }
    ensures long { length specifications.new ≡ length specifications.old }
{
    let mut step = Step::new();
    let mut index = specifications.len();
    'each: while index > 0 {
        index -= 1;
        let specification = specifications[index].specification();
        if !step.push(&specification, true) {
            step = Step::new();
            let _ = step.push(&specification, true);
        }
        specifications[index].step = step;
    }
}
