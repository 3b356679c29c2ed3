//! Abbreviations: the declared shapes of entries (DWARF 5, 7.5.3).

ghost use Rattle.std.proofs.Common.{ap};
ghost use Rattle.std.specs.Prelude.{ℕ, ◌≡◌, ◌≢◌, ◌==◌, [], is_some, if◌then◌else◌, Some, None};
ghost use Rattle.std.specs.Prelude.{Option, OnOk, OnErr, IfOk, IfErr, IfSome, IsSome, unwrap_or, pos};
ghost use Rattle.std.specs.Prelude.{true, false, cond, length, ◌<◌, ◌^◌};
ghost use Rattle.std.specs.Option.{option_copied};
ghost use Rattle.std.specs.Ordering.{nat_cmp};
ghost use Rattle.std.specs.Map.{lookup};
ghost use Rattle.std.specs.BTreeMap.{is_at};
ghost use Rattle.gimli_base.specs.declared.error.Error.TheVariants.{OutOfMemory};
ghost use Rattle.gimli_base.specs.declared.common.SectionId.TheVariants.{DebugAbbrev as AbbrevSection};
ghost use Rattle.gimli_base.specs.Abbreviations.{
  Specification,
  Declaration,
  IsWellFormed,
  constant_of,
  specification_at,
  specifications_at,
  declared_at,
  map_of,
  map_at,
  declarations_at,
  is_headed,
  table_takes_memory,
  table_takes_memory_at,
};
ghost use Rattle.gimli_base.specs.Width.{width_of, form_size, attributes_size};
ghost use Rattle.std.specs.List.{All};
ghost use Rattle.gimli_base.specs.Steps.{AreSteps, IsRun};
ghost use Rattle.gimli_base.specs.Table.{Table, codes_of};
ghost use Rattle.gimli_base.specs.Offset.{answer_of};
ghost use Rattle.gimli_base.specs.Reading.{read_of, answer_leaving, map_read, UnlessMemory};
ghost use Rattle.gimli_base.specs.Sections.{abbrev_content};

use crate::attributes::Attributes;
use crate::step::Step;
use crate::width::Width;
use crate::{
    DW_AT_null, DW_CHILDREN_no, DW_CHILDREN_yes, DW_FORM_implicit_const, DW_FORM_null, DW_TAG_null,
    DebugAbbrevOffset, DwAt, DwForm, DwTag, Encoding, EndianSlice, Endianity, Error, Reader,
    Result, Section, SectionId,
};
use std::alloc::Allocator;
use std::collections::BTreeMap;
use std::fmt::{self, Debug};
use std::marker::Model;

/// A declared attribute: its name, its form, and for the form implicit_const its number.
#[derive(Clone, Copy, PartialEq, Eq)]
pub struct AttributeSpecification {
    name: DwAt,
    form: DwForm,
    // the form's, so that it is looked up once for all entries of the declaration
    width: Width,
    // the number of the form implicit_const, and 0 with any other
    constant: i64,
}

impl Model for AttributeSpecification {
    ghost Value = { Specification };

    ghost view = { λ s.
        record { name = s.name; form = s.form; constant = constant_of s.form.0 s.constant } };

    ghost inverse = { λ s.
        record {
          name = s.name;
          form = s.form;
          width = width_of s.form.0;
          constant = unwrap_or s.constant (pos 0);
        } };

    ghost invariant = { λ s. (s.width ≡ width_of s.form.0)
        × (unwrap_or (constant_of s.form.0 s.constant) (pos 0) ≡ s.constant) };
}

impl Debug for AttributeSpecification {
    // Shows the name, the form, its width, and the number of the form implicit_const.
    fn fmt<W: fmt::Write>(&self, f: &mut fmt::Formatter<W>) -> fmt::Result {
        f.debug_struct("AttributeSpecification")
            .field("name", &self.name)
            .field("form", &self.form)
            .field("width", &self.width)
            .field("implicit_const_value", &self.implicit_const_value())
            .finish()
    }
}

impl AttributeSpecification {
    /// A declared attribute. `implicit_const_value` has to be given with the form implicit_const,
    /// and with no other.
    #[inline]
    pub fn new(name: DwAt, form: DwForm, implicit_const_value: Option<i64>) -> Self
        requires { IsWellFormed
            (record { name = name; form = form; constant = implicit_const_value }) }
        ensures { result ≡ record { name = name; form = form; constant = implicit_const_value } }
    {
        AttributeSpecification {
            name,
            form,
            width: Width::of(form),
            constant: implicit_const_value.unwrap_or(0),
        }
    }

    /// The name.
    #[inline]
    pub fn name(&self) -> DwAt
        ensures { result ≡ self.now.name }
    {
        self.name
    }

    /// The form.
    #[inline]
    pub fn form(&self) -> DwForm
        ensures { result ≡ self.now.form }
    {
        self.form
    }

    /// The number that the form implicit_const has here; none with any other form.
    #[inline]
    pub fn implicit_const_value(&self) -> Option<i64>
        ensures value { result ≡ self.now.constant }
        ensures stands { is_some result ≡ (self.now.form.0 == 0x21) }
    {
        match self.form {
            DW_FORM_implicit_const => Some(self.constant),
            _ => None,
        }
    }

    /// The number of bytes of the form's value under an encoding (DWARF 5, 7.5.6). None where it
    /// depends on the bytes, and where the form is not known.
    #[inline]
    pub fn size(&self, encoding: Encoding) -> Option<u8>
        ensures { result ≡ form_size encoding self.now.form.0 }
    {
        self.width.size(encoding)
    }
}

impl AttributeSpecification {
    /// How many bytes the form's value takes, as `Width::of` answers.
    #[inline(always)]
    pub(crate) fn width(&self) -> Width
        ensures { result ≡ width_of self.now.form.0 }
    {
        self.width
    }

    /// Reads the next declared attribute; none where two zeros end the list, which are passed
    /// (DWARF 5, 7.5.3). A name or form that is not known is not refused. It is for those who keep
    /// declarations of their own: `DebugAbbrev::abbreviations` reads a table.
    ///
    /// Refusals, in this order: of the name and then of the form, `UnexpectedEof` and
    /// `BadUnsignedLeb128`; `AttributeNameZero` and `AttributeFormZero`; of the number of the form
    /// implicit_const, `UnexpectedEof` and `BadSignedLeb128`. The input is then as it was.
    #[inline]
    pub fn read<R: Reader>(input: &mut R) -> Result<Option<AttributeSpecification>>
        ensures value { read_of result (R.view input.new) ≡ specification_at (R.view input.old) }
        ensures kept { OnErr result (input.new ≡ input.old) }
    {
        let mut rest = input.copy();
        let specification = AttributeSpecification::parse(&mut rest)?;
        *input = rest;
        Ok(specification)
    }

    /// The next declared attribute; none where two zeros end the list. It is as `read`, with the
    /// same refusals in the same order; but after one the input is left anywhere.
    #[inline(always)]
    #[tactic(auto, unfolding(crate::specs::Abbreviations::specification_at))]
    pub(crate) fn parse<R: Reader>(input: &mut R) -> Result<Option<AttributeSpecification>>
        ensures { read_of result (R.view input.new) ≡ specification_at (R.view input.old) }
    {
        let name = DwAt(input.read_uleb128_u16()?);
        let form = DwForm(input.read_uleb128_u16()?);
        match (name, form) {
            (DW_AT_null, DW_FORM_null) => Ok(None),
            (DW_AT_null, _) => Err(Error::AttributeNameZero),
            (_, DW_FORM_null) => Err(Error::AttributeFormZero),
            (_, DW_FORM_implicit_const) => {
                let value = input.read_sleb128()?;
                Ok(Some(AttributeSpecification::new(name, form, Some(value))))
            }
            _ => Ok(Some(AttributeSpecification::new(name, form, None))),
        }
    }
}

// Does nothing. It is called for its clause: each attribute has a number exactly where its form is
// implicit_const.
fn are_formed(specifications: &[AttributeSpecification])
    ensures { All IsWellFormed specifications.now }
{
    let mut left = specifications;
    'each: while let Some((specification, others)) = left.split_first() {
        let _ = specification.implicit_const_value();
        left = others;
    }
}

// The number of bytes of the values of attributes together under an encoding. None where the form
// of one does not fix its size, and where the sum needs more than 64 bits, which it does not for
// fewer than 2^32 attributes.
fn sum_of_sizes(specifications: &[AttributeSpecification], encoding: Encoding) -> Option<u64>
    ensures exact { IfSome result (λ n. attributes_size encoding specifications.now ≡ Some n) }
    ensures known { length specifications.now < 2 ^ 32
        → result ≡ attributes_size encoding specifications.now }
{
    let mut sum: u64 = 0;
    let mut left = specifications;
    'sizes: while let Some((specification, others)) = left.split_first() {
        sum = sum.checked_add(u64::from(specification.size(encoding)?))?;
        left = others;
    }
    Some(sum)
}

/// The declaration of an abbreviation: a code, and the tag, the children flag and the attributes of
/// its entries.
#[derive(Drop)]
#[derive_where(Debug)]
pub struct Abbreviation<A: Allocator> {
    code: u64,
    tag: DwTag,
    has_children: bool,
    attributes: Attributes<A>,
}

impl<A: Allocator> Model for Abbreviation<A> {
    ghost Value = { Declaration };

    ghost view = { λ a.
        record {
          code = a.code;
          tag = a.tag;
          has_children = a.has_children;
          attributes = a.attributes.specifications;
        } };

    ghost invariant = { λ a. (a.tag.0 ≢ 0)
        × AreSteps false a.attributes.steps a.attributes.specifications
        × IfSome a.attributes.whole (λ s. IsRun s a.attributes.specifications) };
}

impl<A: Allocator> Abbreviation<A> {
    /// The code by which entries name the abbreviation.
    #[inline]
    pub fn code(&self) -> u64
        ensures { result ≡ self.now.code }
    {
        self.code
    }

    /// The tag of the entries, which is never 0.
    #[inline]
    pub fn tag(&self) -> DwTag
        ensures value { result ≡ self.now.tag }
        ensures set { result.0 ≢ 0 }
    {
        self.tag
    }

    /// Whether a list of children, which a null entry ends, follows each of the entries.
    #[inline]
    pub fn has_children(&self) -> bool
        ensures { result ≡ self.now.has_children }
    {
        self.has_children
    }

    /// The attributes of the entries, in their order.
    #[inline]
    pub fn attributes(&self) -> &[AttributeSpecification]
        ensures { result.now ≡ self.now.attributes }
    {
        self.attributes.specifications()
    }

    /// The number of bytes of all values of an entry together under an encoding (DWARF 5, 7.5.6).
    /// None where the form of one does not fix its size; of 2^32 attributes and more it may be none
    /// too.
    pub fn attributes_size(&self, encoding: Encoding) -> Option<u64>
        ensures exact { IfSome result (λ n.
            attributes_size encoding self.now.attributes ≡ Some n) }
        ensures known { length self.now.attributes < 2 ^ 32
            → result ≡ attributes_size encoding self.now.attributes }
        ensures formed { All IsWellFormed self.now.attributes }
    {
        are_formed(self.attributes());
        if let Some(step) = self.whole_step() {
            return Some(step.size(encoding));
        }
        sum_of_sizes(self.attributes(), encoding)
    }

    /// All values of an entry as one step, also that of a DW_AT_sibling; none where the declaration
    /// keeps no such step. It keeps one where it has one step, and where it has two, if the form of
    /// the value between them fixes its size and one step has room for all.
    #[inline(always)]
    pub fn whole_step(&self) -> Option<&Step>
        ensures { IfSome (option_copied result) (λ s. IsRun s self.now.attributes) }
    {
        self.attributes.whole()
    }

    /// The steps by which the values of the entries are passed, in their order; there is at least
    /// one. Between two of them one value is read by itself. The first DW_AT_sibling is always such
    /// a value.
    #[inline]
    pub fn steps(&self) -> &[Step]
        ensures { AreSteps false result.now self.now.attributes }
    {
        self.attributes.steps()
    }
}

// Reads a declaration after its code: answers the tag and the flag `has_children`, and fills
// `attributes`, which have to be as `Attributes::new` answers them. Refusals, in this order: of the
// tag, `UnexpectedEof`, `BadUnsignedLeb128` and `AbbreviationTagZero`; of the flag, `UnexpectedEof`
// and `InvalidAbbreviationChildren`; those of `Attributes::parse`, before which no memory is asked
// for. The input and the attributes are then left anywhere.
#[inline(always)]
#[tactic(auto, unfolding(crate::specs::Abbreviations::declared_at, crate::specs::Abbreviations::is_headed, crate::specs::Abbreviations::tag_at, crate::specs::Abbreviations::children_at))]
fn parse_declared<R: Reader, A: Allocator + Copy>(
    input: &mut R,
    attributes: &mut Attributes<A>,
) -> Result<(DwTag, bool)>
    requires { attributes.old ≡ record { specifications = []; steps = []; whole = None } }
    ensures declared { UnlessMemory result
        ((code : ℕ) → map_read
        (λ r.
        record {
          code = code;
          tag = r.0;
          has_children = r.1;
          attributes = attributes.new.specifications;
        })
        (read_of result (R.view input.new))
        ≡ declared_at code (R.view input.old)) }
    ensures steps { OnOk result
        (AreSteps false attributes.new.steps attributes.new.specifications) }
    ensures whole { OnOk result
        (IfSome attributes.new.whole (λ s. IsRun s attributes.new.specifications)) }
    ensures tag { IfOk result (λ r. r.0.0 ≢ 0) }
    ensures headed { OnOk result (is_headed (R.view input.old) ≡ true) }
    ensures without_memory { is_headed (R.view input.old) ≡ false →
        IfErr result (λ e. (code : ℕ) → Err e ≡ declared_at code (R.view input.old)) }
{
    let tag = DwTag(input.read_uleb128_u16()?);
    if tag == DW_TAG_null {
        return Err(Error::AbbreviationTagZero);
    }
    let has_children = match input.read_u8()? {
        DW_CHILDREN_no => false,
        DW_CHILDREN_yes => true,
        _ => return Err(Error::InvalidAbbreviationChildren),
    };
    attributes.parse(input)?;
    Ok((tag, has_children))
}

// Puts a declaration under `code` into those whose codes are not in order; one that is there
// already is replaced. Refusal: `OutOfMemory`; the map is then left anywhere.
//
// It is a function of its own, as the place of what the map hands back, larger than a declaration,
// is set to zero where its body begins.
#[inline(always)]
fn insert_other<A: Allocator + Copy>(
    others: &mut BTreeMap<u64, Abbreviation<A>, A>,
    code: u64,
    declared: Abbreviation<A>,
) -> Result<()>
    ensures updates { OnOk result ((q : ℕ) → lookup (is_at (nat_cmp q)) others.new.entries
        ≡ cond (is_at (nat_cmp code) q) (Some declared)
        (lookup (is_at (nat_cmp q)) others.old.entries)) }
    ensures refusal { IfErr result (λ e. e ≡ OutOfMemory) }
{
    others.insert(code, declared)?;
    Ok(())
}

/// A table of abbreviations: a finite map of codes to declarations.
#[derive(Drop)]
#[derive_where(Debug)]
pub struct Abbreviations<A: Allocator> {
    // those of the codes 1, 2, .. in order
    dense: Vec<Abbreviation<A>, A>,
    others: BTreeMap<u64, Abbreviation<A>, A>,
}

impl<A: Allocator> Model for Abbreviations<A> {
    ghost Value = { Table };

    ghost view = { λ t. record { dense = t.dense.items; others = t.others.entries } };
}

impl<A: Allocator> Abbreviations<A> {
    /// The declaration of a code; none where no declaration has it. It takes constant time where
    /// the codes 1, 2, .. are declared in order, else logarithmic time.
    #[inline]
    #[tactic(auto, unfolding(crate::specs::Table::codes_of))]
    pub fn get(&self, code: u64) -> Option<&Abbreviation<A>>
        ensures { option_copied result ≡ codes_of self.now code }
    {
        if 0 < code {
            let index = code - 1;
            if index < self.dense.len() as u64 {
                return Some(&self.dense[index as usize]);
            }
        }
        self.others.get(&code)
    }
}

impl<A: Allocator + Copy> Abbreviations<A> {
    // A table without declarations. No memory is asked for.
    fn new(alloc: A) -> Self
        ensures { result ≡ record { dense = []; others = [] } }
    {
        Abbreviations {
            dense: Vec::new(alloc),
            others: BTreeMap::new(alloc),
        }
    }

    // Adds a declaration. Refusals: `DuplicateAbbreviationCode` where its code is declared already;
    // `OutOfMemory`. The table is then left anywhere.
    #[inline(always)]
    fn insert(&mut self, declared: Abbreviation<A>) -> Result<()>
        ensures ok { OnOk result
            ((code : ℕ) → codes_of self.new code
            ≡ (if declared.code == code then Some declared else codes_of self.old code)) }
        ensures new { OnOk result (codes_of self.old declared.code ≡ None) }
        ensures refused { UnlessMemory result
            (IfErr result (λ e.
            (e ≡ Error.DuplicateAbbreviationCode) × IsSome (codes_of self.old declared.code))) }
    {
        let code = declared.code;
        if self.get(code).is_some() {
            return Err(Error::DuplicateAbbreviationCode);
        }
        if 0 < code && code - 1 == self.dense.len() as u64 {
            // (`push` hands back what it refuses, in a result as large as the declaration)
            self.dense.reserve(1)?;
            self.dense.push_reserved(declared);
            return Ok(());
        }
        insert_other(&mut self.others, code, declared)?;
        Ok(())
    }

    // Reads the declarations up to the code 0, which is passed, and answers their table. Refusals:
    // of each declaration in order, those of its code (`UnexpectedEof`, `BadUnsignedLeb128`), those
    // of `parse_declared`, and `DuplicateAbbreviationCode`; `OutOfMemory`. The input is then left
    // anywhere.
    fn parse<R: Reader>(alloc: A, input: &mut R) -> Result<Abbreviations<A>>
        ensures value { UnlessMemory result
            (answer_of codes_of result ≡ map_of (declarations_at (R.view input.old))) }
        ensures without_memory { table_takes_memory (R.view input.old) ≡ false →
            answer_of codes_of result ≡ map_of (declarations_at (R.view input.old)) }
    {
        let mut table = Abbreviations::new(alloc);
        loop {
            let code = input.read_uleb128()?;
            if code == 0 {
                return Ok(table);
            }
            let mut attributes = Attributes::new(alloc);
            let (tag, has_children) = parse_declared(input, &mut attributes)?;
            table.insert(Abbreviation {
                code,
                tag,
                has_children,
                attributes,
            })?;
        }
    }
}

/// The section `.debug_abbrev`.
#[derive(Clone, Copy, Debug, Default)]
pub struct DebugAbbrev<R> {
    section: R,
}

impl<'a, E: Endianity> DebugAbbrev<EndianSlice<'a, E>> {
    /// The section of these bytes, in the byte order `endian`. Its first place is 0.
    pub fn new(bytes: &'a [u8], endian: E) -> Self
        ensures { ⟦<DebugAbbrev<EndianSlice<'a, E>> as Section<EndianSlice<'a, E>>>⟧.content result
            ≡ record { big = E.big endian; place = 0; bytes = bytes.now } }
    {
        DebugAbbrev {
            section: EndianSlice::new(bytes, endian),
        }
    }
}

impl<R> From<R> for DebugAbbrev<R> {
    ghost from_gives = { λ r s. s.section ≡ r };

    fn from(section: R) -> Self {
        DebugAbbrev { section }
    }
}

impl<R: Reader> Section<R> for DebugAbbrev<R> {
    ghost section = { AbbrevSection };

    ghost content = { λ s. R.view s.section };

    ghost content_of_from = { λ _ _ same. ap R.view same };

    fn id() -> SectionId {
        SectionId::DebugAbbrev
    }

    fn reader(&self) -> &R {
        &self.section
    }
}

impl<R: Reader> DebugAbbrev<R> {
    /// The table of the declarations at an offset of the section, up to the code 0 (DWARF 5,
    /// 7.5.3). Memory is taken only where a first declaration is read as far as its attributes.
    ///
    /// Refusals: `UnexpectedEof`, with the section's first place, where the offset lies after the
    /// section's end; then the first that comes as the declarations are read in order:
    /// `UnexpectedEof`, `BadUnsignedLeb128`, `AbbreviationTagZero`, `InvalidAbbreviationChildren`,
    /// `AttributeNameZero`, `AttributeFormZero`, `BadSignedLeb128`, and, after the second
    /// declaration of a code, `DuplicateAbbreviationCode`. `OutOfMemory` where memory is refused.
    #[tactic(auto, unfolding(crate::specs::Abbreviations::map_at, crate::specs::Abbreviations::table_takes_memory_at))]
    pub fn abbreviations<A: Allocator + Copy>(
        &self,
        alloc: A,
        offset: DebugAbbrevOffset<R::Offset>,
    ) -> Result<Abbreviations<A>>
        ensures value { let section = abbrev_content R.view self.now in
            UnlessMemory result
            (answer_of codes_of result ≡ map_at (R.Offset.number offset.0) section) }
        ensures without_memory { let section = abbrev_content R.view self.now in
            table_takes_memory_at (R.Offset.number offset.0) section ≡ false →
            answer_of codes_of result ≡ map_at (R.Offset.number offset.0) section }
    {
        let mut input = self.section.copy();
        input.skip(offset.0)?;
        Abbreviations::parse(alloc, &mut input)
    }
}
