// Types, structs and their cells.

ghost use Rattle.std.specs.Prelude.{◌≡◌, ◌+◌, Some, None, map, IfOk, MatchOption, is_some};
ghost use Rattle.std.specs.Option.{option_copied, option_map};
ghost use Rattle.c_tree.specs.Env.{base_cells, base_kind, cells_of, fields_of, kind_of, laid_out, laid_out_base, reaches, signature_at, target};
ghost use Rattle.c_tree.specs.Checks.{cells_before, cells_if, type_faults};
ghost use Rattle.c_tree.specs.Rules.{laid_out_if, not_laid_out};
ghost use Rattle.c_value_checker.specs.Noted.{noted};
ghost use Rattle.c_value_checker.specs.Seen.{seen, takes_seen};
ghost use Rattle.c_value_checker.specs.Structures.{field_seen};

use crate::environment::Environment;
use crate::faults::Findings;
use crate::kinds::is_pointer;
use crate::structures::Field;
use crate::takes::Takes;
use c_tree::{Base, CType, Kind, KindBase, Name, Sort, Width};
use sqlite_items::at;
use vg_base::Memory;

// As many cells as no struct has that is laid out.
const TOO_MANY_CELLS: u64 = 1 << 62;

/// What a pointer leads to.
pub fn target(kind: Kind) -> Kind
    ensures { result ≡ target kind }
{
    Kind {
        base: kind.base,
        stars: kind.stars.saturating_sub(1),
    }
}

fn sum(a: u64, b: u64) -> Result<u64, Memory>
    ensures { IfOk result (λ sum. sum ≡ a + b) }
{
    match a.checked_add(b) {
        None => Err(Memory),
        Some(sum) => Ok(sum),
    }
}

impl<'n> Environment<'n> {
    /// The signature with a number.
    #[tactic(auto, using(crate::proofs::StructLemmas::takes_number))]
    pub fn signature(&self, number: u32) -> Option<&Takes>
        ensures { option_map takes_seen (option_copied result) ≡ signature_at (seen self.now).signatures number }
    {
        at(self.signatures.as_slice(), number as usize)
    }

    /// The fields of a struct that is defined.
    pub fn fields(&self, number: u32) -> Option<&[Field]>
        ensures { MatchOption result
            (fields_of (seen self.now) number ≡ None)
            (λ fields. fields_of (seen self.now) number ≡ Some (map field_seen fields.now)) }
    {
        match self.structs.get(number) {
            None => None,
            Some(structure) => match &structure.fields {
                None => None,
                Some(fields) => Some(fields.as_slice()),
            },
        }
    }

    fn base_cells(&self, base: KindBase) -> u64
        ensures { result ≡ base_cells (seen self.now) base }
    {
        match base {
            KindBase::Struct(number) => match self.structs.get(number) {
                None => 0,
                Some(structure) => structure.cells,
            },
            _ => 1,
        }
    }

    /// How many cells a kind takes.
    pub fn cells_of(&self, kind: Kind) -> u64
        ensures { result ≡ cells_of (seen self.now) kind }
    {
        if is_pointer(kind) {
            1
        } else {
            self.base_cells(kind.base)
        }
    }

    /// The cells of a kind that may be unknown.
    pub fn cells_if(&self, kind: Option<Kind>) -> u64
        ensures { result ≡ cells_if (seen self.now) kind }
    {
        match kind {
            None => 0,
            Some(kind) => self.cells_of(kind),
        }
    }

    /// The cells in front of the field with a name.
    pub fn cells_before(&self, fields: &[Field], name: &Name) -> Result<u64, Memory>
        ensures { IfOk result (λ cells. cells ≡ cells_before (seen self.now) (map field_seen fields.now) name.now.text) }
    {
        let mut cells = 0;
        for field in fields {
            if field.name.as_slice() == name.text.as_slice() {
                return Ok(cells);
            }
            cells = sum(cells, self.cells_if(field.kind))?;
        }
        Ok(cells)
    }

    fn is_base_laid_out(&self, base: KindBase) -> bool
        ensures { result ≡ laid_out_base (seen self.now) base }
    {
        match base {
            KindBase::Void => false,
            KindBase::Struct(number) => {
                self.fields(number).is_some() && self.base_cells(base) < TOO_MANY_CELLS
            }
            _ => true,
        }
    }

    /// Whether the cells of a kind are known and few enough.
    pub fn is_laid_out(&self, kind: Kind) -> bool
        ensures { result ≡ laid_out (seen self.now) kind }
    {
        is_pointer(kind) || self.is_base_laid_out(kind.base)
    }

    /// Whether a kind is a pointer that leads to what is laid out.
    pub fn reaches(&self, kind: Kind) -> bool
        ensures { result ≡ reaches (seen self.now) kind }
    {
        is_pointer(kind) && self.is_laid_out(target(kind))
    }

    fn base_kind(&self, base: &Base) -> Option<Kind>
        ensures { result ≡ base_kind (seen self.now) base.now }
    {
        match base {
            Base::Void => Some(Kind {
                base: KindBase::Void,
                stars: 0,
            }),
            Base::Int => Some(Kind {
                base: KindBase::Integer(Width::ThirtyTwo, true),
                stars: 0,
            }),
            Base::Char => Some(Kind {
                base: KindBase::Integer(Width::Eight, true),
                stars: 0,
            }),
            Base::Named(name) => match self.find(name) {
                Some(Sort::Type(kind)) => Some(kind),
                _ => None,
            },
        }
    }

    /// What a type means; an undeclared one nothing.
    pub fn kind_of(&self, declared: &CType) -> Result<Option<Kind>, Memory>
        ensures { IfOk result (λ kind. kind ≡ kind_of (seen self.now) declared.now) }
    {
        match self.base_kind(&declared.base) {
            None => Ok(None),
            Some(kind) => match kind.stars.checked_add(declared.stars) {
                None => Err(Memory),
                Some(stars) => Ok(Some(Kind {
                    base: kind.base,
                    stars,
                })),
            },
        }
    }

    /// Notes an undeclared type.
    pub fn check_type(&self, findings: &mut Findings, declared: &CType)
        ensures { findings.new ≡ noted findings.old (type_faults (seen self.now) declared.now) }
    {
        if let Base::Named(name) = &declared.base {
            if self.find(name).is_none() {
                findings.undeclared(name);
            }
        }
    }

    /// The same of a kind that may be unknown.
    pub fn is_laid_out_if(&self, kind: Option<Kind>) -> bool
        ensures { result ≡ laid_out_if (seen self.now) kind }
    {
        match kind {
            None => true,
            Some(kind) => self.is_laid_out(kind),
        }
    }

    /// Notes a name of a kind whose cells are not known.
    pub fn check_laid_out(&self, findings: &mut Findings, kind: Option<Kind>, name: &Name)
        ensures { findings.new ≡ noted findings.old (not_laid_out (seen self.now) kind name.now) }
    {
        if !self.is_laid_out_if(kind) {
            findings.misfit(name.span);
        }
    }
}
