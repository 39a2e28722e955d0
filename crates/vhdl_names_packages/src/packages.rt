//! What the packages declare (IEEE 1076-2008, 16.3, 16.7 and 16.8).

ghost use Rattle.std.specs.Prelude.{◌≡◌, Some, ◌∷◌, [], map, if◌then◌else◌, IfOk, IfErr};
ghost use Rattle.vhdl_names_packages.specs.Contexts.{context_view};
ghost use Rattle.vhdl_names_declarations.specs.Entered.{more};
ghost use Rattle.vhdl_names_packages.specs.Rows.{builtin_view, row_view};
ghost use Rattle.vhdl_names_rules.specs.Gives.{Gives};
ghost use Rattle.vhdl_names_rules.specs.Packages as rules;
ghost use Rattle.vhdl_names_sight.specs.Views.{meaning_view, region_view};
ghost use Rattle.vhdl_names_rules.specs.problems.Broken.{Tells, refused, nothing};
ghost use Rattle.vhdl_names_rules.specs.declared.fault.NameProblem.TheVariants.{Twice};

use crate::context::Context;
use indexmap::IndexMap;
use std::alloc::Global;
use vhdl_lexer::Language;
use vhdl_names_declarations::declare_name;
use vhdl_names_rules::{ElementKind, Function, IntegerType, NameFault};
use vhdl_names_sight::{Meaning, Region, Sight, names_are_apart};
use vhdl_values::{Counted, Edge, Shift};

/// What a package declares.
#[derive(Clone, Copy)]
pub enum Builtin {
    Integers(IntegerType),
    Booleans,
    /// `false` or `true`.
    Boolean(bool),
    /// A type of elements, and whether it is resolved.
    Elements(bool),
    /// A type of vectors, and whether it is resolved.
    Vectors(ElementKind, bool),
    Call(Function),
}

/// A name that a package declares.
#[derive(Clone, Copy)]
pub struct Row {
    pub name: &'static [u8],
    pub builtin: Builtin,
}

/// The integers of package standard of library std.
pub const INTEGERS: [Row; 3] = [
    Row {
        name: b"integer",
        builtin: Builtin::Integers(IntegerType::Integer),
    },
    Row {
        name: b"natural",
        builtin: Builtin::Integers(IntegerType::Natural),
    },
    Row {
        name: b"positive",
        builtin: Builtin::Integers(IntegerType::Positive),
    },
];

/// Its booleans, which the wider language alone has.
pub const BOOLEANS: [Row; 3] = [
    Row {
        name: b"boolean",
        builtin: Builtin::Booleans,
    },
    Row {
        name: b"false",
        builtin: Builtin::Boolean(false),
    },
    Row {
        name: b"true",
        builtin: Builtin::Boolean(true),
    },
];

/// Package std_logic_1164 of library ieee.
pub const STD_LOGIC_1164: [Row; 6] = [
    Row {
        name: b"std_logic",
        builtin: Builtin::Elements(true),
    },
    Row {
        name: b"std_ulogic",
        builtin: Builtin::Elements(false),
    },
    Row {
        name: b"std_logic_vector",
        builtin: Builtin::Vectors(ElementKind::LogicVector, true),
    },
    Row {
        name: b"std_ulogic_vector",
        builtin: Builtin::Vectors(ElementKind::LogicVector, false),
    },
    Row {
        name: b"rising_edge",
        builtin: Builtin::Call(Function::EdgeCall(Edge::Rising)),
    },
    Row {
        name: b"falling_edge",
        builtin: Builtin::Call(Function::EdgeCall(Edge::Falling)),
    },
];

/// Package numeric_std of library ieee.
pub const NUMERIC_STD: [Row; 5] = [
    Row {
        name: b"unsigned",
        builtin: Builtin::Vectors(ElementKind::Unsigned, true),
    },
    Row {
        name: b"resize",
        builtin: Builtin::Call(Function::ByCount(Counted::Resize)),
    },
    Row {
        name: b"shift_left",
        builtin: Builtin::Call(Function::ByCount(Counted::Shift(Shift::Left))),
    },
    Row {
        name: b"shift_right",
        builtin: Builtin::Call(Function::ByCount(Counted::Shift(Shift::Right))),
    },
    Row {
        name: b"to_unsigned",
        builtin: Builtin::Call(Function::ToUnsigned),
    },
];

/// What the wider language has of it besides.
pub const TO_INTEGER: [Row; 1] = [Row {
    name: b"to_integer",
    builtin: Builtin::Call(Function::ToInteger),
}];

impl Builtin {
    fn meaning(self) -> Meaning
        ensures { meaning_view result ≡ builtin_view self }
    {
        match self {
            Builtin::Integers(integer_type) => Meaning::IntegerType(integer_type),
            Builtin::Booleans => Meaning::BooleanType,
            Builtin::Boolean(is_true) => Meaning::BooleanLiteral(is_true),
            Builtin::Elements(is_resolved) => Meaning::ElementType { is_resolved },
            Builtin::Vectors(kind, is_resolved) => Meaning::VectorType(kind, is_resolved),
            Builtin::Call(function) => Meaning::Function(function),
        }
    }
}

/// The declarations of a package.
fn add_rows(alloc: Global, region: &mut Region, rows: &[Row]) -> Result<(), NameFault>
    ensures given { Gives (λ _. region_view region.new) (more (region_view region.old) (map row_view rows.now)) result }
    ensures told { IfErr result (Tells (refused Twice 0)) }
{
    names_are_apart(region);
    for row in rows {
        declare_name(alloc, region, row.name, 0, row.builtin.meaning())?;
    }
    names_are_apart(region);
    Ok(())
}

/// The declarations of a package that is used.
fn add_used(
    alloc: Global,
    region: &mut Region,
    is_used: bool,
    rows: &[Row],
) -> Result<(), NameFault>
    ensures given { Gives (λ _. region_view region.new)
        (more (region_view region.old) (if is_used then map row_view rows.now else [])) result }
    ensures told { IfErr result (Tells (refused Twice 0)) }
{
    if is_used {
        add_rows(alloc, region, rows)
    } else {
        add_rows(alloc, region, &[])
    }
}

/// The packages' declarations that are in sight. It takes the memory of their names.
pub fn visible(alloc: Global, context: Context) -> Result<Region, NameFault>
    ensures given { Gives region_view (Some (rules.visible (context_view context))) result }
    ensures told { IfErr result (Tells (nothing)) }
{
    let mut region = IndexMap::new(alloc);
    let is_wide = context.language == Language::Wide;
    add_used(alloc, &mut region, context.has_numbers, &NUMERIC_STD)?;
    add_used(
        alloc,
        &mut region,
        context.has_numbers && is_wide,
        &TO_INTEGER,
    )?;
    add_used(alloc, &mut region, context.has_logic, &STD_LOGIC_1164)?;
    add_rows(alloc, &mut region, &INTEGERS)?;
    add_used(alloc, &mut region, is_wide, &BOOLEANS)?;
    Ok(region)
}

/// What is in sight of a region where nothing else is declared. It takes the memory of the
/// packages' names.
pub fn sight_of(alloc: Global, context: Context, region: Region) -> Result<Sight, NameFault>
    ensures sight { Gives (λ s. s) (Some (rules.sight_of (context_view context) (region_view region))) result }
    ensures enclosing { IfOk result (λ s. s.enclosing ≡ []) }
    ensures told { IfErr result (Tells (nothing)) }
{
    let packages = visible(alloc, context)?;
    Ok(Sight {
        alloc,
        loops: Vec::new(alloc),
        variables: IndexMap::new(alloc),
        generates: Vec::new(alloc),
        region,
        enclosing: IndexMap::new(alloc),
        packages,
        has_numbers: context.has_numbers,
        language: context.language,
    })
}
