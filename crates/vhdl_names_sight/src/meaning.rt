//! What names are declared to be (IEEE 1076-2008, 6.1).

ghost use Rattle.std.specs.Prelude.{◌≡◌, IfOk, option_map};
ghost use Rattle.vhdl_names_rules.specs.Visibility as visibility;
ghost use Rattle.vhdl_names_rules.specs.Visibility.{Name};
ghost use Rattle.vhdl_names_sight.specs.Views.{meaning_view, entry_of};

use drops::take_apart;
use std::alloc::{AllocError, Global};
use vhdl_names_rules::{DeclaredRange, ElementKind, Function, IntegerType, ObjectType};
use vhdl_tree::Mode;
use vhdl_values::Nine;

/// What a name is declared to be. Objects are numbered from 0 within their class.
pub enum Meaning {
    Generic(usize),
    IntegerConstant(usize),
    GenerateParameter(usize),
    LoopParameter(usize),
    /// Booleans, numbered among the integers, and their literals.
    BooleanGeneric(usize),
    BooleanConstant(usize),
    BooleanLiteral(bool),
    Port(usize, Mode, ObjectType),
    Signal(usize, ObjectType),
    Variable(usize, ObjectType),
    /// A constant that is no integer, with the literal that declares it, if one does.
    Constant(usize, ElementKind, Option<Vec<Nine>>),
    /// A literal of the enumeration of this number, which has so many, at this position.
    Literal {
        number: usize,
        count: u16,
        position: u8,
    },
    /// Types and their subtypes.
    IntegerType(IntegerType),
    BooleanType,
    ElementType {
        is_resolved: bool,
    },
    /// A type of vectors, and whether it is resolved.
    VectorType(ElementKind, bool),
    EnumerationType {
        number: usize,
        count: u16,
    },
    Function(Function),
    /// A component, of the unit of this number.
    Component(usize),
    Label,
    /// A name within its own declaration.
    Unfinished,
}

impl Drop for Meaning {
    fn drop(self) {
        take_apart!(self: Generic(_) | IntegerConstant(_) | GenerateParameter(_) | LoopParameter(_)
            | BooleanGeneric(_) | BooleanConstant(_) | BooleanLiteral(_) | Port(_, _, _) | Signal(_, _) | Variable(_, _) | Constant(_, _, _)
            | Literal { number, count, position } | IntegerType(_) | BooleanType
            | ElementType { is_resolved }
            | VectorType(_, _) | EnumerationType { number, count } | Function(_) | Component(_)
            | Label | Unfinished);
    }
}

/// What a name is declared to be, with its range, if it has one, and whether its value or its range
/// is globally static alone.
pub struct Entry {
    pub meaning: Meaning,
    pub range: Option<DeclaredRange>,
    pub is_global: bool,
}

impl Drop for Entry {
    fn drop(self) {
        take_apart!(self: { meaning, range, is_global });
    }
}

/// A copy of the values of a literal, if there is one.
pub fn copied_values(
    alloc: Global,
    values: &Option<Vec<Nine>>,
) -> Result<Option<Vec<Nine>>, AllocError>
    ensures { IfOk result (λ v. option_map (λ x. x.items) v ≡ option_map (λ x. x.items) values.now) }
{
    match values {
        None => Ok(None),
        Some(values) => Ok(Some(Vec::from_slice(alloc, values)?)),
    }
}

impl Entry {
    /// A copy. It takes the memory of a constant's literal.
    #[tactic(auto, using(crate::proofs::Sights::entry_copied))]
    pub fn copied(&self, alloc: Global) -> Result<Entry, AllocError>
        ensures { IfOk result (λ e. (n : Name) → entry_of n e ≡ entry_of n self.now) }
    {
        Ok(Entry {
            meaning: self.meaning.copied(alloc)?,
            range: self.range,
            is_global: self.is_global,
        })
    }
}

impl Meaning {
    /// A copy. It takes the memory of a constant's literal.
    pub fn copied(&self, alloc: Global) -> Result<Meaning, AllocError>
        ensures { IfOk result (λ m. meaning_view m ≡ meaning_view self.now) }
    {
        match self {
            Meaning::Generic(k) => Ok(Meaning::Generic(*k)),
            Meaning::IntegerConstant(k) => Ok(Meaning::IntegerConstant(*k)),
            Meaning::GenerateParameter(k) => Ok(Meaning::GenerateParameter(*k)),
            Meaning::LoopParameter(k) => Ok(Meaning::LoopParameter(*k)),
            Meaning::BooleanGeneric(k) => Ok(Meaning::BooleanGeneric(*k)),
            Meaning::BooleanConstant(k) => Ok(Meaning::BooleanConstant(*k)),
            Meaning::BooleanLiteral(is_true) => Ok(Meaning::BooleanLiteral(*is_true)),
            Meaning::Port(k, mode, object_type) => Ok(Meaning::Port(*k, *mode, *object_type)),
            Meaning::Signal(k, object_type) => Ok(Meaning::Signal(*k, *object_type)),
            Meaning::Variable(k, object_type) => Ok(Meaning::Variable(*k, *object_type)),
            Meaning::Constant(k, kind, values) => {
                let values = copied_values(alloc, values)?;
                Ok(Meaning::Constant(*k, *kind, values))
            }
            Meaning::Literal {
                number,
                count,
                position,
            } => Ok(Meaning::Literal {
                number: *number,
                count: *count,
                position: *position,
            }),
            Meaning::IntegerType(integer_type) => Ok(Meaning::IntegerType(*integer_type)),
            Meaning::BooleanType => Ok(Meaning::BooleanType),
            Meaning::ElementType { is_resolved } => Ok(Meaning::ElementType {
                is_resolved: *is_resolved,
            }),
            Meaning::VectorType(kind, is_resolved) => {
                Ok(Meaning::VectorType(*kind, *is_resolved))
            }
            Meaning::EnumerationType { number, count } => Ok(Meaning::EnumerationType {
                number: *number,
                count: *count,
            }),
            Meaning::Function(function) => Ok(Meaning::Function(*function)),
            Meaning::Component(k) => Ok(Meaning::Component(*k)),
            Meaning::Label => Ok(Meaning::Label),
            Meaning::Unfinished => Ok(Meaning::Unfinished),
        }
    }

    /// An entry of this meaning, with no range.
    pub fn entry(self) -> Entry
        ensures { (n : Name) → entry_of n result ≡ visibility.declare n (meaning_view self) }
    {
        Entry {
            meaning: self,
            range: None,
            is_global: false,
        }
    }
}

/// A name, and what it is declared to be.
pub struct Declared {
    pub name: Vec<u8>,
    pub entry: Entry,
}

impl Drop for Declared {
    fn drop(self) {
        take_apart!(self: { name, entry });
    }
}
