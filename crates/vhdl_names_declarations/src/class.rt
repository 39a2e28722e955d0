//! What names of one declaration are declared to be, but for their numbers.

ghost use Rattle.std.specs.Prelude.{◌≡◌, IfOk};
ghost use Rattle.vhdl_names_declarations.specs.Settled.{class_view};
ghost use Rattle.vhdl_names_sight.specs.Views.{meaning_view};

use std::alloc::{AllocError, Global};
use vhdl_names_rules::{ElementKind, ObjectType};
use vhdl_names_sight::{Meaning, copied_values};
use vhdl_tree::Mode;
use vhdl_values::Nine;

/// The class and type of objects, which are numbered from 0 within their class.
#[derive(Drop)]
pub enum ObjectClass {
    Generic,
    BooleanGeneric,
    Port(Mode, ObjectType),
    Integer,
    Boolean,
    /// A constant that is no integer, with the literal that declares it, if one does.
    Constant(ElementKind, Option<Vec<Nine>>),
    Signal(ObjectType),
    Variable(ObjectType),
}

impl ObjectClass {
    /// What the object of a number is declared to be. It takes the memory of a constant's literal.
    pub fn meaning(&self, alloc: Global, number: usize) -> Result<Meaning, AllocError>
        ensures { IfOk result (λ m. meaning_view m ≡ class_view self.now number) }
    {
        match self {
            ObjectClass::Generic => Ok(Meaning::Generic(number)),
            ObjectClass::BooleanGeneric => Ok(Meaning::BooleanGeneric(number)),
            ObjectClass::Port(mode, object_type) => Ok(Meaning::Port(number, *mode, *object_type)),
            ObjectClass::Integer => Ok(Meaning::IntegerConstant(number)),
            ObjectClass::Boolean => Ok(Meaning::BooleanConstant(number)),
            ObjectClass::Constant(kind, values) => {
                let values = copied_values(alloc, values)?;
                Ok(Meaning::Constant(number, *kind, values))
            }
            ObjectClass::Signal(object_type) => Ok(Meaning::Signal(number, *object_type)),
            ObjectClass::Variable(object_type) => Ok(Meaning::Variable(number, *object_type)),
        }
    }
}
