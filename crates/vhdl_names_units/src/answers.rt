//! What is analysed of names, values, choices and subtype indications.

ghost use Rattle.std.specs.Prelude.{◌≡◌, option_map};
ghost use Rattle.vhdl_names_rules.specs.Statements as statements;
ghost use Rattle.vhdl_names_trees.specs.views.Integers.{target_range_view};
ghost use Rattle.vhdl_names_rules.specs.views.Ranges.{declared_range_view};
ghost use Rattle.vhdl_names_trees.specs.views.Vectors.{part_view};

use drops::take_apart;
use vhdl_names_rules::{DeclaredRange, ObjectType};
use vhdl_names_trees::{
    AnyPart, Index, IntegerSubtype, Part, Signal, SignalPart, Static, StaticRange, StaticTest,
    TargetRange, Test, Value, Vector, VectorElement,
};
use vhdl_tree::{Direction, Mode};
use vhdl_values::Nine;

/// What is assigned: a value, or `(others => e)`, one element for each of the target's.
pub enum Given {
    Single(Box<Value>),
    Filled(Box<Vector>),
}

impl Drop for Given {
    fn drop(self) {
        take_apart!(self: Single(_) | Filled(_));
    }
}

/// What a statement assigns: a value, or to a boolean a truth that a run decides.
#[derive(Drop)]
pub enum Assigned {
    Given(Given),
    Truth(Test),
}

/// What a case is on: a value, or a truth.
#[derive(Drop)]
pub enum Selector {
    Value(Value),
    Truth(Test),
}

/// A choice of a case: the values of a literal, an enumeration's literal or a boolean by its
/// position, or integers.
pub enum Choice {
    Values(Vec<Nine>),
    Position(u8),
    Numbers(Index),
}

impl Drop for Choice {
    fn drop(self) {
        take_apart!(self: Values(_) | Position(_) | Numbers(_));
    }
}

/// A signal, port, or part of one, with its mode if it is a port, its type, and the range with
/// which it is declared.
#[derive(Drop)]
pub struct SignalName {
    pub place: SignalPart,
    pub mode: Option<Mode>,
    pub object_type: ObjectType,
    pub declared: Option<DeclaredRange>,
}

/// A signal or port, or the variable of this number.
#[derive(Clone, Copy)]
pub enum Object {
    Signal(Signal),
    Variable(usize),
}

/// The target of an assignment: what it assigns, or part of it, with its type, the range with which
/// it is declared, and the byte at which its name starts.
#[derive(Drop)]
pub struct Target {
    pub at: usize,
    pub object: Object,
    pub part: AnyPart,
    pub object_type: ObjectType,
    pub declared: Option<DeclaredRange>,
}

impl Target {
    ghost use Rattle.std.specs.Prelude.{◌≡◌, option_map};
    ghost use Rattle.vhdl_names_units.specs.views.Targets.{target_view};

    /// The range of its indexes, if it has one before the run.
    pub fn range(&self) -> Option<TargetRange<'_>>
        ensures { option_map target_range_view result ≡ (target_view self.now).range }
    {
        match &self.part {
            AnyPart::Static(part) => part_range(self.declared, part),
            AnyPart::Chosen(_) => None,
        }
    }
}

/// The range of a part of what is declared with a range: that one, or the slice's.
pub fn part_range(declared: Option<DeclaredRange>, part: &Part) -> Option<TargetRange<'_>>
    ensures { option_map target_range_view result ≡
        statements.part_range (option_map declared_range_view declared) (part_view part.now) }
{
    match part {
        Part::Whole => match declared {
            Some(range) => Some(TargetRange::Declared(range)),
            None => None,
        },
        Part::Element(_) => None,
        Part::Slice(range) => Some(TargetRange::Written(range)),
    }
}

/// One element, a vector of this range, an enumeration of so many literals, an integer, or a
/// boolean, which is one element.
#[derive(Drop)]
pub enum Form {
    Element,
    Vector(StaticRange),
    Enumeration(u16),
    Number(IntegerSubtype),
    Boolean,
}

impl Form {
    ghost use Rattle.std.specs.Prelude.{◌≡◌, option_map};
    ghost use Rattle.vhdl_names_rules.specs.Subtypes as subtypes;
    ghost use Rattle.vhdl_names_units.specs.views.Answers.{form_view};

    /// The range of a vector.
    pub fn range(&self) -> Option<TargetRange<'_>>
        ensures { option_map target_range_view result ≡ subtypes.form_range (form_view self.now) }
    {
        match self {
            Form::Vector(range) => Some(TargetRange::Written(range)),
            _ => None,
        }
    }

    /// The direction of a vector.
    pub fn direction(&self) -> Option<Direction>
        ensures { result ≡ subtypes.form_direction (form_view self.now) }
    {
        match self {
            Form::Vector(range) => Some(range.direction),
            _ => None,
        }
    }
}

/// The value of a constant or generic, or a default.
#[derive(Drop)]
pub enum Fixed {
    /// A character, string or bit string literal.
    Literal(Vec<Nine>),
    /// An enumeration's literal.
    Position(u8),
    /// The constant of this number that is no integer.
    Constant(usize),
    /// `to_unsigned`, of a number and a size.
    Encoded(Static, Static),
    /// `(others => c)`.
    Filled(Nine),
    /// Any other value that names no signal and no variable.
    Given(Given),
    /// Of a generic, an aggregate that starts at this byte and has the generic's indexes.
    Aggregate(usize, Vec<VectorElement>),
    /// Of an integer, and of a boolean.
    Integer(Static),
    Truth(StaticTest),
}

/// A type mark with its range: what objects of it are.
#[derive(Drop)]
pub struct Subtype {
    pub object_type: ObjectType,
    pub form: Form,
    pub is_resolved: bool,
}
