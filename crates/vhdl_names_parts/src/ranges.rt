//! Attributes of ranges, and ranges by name (IEEE 1076-2008, 5.2.1, 16.2.2, 16.2.3), in the wider
//! language. They take the memory of boxes.

ghost use Rattle.std.specs.Prelude.{◌≡◌, None, option_map, IfOk, IfErr};
ghost use Rattle.vhdl_names_rules.specs.problems.Broken.{Tells};
ghost use Rattle.vhdl_names_rules.specs.problems.Expressions as broken;
ghost use Rattle.vhdl_names_rules.specs.Gives.{Gives};
ghost use Rattle.vhdl_names_rules.specs.Ranges as rules;
ghost use Rattle.vhdl_names_rules.specs.Names.{Suffix};
ghost use Rattle.vhdl_names_rules.specs.Visibility.{Name};
ghost use Rattle.vhdl_names_trees.specs.views.Integers.{static_view, range_view};
ghost use Rattle.vhdl_names_rules.specs.views.Ranges.{declared_range_view};
ghost use Rattle.vhdl_names_trees.specs.views.Expressions.{typed_view, typed_suffix_view};
ghost use Rattle.vhdl_names_sight.specs.Views.{meaning_view, entry_of};
ghost use Rattle.vhdl_names_parts.specs.Ranging as steps;
ghost use Rattle.vhdl_names_parts.specs.Ranging.{ranged_view};
ghost use Rattle.vhdl_tree.specs.View.{attribute_view};

use crate::names::attribute_start;
use std::alloc::{AllocError, Global};
use vhdl_lexer::{Language, MAX_INTEGER};
use vhdl_names_rules::{Bound, DeclaredRange, IntegerType, NameFault, NameProblem};
use vhdl_names_sight::{Entry, Meaning};
use vhdl_names_trees::{Static, StaticRange, Typed, TypedSuffix};
use vhdl_tree::{Attribute, Direction};

/// What has a range: an integer type, a subtype of integers with a range, a vector or a subtype of
/// vectors with one, or a slice of a vector.
#[derive(Drop)]
enum Ranged {
    Type(IntegerType),
    Integers(DeclaredRange),
    Vector(DeclaredRange),
    Slice(DeclaredRange, Box<StaticRange>),
}

/// What a name with nothing behind it has a range as.
fn whole(entry: &Entry) -> Option<Ranged>
    ensures { option_map ranged_view result ≡
        rules.whole (meaning_view entry.now.meaning) (option_map declared_range_view entry.now.range) }
{
    match (&entry.meaning, entry.range) {
        (Meaning::IntegerType(own), None) => Some(Ranged::Type(*own)),
        (Meaning::IntegerType(_), Some(range)) => Some(Ranged::Integers(range)),
        (_, Some(range)) => Some(Ranged::Vector(range)),
        (_, None) => None,
    }
}

/// A slice of what is declared so, which is no type.
fn sliced(entry: &Entry, slice: Box<StaticRange>) -> Option<Ranged>
    ensures { option_map ranged_view result ≡
        rules.sliced (meaning_view entry.now.meaning) (option_map declared_range_view entry.now.range)
        (range_view slice.value) }
{
    match &entry.meaning {
        Meaning::IntegerType(_) | Meaning::VectorType(..) => None,
        _ => match entry.range {
            Some(range) => Some(Ranged::Slice(range, slice)),
            None => None,
        },
    }
}

/// What a name has a range as, with what stands behind it.
fn ranged_as(entry: &Entry, suffix: TypedSuffix) -> Option<Ranged>
    ensures { (n : Name) → option_map ranged_view result
        ≡ rules.ranged (entry_of n entry.now) (typed_suffix_view suffix) }
{
    match suffix {
        TypedSuffix::Plain => whole(entry),
        TypedSuffix::Range(slice) => sliced(entry, slice),
        TypedSuffix::Arguments(..) => None,
        TypedSuffix::ComputedRange { .. } => None,
    }
}

/// The bound or length that an attribute of this name is.
fn bound_of(name: &[u8]) -> Option<Bound>
    ensures { result ≡ rules.bound_of name.now }
{
    if name == b"left".as_slice() {
        Some(Bound::Left)
    } else if name == b"right".as_slice() {
        Some(Bound::Right)
    } else if name == b"high".as_slice() {
        Some(Bound::High)
    } else if name == b"low".as_slice() {
        Some(Bound::Low)
    } else if name == b"length".as_slice() {
        Some(Bound::Length)
    } else {
        None
    }
}

/// The least integer of a type.
fn least(own: IntegerType) -> Static
    ensures { static_view result ≡ rules.least own }
{
    match own {
        IntegerType::Integer => Static::LeastInteger,
        IntegerType::Natural => Static::Number(0),
        IntegerType::Positive => Static::Number(1),
    }
}

/// A bound of an integer type; it has no length.
fn type_bound(bound: Bound, own: IntegerType) -> Option<Static>
    ensures { option_map static_view result ≡ rules.type_bound bound own }
{
    match bound {
        Bound::Left | Bound::Low => Some(least(own)),
        Bound::Right | Bound::High => Some(Static::Number(MAX_INTEGER)),
        Bound::Length => None,
    }
}

/// A bound or the length of what has a range, whose name is at byte `at`.
fn bound(
    alloc: Global,
    bound: Bound,
    ranged: Ranged,
    at: usize,
) -> Result<Option<Static>, AllocError>
    ensures { IfOk result (λ s. option_map static_view s ≡ rules.bound at bound (ranged_view ranged)) }
{
    match ranged {
        Ranged::Type(own) => Ok(type_bound(bound, own)),
        Ranged::Integers(range) => match bound {
            Bound::Length => Ok(None),
            _ => Ok(Some(Static::Bound(bound, range.number))),
        },
        Ranged::Vector(range) => Ok(Some(Static::Bound(bound, range.number))),
        Ranged::Slice(range, slice) => {
            let slice = Box::into_inner(slice);
            Ok(Some(slice.bound(alloc, at, bound, range.number)?))
        }
    }
}

/// The other direction.
fn opposite(direction: Direction) -> Direction
    ensures { result ≡ rules.opposite direction }
{
    match direction {
        Direction::To => Direction::Downto,
        Direction::Downto => Direction::To,
    }
}

/// A declared range from its right, by its bounds.
fn reverse_range(range: DeclaredRange) -> StaticRange
    ensures { range_view result ≡ rules.reversed (rules.declared_range (declared_range_view range)) }
{
    StaticRange {
        left: Static::Bound(Bound::Right, range.number),
        direction: opposite(range.direction),
        right: Static::Bound(Bound::Left, range.number),
    }
}

/// The declared range that has a range attribute: neither that of a type nor that of a slice.
fn range_of(ranged: Ranged) -> Option<DeclaredRange>
    ensures { option_map (λ r. rules.declared_range (declared_range_view r)) result
        ≡ rules.range_of (ranged_view ranged) }
{
    match ranged {
        Ranged::Integers(range) | Ranged::Vector(range) => Some(range),
        Ranged::Type(_) | Ranged::Slice(..) => None,
    }
}

/// Whether an attribute is 'reverse_range.
fn is_reverse_range(name: &[u8]) -> bool
    ensures { result ≡ steps.is_reverse_range name.now }
{
    name == b"reverse_range".as_slice()
}

/// Whether an attribute is of ranges, in the wider language.
pub fn is_of_range(language: Language, attribute: &Option<Attribute>) -> bool
    ensures { result ≡ broken.is_of_range language (option_map attribute_view attribute.now) }
{
    match (language, attribute) {
        (Language::Profile, _) | (Language::Wide, None) => false,
        (Language::Wide, Some(Attribute::Range { .. })) => true,
        (Language::Wide, Some(Attribute::Name(name))) => {
            is_reverse_range(&name.text) || bound_of(&name.text).is_some()
        }
    }
}

/// The range or the bound that an attribute is of what has a range, whose name is at byte `at`.
fn attribute_of(
    alloc: Global,
    attribute: &Attribute,
    ranged: Ranged,
    at: usize,
) -> Result<Option<Typed>, AllocError>
    ensures { IfOk result (λ x.
        option_map typed_view x ≡ steps.attribute_of at (attribute_view attribute.now) (ranged_view ranged)) }
{
    let name = match attribute {
        Attribute::Range { .. } => {
            let Some(range) = range_of(ranged) else {
                return Ok(None);
            };
            return Ok(Some(Typed::Interval(Box::new(alloc, StaticRange::declared(range))?)));
        }
        Attribute::Name(name) => name,
    };
    if is_reverse_range(&name.text) {
        let Some(range) = range_of(ranged) else {
            return Ok(None);
        };
        return Ok(Some(Typed::Interval(Box::new(alloc, reverse_range(range))?)));
    }
    let Some(own) = bound_of(&name.text) else {
        return Ok(None);
    };
    match bound(alloc, own, ranged, at)? {
        Some(integer) => Ok(Some(Typed::Integer(integer))),
        None => Ok(None),
    }
}

/// Whether what a name means has a range, or may have one: a type that has none, a component and a
/// label have not.
fn has_ranges(meaning: &Meaning) -> bool
    ensures { result ≡ broken.has_ranges (meaning_view meaning.now) }
{
    match meaning {
        Meaning::BooleanType
        | Meaning::ElementType { .. }
        | Meaning::EnumerationType { .. }
        | Meaning::Component(_)
        | Meaning::Label => false,
        _ => true,
    }
}

/// What is wrong with a name of this meaning that has no range, but may have one.
fn range_problem(meaning: &Meaning) -> NameProblem
    ensures { result ≡ broken.range_problem (meaning_view meaning.now) }
{
    match meaning {
        Meaning::Unfinished => NameProblem::Undeclared,
        _ => NameProblem::TypeMismatch,
    }
}

/// What is told of a name at byte `at` that has no range: of what can have none the attribute is
/// told.
fn no_range(entry: &Entry, attribute: &Attribute, at: usize) -> NameFault
    ensures { (n : Name) → (s : Suffix) → Tells
        (broken.of_ranged at (attribute_view attribute.now) (entry_of n entry.now) s None) result }
{
    if has_ranges(&entry.meaning) {
        range_problem(&entry.meaning).at(at)
    } else {
        NameProblem::LeftOut.at(attribute_start(attribute))
    }
}

/// What a name at byte `at` is with an attribute of ranges: a range, or an integer.
#[tactic(auto, using(crate::proofs::Ranging::attribute_is, vhdl_names_rules::proofs::laws::Ranged::no_ranged))]
pub fn range_attribute(
    alloc: Global,
    attribute: &Attribute,
    entry: &Entry,
    suffix: TypedSuffix,
    at: usize,
) -> Result<Typed, NameFault>
    ensures given { (n : Name) → Gives typed_view
        (steps.range_attribute at (attribute_view attribute.now) (entry_of n entry.now) (typed_suffix_view suffix))
        result }
    ensures told { (n : Name) → IfErr result (Tells
        (broken.of_range at (attribute_view attribute.now) (entry_of n entry.now) (typed_suffix_view suffix))) }
{
    let Some(ranged) = ranged_as(entry, suffix) else {
        return Err(no_range(entry, attribute, at));
    };
    match attribute_of(alloc, attribute, ranged, at)? {
        Some(value) => Ok(value),
        None => Err(NameProblem::LeftOut.at(attribute_start(attribute))),
    }
}

/// The range that a name without an attribute is, with nothing behind it: that of a subtype of
/// integers (5.2.1).
pub fn named_range(entry: &Entry, suffix: &TypedSuffix) -> Option<StaticRange>
    ensures { (n : Name) → option_map range_view result
        ≡ rules.named_range None (entry_of n entry.now) (typed_suffix_view suffix.now) }
{
    match (suffix, &entry.meaning, entry.range) {
        (TypedSuffix::Plain, Meaning::IntegerType(_), Some(range)) => {
            Some(StaticRange::declared(range))
        }
        _ => None,
    }
}

/// The range of a type of vectors that has one.
pub fn sized_range(entry: &Entry) -> Option<DeclaredRange>
    ensures { option_map declared_range_view result ≡
        steps.sized_range (meaning_view entry.now.meaning) (option_map declared_range_view entry.now.range) }
{
    match &entry.meaning {
        Meaning::VectorType(..) => entry.range,
        _ => None,
    }
}

/// A value of a type, whose name is at byte `at`: as long as the type's range, if it has one.
#[tactic(auto, using(crate::proofs::Ranging::sized_by_range))]
pub fn sized_by(alloc: Global, entry: &Entry, value: Typed, at: usize) -> Result<Typed, AllocError>
    ensures { IfOk result (λ x. typed_view x ≡
        rules.sized_by at (meaning_view entry.now.meaning) (option_map declared_range_view entry.now.range)
        (typed_view value)) }
{
    let Some(range) = sized_range(entry) else {
        return Ok(value);
    };
    match value {
        Typed::Elements(kind, vector) => {
            let vector = vector.sized(alloc, at, StaticRange::declared(range))?;
            Ok(Typed::Elements(kind, vector))
        }
        value => Ok(value),
    }
}
