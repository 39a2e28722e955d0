//! What names are (IEEE 1076-2008, clause 8), with what follows their identifiers.

ghost use Rattle.std.specs.Prelude.{◌≡◌, ℕ, None, map, option_map, IfOk, IfErr, OnErr};
ghost use Rattle.vhdl_names_rules.specs.problems.Broken.{Tells, nothing};
ghost use Rattle.vhdl_names_rules.specs.problems.Expressions as broken;
ghost use Rattle.vhdl_names_rules.specs.Expressions as rules;
ghost use Rattle.vhdl_names_rules.specs.Gives.{Gives};
ghost use Rattle.vhdl_names_rules.specs.Instances.{as_name};
ghost use Rattle.vhdl_names_rules.specs.Names.{denoted as denoted_of};
ghost use Rattle.vhdl_names_rules.specs.Ranges as ranges;
ghost use Rattle.vhdl_names_rules.specs.Rules.{wider};
ghost use Rattle.vhdl_names_rules.specs.Visibility as visibility;
ghost use Rattle.vhdl_names_trees.specs.views.Integers.{range_view};
ghost use Rattle.vhdl_names_rules.specs.views.Ranges.{declared_range_view};
ghost use Rattle.vhdl_names_trees.specs.views.Expressions.{typed_view, typed_suffix_view};
ghost use Rattle.vhdl_names_sight.specs.Views.{meaning_view, entry_of};
ghost use Rattle.vhdl_tree.specs.Tree as t;
ghost use Rattle.vhdl_tree.specs.View.{view, suffix_view, ident_view, attribute_view, name_view, range_view as tree_range_view};
ghost use Rattle.vhdl_names_expressions.specs.Chosen.{is_name, arguments_of};
ghost use Rattle.vhdl_names_expressions.specs.Steps as steps;

use crate::expressions::{computed_integer, static_integer, typed};
use vhdl_lexer::Language;
use vhdl_names_numbers::sliced;
use vhdl_names_parts::{
    attribute_start, attributed, denoted, is_event, is_of_range, named_range, range_attribute,
    sized_by,
};
use vhdl_names_rules::{NameFault, NameProblem};
use vhdl_names_sight::{Entry, Meaning, Sight, declaration_of};
use vhdl_names_trees::{StaticRange, Typed, TypedSuffix};
use vhdl_tree::{Attribute, Expr, Name, Range, Suffix};

/// The name that an expression is, if it stands in no parentheses.
pub fn name_of(e: &Expr) -> Option<&Name>
    ensures { option_map (λ n. name_view n.now) result ≡ as_name (view e.now) }
{
    match e {
        Expr::Name(name) => Some(name),
        _ => None,
    }
}

/// Whether an expression is a name with no attribute.
fn is_bare_name(e: &Expr) -> bool
    ensures { result ≡ is_name (view e.now) }
{
    match e {
        Expr::Name(name) => name.attribute.is_none(),
        _ => false,
    }
}

/// Whether arguments are one name alone.
#[tactic(auto, using(crate::proofs::Choosing::just_one, crate::proofs::Choosing::not_one))]
fn is_one_name(arguments: &[Expr]) -> bool
    ensures { result ≡ rules.is_one_name (t.exprs_of (map view arguments.now)) }
{
    match arguments {
        [only] => is_bare_name(only),
        _ => false,
    }
}

/// Whether a name of this meaning is a type's, a component's or a label's.
fn is_no_value(meaning: &Meaning) -> bool
    ensures { result ≡ broken.is_no_value (meaning_view meaning.now) }
{
    match meaning {
        Meaning::IntegerType(_) | Meaning::ElementType { .. } | Meaning::VectorType(..) => true,
        Meaning::EnumerationType { .. } | Meaning::BooleanType => true,
        Meaning::Component(_) | Meaning::Label => true,
        _ => false,
    }
}

/// The attribute of a name, if it has one: no other than 'event is offered.
fn offered(attribute: &Option<Attribute>) -> Result<(), NameFault>
    ensures kept { IfOk result (λ _. broken.attribute (option_map attribute_view attribute.now) ≡ nothing) }
    ensures told { IfErr result (Tells (broken.attribute (option_map attribute_view attribute.now))) }
{
    let Some(attribute) = attribute else {
        return Ok(());
    };
    if is_event(attribute) {
        Ok(())
    } else {
        Err(NameProblem::LeftOut.at(attribute_start(attribute)))
    }
}

/// The attribute of a type, a component or a label with nothing behind its name is told in place of
/// the name.
fn of_no_value(
    meaning: &Meaning,
    suffix: &TypedSuffix,
    attribute: &Option<Attribute>,
) -> Result<(), NameFault>
    ensures kept { IfOk result (λ _.
        broken.of_no_value (meaning_view meaning.now) (typed_suffix_view suffix.now)
        (option_map attribute_view attribute.now) ≡ nothing) }
    ensures none { OnErr result ((at : ℕ)
        → denoted_of at (meaning_view meaning.now) (typed_suffix_view suffix.now) ≡ None) }
    ensures told { IfErr result (Tells
        (broken.of_no_value (meaning_view meaning.now) (typed_suffix_view suffix.now)
        (option_map attribute_view attribute.now))) }
{
    match suffix {
        TypedSuffix::Plain => {
            if is_no_value(meaning) {
                offered(attribute)
            } else {
                Ok(())
            }
        }
        TypedSuffix::Arguments(..) => Ok(()),
        TypedSuffix::Range(_) => Ok(()),
        TypedSuffix::ComputedRange { .. } => Ok(()),
    }
}

/// What a name at byte `at` is by its declaration, with what follows its identifier: a value.
fn valued(
    sight: &Sight,
    entry: &Entry,
    suffix: TypedSuffix,
    attribute: &Option<Attribute>,
    at: usize,
) -> Result<Typed, NameFault>
    ensures given { Gives typed_view
        (rules.valued at (option_map attribute_view attribute.now) (meaning_view entry.now.meaning)
        (option_map declared_range_view entry.now.range) (typed_suffix_view suffix)) result }
    ensures told { IfErr result (Tells
        (broken.with_suffix at (option_map attribute_view attribute.now) (meaning_view entry.now.meaning)
        (option_map declared_range_view entry.now.range) (typed_suffix_view suffix))) }
{
    of_no_value(&entry.meaning, &suffix, attribute)?;
    let value = denoted(sight.alloc, &entry.meaning, suffix, at)?;
    let sized = sized_by(sight.alloc, entry, value, at)?;
    attributed(attribute, sized, at)
}

/// The range of a subtype of integers by its name alone, in the wider language.
pub fn wider_range(language: Language, entry: &Entry, suffix: &TypedSuffix) -> Option<StaticRange>
    ensures { (n : visibility.Name) → option_map range_view result
        ≡ wider language (ranges.named_range None (entry_of n entry.now) (typed_suffix_view suffix.now)) }
{
    match language {
        Language::Profile => None,
        Language::Wide => named_range(entry, suffix),
    }
}

/// What a name at byte `at` is by its declaration: in the wider language also a range, or a bound
/// or the length of one.
fn named_as(
    sight: &Sight,
    entry: &Entry,
    suffix: TypedSuffix,
    attribute: &Option<Attribute>,
    at: usize,
) -> Result<Typed, NameFault>
    ensures given { (n : visibility.Name) → Gives typed_view
        (rules.named sight.now.language at (option_map attribute_view attribute.now) (entry_of n entry.now)
        (typed_suffix_view suffix)) result }
    ensures told { (n : visibility.Name) → IfErr result (Tells
        (broken.by_declaration sight.now.language at (option_map attribute_view attribute.now) (entry_of n entry.now)
        (typed_suffix_view suffix))) }
{
    match attribute {
        Some(own) => {
            if is_of_range(sight.language, attribute) {
                range_attribute(sight.alloc, own, entry, suffix, at)
            } else {
                valued(sight, entry, suffix, attribute, at)
            }
        }
        None => match wider_range(sight.language, entry, &suffix) {
            Some(range) => Ok(Typed::Interval(Box::new(sight.alloc, range)?)),
            None => valued(sight, entry, suffix, attribute, at),
        },
    }
}

/// What a name is, with what follows its identifier.
#[cycle(typed)]
#[tactic(auto, using(crate::proofs::Chains::named_in_turn))]
pub fn named(sight: &Sight, name: &Name) -> Result<Typed, NameFault>
    ensures given { Gives typed_view
        (rules.typed sight.now
        (t.named (ident_view name.now.identifier) (suffix_view name.now.suffix)
        (option_map attribute_view name.now.attribute))) result }
    ensures told { IfErr result (Tells
        (broken.typed sight.now
        (t.named (ident_view name.now.identifier) (suffix_view name.now.suffix)
        (option_map attribute_view name.now.attribute)))) }
{
    let entry = declaration_of(sight, &name.identifier)?;
    let suffix = typed_suffix(sight, &name.suffix)?;
    named_as(sight, entry, suffix, &name.attribute, name.identifier.at)
}

/// What stands in parentheses after an identifier, with its types. It takes memory for what is
/// analysed.
#[cycle(typed)]
#[tactic(auto, unfolding(vhdl_names_rules::specs::Expressions::typed_suffix))]
pub fn typed_suffix(sight: &Sight, suffix: &Suffix) -> Result<TypedSuffix, NameFault>
    ensures given { Gives typed_suffix_view (rules.typed_suffix sight.now (suffix_view suffix.now)) result }
    ensures told { IfErr result (Tells (broken.typed_suffix sight.now (suffix_view suffix.now))) }
{
    match suffix {
        Suffix::Plain => Ok(TypedSuffix::Plain),
        Suffix::Arguments(all) => arguments(sight, all),
        Suffix::Range(range) => slice_bounds(sight, range),
    }
}

/// The bounds of a slice, which a run may compute.
#[cycle(typed)]
#[tactic(auto, using(crate::proofs::Chains::sliced_is), unfolding(vhdl_names_rules::specs::Expressions::typed_suffix))]
fn slice_bounds(sight: &Sight, range: &Range) -> Result<TypedSuffix, NameFault>
    ensures given { Gives typed_suffix_view
        (rules.typed_suffix sight.now (t.sliced (view range.now.left) range.now.direction (view range.now.right)))
        result }
    ensures told { IfErr result (Tells
        (broken.typed_suffix sight.now (t.sliced (view range.now.left) range.now.direction (view range.now.right)))) }
{
    let left = computed_integer(sight, &range.left)?;
    let right = computed_integer(sight, &range.right)?;
    Ok(sliced(sight.alloc, left, range.direction, right)?)
}

/// Whether an operand is the name of a range.
fn is_range(operand: &Typed) -> bool
    ensures { result ≡ steps.is_range (typed_view operand.now) }
{
    match operand {
        Typed::Interval(_) => true,
        _ => false,
    }
}

/// Whether arguments are the name of a range alone.
#[tactic(auto, using(crate::proofs::Soles::one_range, crate::proofs::Soles::not_one_range))]
fn is_one_range(arguments: &[Typed]) -> bool
    ensures { result ≡ steps.is_one_range (map typed_view arguments.now) }
{
    match arguments {
        [only] => is_range(only),
        _ => false,
    }
}

/// Arguments, or the name of a range, which gives a slice.
fn suffix_of(is_name: bool, mut arguments: Vec<Typed>) -> TypedSuffix
    ensures { typed_suffix_view result ≡ rules.suffix_of is_name (map typed_view arguments.items) }
{
    if !is_one_range(&arguments) {
        return TypedSuffix::Arguments(is_name, arguments);
    }
    let operand = arguments.swap_remove(0);
    match operand {
        Typed::Interval(range) => TypedSuffix::Range(range),
        _ => unreachable!(),
    }
}

/// Indices or arguments, or the name of a range.
#[cycle(typed)]
fn arguments(sight: &Sight, all: &[Expr]) -> Result<TypedSuffix, NameFault>
    ensures given { Gives typed_suffix_view (arguments_of sight.now (t.exprs_of (map view all.now))) result }
    ensures told { IfErr result (Tells (broken.typed_each sight.now (t.exprs_of (map view all.now)))) }
{
    let typed = typed_each(sight, all)?;
    Ok(suffix_of(is_one_name(all), typed))
}

/// The bounds of a range that stand in the text. It takes memory for what is analysed.
#[cycle(typed)]
pub fn bounds(sight: &Sight, range: &Range) -> Result<StaticRange, NameFault>
    ensures given { Gives range_view (rules.static_range sight.now (t.bounds (tree_range_view range.now))) result }
    ensures told { IfErr result (Tells (broken.static_range sight.now (t.bounds (tree_range_view range.now)))) }
{
    let left = static_integer(sight, &range.left)?;
    let right = static_integer(sight, &range.right)?;
    Ok(StaticRange {
        left,
        direction: range.direction,
        right,
    })
}

/// Arguments with their types. It takes memory for what is analysed.
#[cycle(typed)]
pub fn typed_each(sight: &Sight, arguments: &[Expr]) -> Result<Vec<Typed>, NameFault>
    ensures given { Gives (λ v. map typed_view v.items)
        (rules.typed_each sight.now (t.exprs_of (map view arguments.now))) result }
    ensures told { IfErr result (Tells (broken.typed_each sight.now (t.exprs_of (map view arguments.now)))) }
{
    let mut done = Vec::new(sight.alloc);
    for argument in arguments {
        let value = typed(sight, argument)?;
        done.push(value)?;
    }
    Ok(done)
}
