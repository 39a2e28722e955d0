//! Constants of an architecture or a process (IEEE 1076-2008, 6.4.2.2).

ghost use Rattle.std.specs.Prelude.{◌≡◌, ◌++◌, option_map, IfOk, OnOk, IfErr};
ghost use Rattle.vhdl_names_declarations.specs.Constants as typed;
ghost use Rattle.vhdl_names_declarations.specs.Counts.{AreCounts};
ghost use Rattle.vhdl_names_declarations.specs.Entered.{entering, entering_variables};
ghost use Rattle.vhdl_names_rules.specs.Declarations as rules;
ghost use Rattle.vhdl_names_rules.specs.Gives.{Gives};
ghost use Rattle.vhdl_names_rules.specs.Subtypes.{declaring_literal};
ghost use Rattle.vhdl_names_trees.specs.views.Integers.{subtype_view as integers_view};
ghost use Rattle.vhdl_names_rules.specs.views.Ranges.{base_view};
ghost use Rattle.vhdl_tree.specs.View as tree;
ghost use Rattle.vhdl_names_units.specs.views.Answers.{fixed_view};
ghost use Rattle.vhdl_names_units.specs.views.Declarations.{declaration_view};
ghost use Rattle.vhdl_names_rules.specs.problems.Broken.{Tells};
ghost use Rattle.vhdl_names_rules.specs.problems.Declarations as broken;

use crate::class::ObjectClass;
use crate::counts::{Counts, region_is_small};
use crate::generics::is_global;
use crate::names::copied_names;
use crate::ports::kind_of;
use crate::region::{Settled, hide, settle};
use std::alloc::{AllocError, Global};
use vhdl_names_asked::static_condition;
use vhdl_names_expressions::{start, static_integer};
use vhdl_names_parts::is_local;
use vhdl_names_rules::{ElementKind, IntegerBase, NameFault, NameProblem};
use vhdl_names_sight::{Sight, declaration_of};
use vhdl_names_trees::{IntegerSubtype, Static, StaticTest};
use vhdl_names_units::{Declaration, Fixed, Form};
use vhdl_names_values::{
    TypeClass, class_of, fixed_value, integer_subtype, integers_of, single_expression, subtype,
};
use vhdl_tree::{Constants, Expr, Identifier};
use vhdl_values::Nine;

/// What constants of one declaration are: integers, with the byte at which a wrong value is told if
/// not at the names; booleans; or of the nine values.
#[derive(Drop)]
enum Constant {
    Integer(Option<usize>, IntegerSubtype, Static),
    Truth(StaticTest),
    Other(ElementKind, Form, Fixed),
}

/// What constants of one declaration are, and whether they are globally static alone.
#[derive(Drop)]
struct TypedConstant {
    constant: Constant,
    is_global: bool,
}

/// The byte at which a value of a subtype is told where it is wrong, if not at a name: that of a
/// subtype with a range is told where it starts.
fn told_at(subtype: &IntegerSubtype, e: &Expr) -> Option<usize>
    ensures { result ≡ typed.told_at (integers_view subtype.now) (tree.view e.now) }
{
    match (subtype.base, &subtype.range) {
        (IntegerBase::Type(_), None) => None,
        _ => Some(start(e)),
    }
}

/// Constants of integers of this base.
fn integer(
    sight: &Sight,
    base: IntegerBase,
    declaration: &Constants,
) -> Result<TypedConstant, NameFault>
    ensures given { Gives typed.constant_view
        (typed.integer sight.now (base_view base) (tree.constants_view declaration.now)) result }
    ensures told { IfErr result (Tells (broken.integer_constants sight.now (tree.constants_view declaration.now))) }
{
    let subtype = integer_subtype(sight, base, &declaration.subtype)?;
    let e = single_expression(&declaration.value)?;
    let value = static_integer(sight, e)?;
    Ok(TypedConstant {
        constant: Constant::Integer(told_at(&subtype, e), subtype, value),
        is_global: is_global(sight, &declaration.subtype) || !is_local(sight, e),
    })
}

/// Constants of booleans, whose type takes no range.
fn boolean(sight: &Sight, declaration: &Constants) -> Result<TypedConstant, NameFault>
    ensures given { Gives typed.constant_view (typed.boolean sight.now (tree.constants_view declaration.now)) result }
    ensures told { IfErr result (Tells (broken.boolean_constants sight.now (tree.constants_view declaration.now))) }
{
    if declaration.subtype.constraint.is_some() {
        return Err(NameProblem::LeftOut.at(declaration.subtype.mark.at));
    }
    let e = single_expression(&declaration.value)?;
    let value = static_condition(sight, e)?;
    Ok(TypedConstant {
        constant: Constant::Truth(value),
        is_global: is_global(sight, &declaration.subtype) || !is_local(sight, e),
    })
}

/// Constants of the nine values.
fn other(sight: &Sight, declaration: &Constants) -> Result<TypedConstant, NameFault>
    ensures given { Gives typed.constant_view (typed.other sight.now (tree.constants_view declaration.now)) result }
    ensures told { IfErr result (Tells (broken.other_constants sight.now (tree.constants_view declaration.now))) }
{
    let subtype = subtype(sight, &declaration.subtype)?;
    let kind = kind_of(subtype.object_type, declaration.subtype.mark.at)?;
    let range = subtype.form.range();
    let value = fixed_value(sight, subtype.object_type, range, &declaration.value)?;
    Ok(TypedConstant {
        constant: Constant::Other(kind, subtype.form, value),
        is_global: is_global(sight, &declaration.subtype),
    })
}

/// What constants of one declaration are, with their names hidden.
fn typed_constant(sight: &Sight, declaration: &Constants) -> Result<TypedConstant, NameFault>
    ensures given { Gives typed.constant_view (typed.constant sight.now (tree.constants_view declaration.now)) result }
    ensures told { IfErr result (Tells (broken.typed_constants sight.now (tree.constants_view declaration.now))) }
{
    let mark = declaration_of(sight, &declaration.subtype.mark)?;
    if let Some(base) = integers_of(mark) {
        return integer(sight, base, declaration);
    }
    match class_of(&mark.meaning) {
        TypeClass::Booleans => boolean(sight, declaration),
        _ => other(sight, declaration),
    }
}

/// The literal that declares a constant, if one does.
fn declaring(alloc: Global, value: &Fixed) -> Result<Option<Vec<Nine>>, AllocError>
    ensures { IfOk result (λ v. option_map (λ x. x.items) v ≡ declaring_literal (fixed_view value.now)) }
{
    match value {
        Fixed::Literal(values) => Ok(Some(Vec::from_slice(alloc, values)?)),
        _ => Ok(None),
    }
}

/// How constants stand in their region.
fn settled(alloc: Global, constants: &TypedConstant) -> Result<Settled, AllocError>
    ensures { IfOk result (λ s. typed.standing_view s ≡ typed.standing (typed.constant_view constants.now)) }
{
    let (class, direction) = match &constants.constant {
        Constant::Integer(..) => (ObjectClass::Integer, None),
        Constant::Truth(_) => (ObjectClass::Boolean, None),
        Constant::Other(kind, form, value) => {
            let values = declaring(alloc, value)?;
            (ObjectClass::Constant(*kind, values), form.direction())
        }
    };
    Ok(Settled {
        class,
        direction,
        is_global: constants.is_global,
    })
}

/// The declaration that stands for constants.
fn declared(names: Vec<Identifier>, constants: TypedConstant) -> Declaration
    ensures { declaration_view result ≡ typed.declarations (tree.idents_view names) (typed.constant_view constants) }
{
    match constants.constant {
        Constant::Integer(told_at, subtype, value) => Declaration::Integers {
            names,
            told_at,
            subtype,
            value,
        },
        Constant::Truth(value) => Declaration::Truths { names, value },
        Constant::Other(_, form, value) => Declaration::Constants { names, form, value },
    }
}

/// Constants of one declaration of a region, numbered from here on. Within it their names hide
/// outer ones.
pub fn constants(
    sight: &mut Sight,
    counts: Counts,
    declaration: &Constants,
) -> Result<Declaration, NameFault>
    requires { AreCounts counts sight.old.region }
    ensures given { Gives (λ o. (sight.new, declaration_view o))
        (entering rules.constants sight.old (tree.constants_view declaration.now)) result }
    ensures kept { OnOk result (sight.new ≡ record sight.old { region = sight.new.region }) }
    ensures told { IfErr result (Tells (broken.constants sight.old (tree.constants_view declaration.now))) }
{
    let first = sight.region.len();
    hide(sight.alloc, &mut sight.region, &declaration.names)?;
    let constant = typed_constant(sight, declaration)?;
    let settled = settled(sight.alloc, &constant)?;
    settle(sight.alloc, &mut sight.region, first, counts, &settled)?;
    let names = copied_names(sight.alloc, &declaration.names)?;
    Ok(declared(names, constant))
}

/// The same of a process.
pub fn process_constants(
    sight: &mut Sight,
    counts: Counts,
    declaration: &Constants,
) -> Result<Declaration, NameFault>
    requires { AreCounts counts (sight.old.region ++ sight.old.variables) }
    ensures given { Gives (λ o. (sight.new, declaration_view o))
        (entering_variables typed.of_process sight.old (tree.constants_view declaration.now)) result }
    ensures kept { OnOk result (sight.new ≡ record sight.old { variables = sight.new.variables }) }
    ensures told { IfErr result (Tells (typed.process_breaks sight.old (tree.constants_view declaration.now))) }
{
    region_is_small(&sight.region);
    let first = sight.variables.len();
    hide(sight.alloc, &mut sight.variables, &declaration.names)?;
    let constant = typed_constant(sight, declaration)?;
    let settled = settled(sight.alloc, &constant)?;
    settle(sight.alloc, &mut sight.variables, first, counts, &settled)?;
    let names = copied_names(sight.alloc, &declaration.names)?;
    Ok(declared(names, constant))
}
