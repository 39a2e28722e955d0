//! Subtypes (IEEE 1076-2008, 6.3), which the wider language alone has.

ghost use Rattle.std.specs.Prelude.{◌≡◌, ◌++◌, OnOk, IfErr};
ghost use Rattle.vhdl_names_declarations.specs.Counts.{AreCounts};
ghost use Rattle.vhdl_names_declarations.specs.Entered.{entering, entering_variables};
ghost use Rattle.vhdl_names_declarations.specs.Subtyping as typed;
ghost use Rattle.vhdl_names_rules.specs.Declarations as rules;
ghost use Rattle.vhdl_names_rules.specs.Gives.{Gives};
ghost use Rattle.vhdl_names_rules.specs.Visibility as visibility;
ghost use Rattle.vhdl_names_rules.specs.views.Ranges.{base_view};
ghost use Rattle.vhdl_tree.specs.View as tree;
ghost use Rattle.vhdl_names_sight.specs.Views.{entry_of};
ghost use Rattle.vhdl_names_units.specs.views.Answers.{form_view};
ghost use Rattle.vhdl_names_rules.specs.problems.Broken.{Tells};
ghost use Rattle.vhdl_names_rules.specs.problems.Declarations as broken;

use crate::counts::Counts;
use crate::generics::is_global;
use crate::region::{declare, finish};
use vhdl_names_rules::{DeclaredRange, IntegerBase, NameFault, NameProblem};
use vhdl_names_sight::{Entry, Meaning, Sight, declaration_of};
use vhdl_names_units::{Declaration, Form};
use vhdl_names_values::{
    TypeClass, class_of, integer_subtype, integers_of, numbers_direction, subtype,
};
use vhdl_tree::{Direction, SubtypeDeclaration};

/// What a subtype is: as its type, with a range of this direction, if it has one; and what is
/// analysed of it.
#[derive(Drop)]
struct TypedSubtype {
    meaning: Meaning,
    direction: Option<Direction>,
    is_global: bool,
    analysed: Option<Declaration>,
}

/// A subtype as its type was.
fn as_it_was(
    sight: &Sight,
    mark: &Entry,
    declaration: &SubtypeDeclaration,
) -> Result<TypedSubtype, NameFault>
    ensures given { (n : visibility.Name) → Gives typed.subtype_view
        (typed.as_it_was sight.now (tree.subtype_declaration_view declaration.now) (entry_of n mark.now)) result }
    ensures told { IfErr result (Tells typed.memory_alone) }
{
    Ok(TypedSubtype {
        meaning: mark.meaning.copied(sight.alloc)?,
        direction: None,
        is_global: is_global(sight, &declaration.subtype),
        analysed: None,
    })
}

/// A subtype of integers of this base.
fn integers(
    sight: &Sight,
    mark: &Entry,
    base: IntegerBase,
    declaration: &SubtypeDeclaration,
) -> Result<TypedSubtype, NameFault>
    ensures given { (n : visibility.Name) → Gives typed.subtype_view
        (typed.integers sight.now (base_view base) (tree.subtype_declaration_view declaration.now)
        (entry_of n mark.now)) result }
    ensures told { IfErr result (Tells
        (typed.integers_break sight.now (tree.subtype_declaration_view declaration.now))) }
{
    let numbers = integer_subtype(sight, base, &declaration.subtype)?;
    let direction = numbers_direction(mark, &numbers);
    let analysed = match direction {
        Some(_) => Some(Declaration::IntegerSubtype(declaration.name.at, numbers)),
        None => None,
    };
    Ok(TypedSubtype {
        meaning: mark.meaning.copied(sight.alloc)?,
        direction,
        is_global: is_global(sight, &declaration.subtype),
        analysed,
    })
}

/// Whether a mark is a type of vectors, and no range stands there.
fn is_open(mark: &Entry, declaration: &SubtypeDeclaration) -> bool
    ensures { (n : visibility.Name) → result
        ≡ rules.is_open (entry_of n mark.now) (tree.subtype_declaration_view declaration.now).subtype }
{
    match &mark.meaning {
        Meaning::VectorType(..) => {
            mark.range.is_none() && declaration.subtype.constraint.is_none()
        }
        _ => false,
    }
}

/// A subtype of booleans, whose type takes no range.
fn booleans(
    sight: &Sight,
    mark: &Entry,
    declaration: &SubtypeDeclaration,
) -> Result<TypedSubtype, NameFault>
    ensures given { (n : visibility.Name) → Gives typed.subtype_view
        (typed.booleans sight.now (tree.subtype_declaration_view declaration.now) (entry_of n mark.now)) result }
    ensures told { IfErr result (Tells (typed.booleans_break (tree.subtype_declaration_view declaration.now))) }
{
    if declaration.subtype.constraint.is_some() {
        return Err(NameProblem::LeftOut.at(declaration.subtype.mark.at));
    }
    as_it_was(sight, mark, declaration)
}

/// What is analysed of a subtype whose name is at byte `at`: a vector's range.
fn vector_subtype(at: usize, form: Form) -> Option<Declaration>
    ensures { typed.analysed_view result ≡ typed.vector_subtype at (form_view form) }
{
    match form {
        Form::Vector(range) => Some(Declaration::VectorSubtype(at, range)),
        Form::Element | Form::Enumeration(_) | Form::Boolean => None,
        Form::Number(_subtype) => None,
    }
}

/// A subtype of vectors with a range, of one element or of an enumeration.
fn constrained(
    sight: &Sight,
    mark: &Entry,
    declaration: &SubtypeDeclaration,
) -> Result<TypedSubtype, NameFault>
    ensures given { (n : visibility.Name) → Gives typed.subtype_view
        (typed.constrained sight.now (tree.subtype_declaration_view declaration.now) (entry_of n mark.now)) result }
    ensures told { IfErr result (Tells
        (typed.constrained_break sight.now (tree.subtype_declaration_view declaration.now))) }
{
    let subtype = subtype(sight, &declaration.subtype)?;
    let direction = subtype.form.direction();
    let analysed = vector_subtype(declaration.name.at, subtype.form);
    Ok(TypedSubtype {
        meaning: mark.meaning.copied(sight.alloc)?,
        direction,
        is_global: is_global(sight, &declaration.subtype),
        analysed,
    })
}

/// Any other subtype.
fn others(
    sight: &Sight,
    mark: &Entry,
    declaration: &SubtypeDeclaration,
) -> Result<TypedSubtype, NameFault>
    ensures given { (n : visibility.Name) → Gives typed.subtype_view
        (typed.others sight.now (tree.subtype_declaration_view declaration.now) (entry_of n mark.now)) result }
    ensures told { (n : visibility.Name) → IfErr result (Tells
        (typed.others_break sight.now (tree.subtype_declaration_view declaration.now) (entry_of n mark.now))) }
{
    if is_open(mark, declaration) {
        as_it_was(sight, mark, declaration)
    } else {
        constrained(sight, mark, declaration)
    }
}

/// What a subtype is, with its name hidden.
fn typed_subtype(sight: &Sight, declaration: &SubtypeDeclaration) -> Result<TypedSubtype, NameFault>
    ensures given { Gives typed.subtype_view
        (typed.subtype sight.now (tree.subtype_declaration_view declaration.now)) result }
    ensures told { IfErr result (Tells
        (broken.typed_subtype sight.now (tree.subtype_declaration_view declaration.now))) }
{
    let mark = declaration_of(sight, &declaration.subtype.mark)?;
    if let Some(base) = integers_of(mark) {
        return integers(sight, mark, base, declaration);
    }
    match class_of(&mark.meaning) {
        TypeClass::Booleans => booleans(sight, mark, declaration),
        _ => others(sight, mark, declaration),
    }
}

impl TypedSubtype {
    /// The entry of its name, behind these counts, and what is analysed of it.
    fn into_entry(self, counts: Counts) -> (Entry, Option<Declaration>)
        ensures entry { (n : visibility.Name) → entry_of n result.0 ≡ typed.entered n (typed.subtype_view self) counts }
        ensures analysed { result.1 ≡ self.analysed }
    {
        let range = match self.direction {
            None => None,
            Some(direction) => Some(DeclaredRange {
                number: counts.ranges,
                direction,
            }),
        };
        let entry = Entry {
            meaning: self.meaning,
            range,
            is_global: self.is_global,
        };
        (entry, self.analysed)
    }
}

/// A subtype of a region. Within it its name hides outer ones.
pub fn subtype_declaration(
    sight: &mut Sight,
    counts: Counts,
    declaration: &SubtypeDeclaration,
) -> Result<Option<Declaration>, NameFault>
    requires { AreCounts counts sight.old.region }
    ensures given { Gives (λ o. (sight.new, typed.analysed_view o))
        (entering rules.subtype_declaration sight.old (tree.subtype_declaration_view declaration.now)) result }
    ensures kept { OnOk result (sight.new ≡ record sight.old { region = sight.new.region }) }
    ensures told { IfErr result (Tells
        (broken.subtype_declaration sight.old (tree.subtype_declaration_view declaration.now))) }
{
    let place = sight.region.len();
    declare(
        sight.alloc,
        &mut sight.region,
        &declaration.name,
        Meaning::Unfinished,
    )?;
    let subtype = typed_subtype(sight, declaration)?;
    let (entry, analysed) = subtype.into_entry(counts);
    finish(&mut sight.region, place, entry);
    Ok(analysed)
}

/// The same of a process.
pub fn process_subtype(
    sight: &mut Sight,
    counts: Counts,
    declaration: &SubtypeDeclaration,
) -> Result<Option<Declaration>, NameFault>
    requires { AreCounts counts (sight.old.region ++ sight.old.variables) }
    ensures given { Gives (λ o. (sight.new, typed.analysed_view o))
        (entering_variables typed.of_process sight.old (tree.subtype_declaration_view declaration.now)) result }
    ensures kept { OnOk result (sight.new ≡ record sight.old { variables = sight.new.variables }) }
    ensures told { IfErr result (Tells
        (typed.process_breaks sight.old (tree.subtype_declaration_view declaration.now))) }
{
    let place = sight.variables.len();
    declare(
        sight.alloc,
        &mut sight.variables,
        &declaration.name,
        Meaning::Unfinished,
    )?;
    let subtype = typed_subtype(sight, declaration)?;
    let (entry, analysed) = subtype.into_entry(counts);
    finish(&mut sight.variables, place, entry);
    Ok(analysed)
}
