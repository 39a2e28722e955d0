//! The names that values and conditions read, in order of the text (IEEE 1076-2008, 11.3).

ghost use Rattle.std.specs.Prelude.{◌++◌, flat_map};
ghost use Rattle.vhdl_expand_rules.specs.Prefixes as definition;
ghost use Rattle.vhdl_names_trees.specs.views.Tests.{test_view};
ghost use Rattle.vhdl_names_trees.specs.views.Vectors.{chosen_view, computed_view, computed_start_view, elements_view, value_view, vector_view};
ghost use Rattle.vhdl_names_units.specs.views.Answers.{given_view};
ghost use Rattle.vhdl_expand_processes.specs.Adding.{Adds};
ghost use Rattle.vhdl_expand_processes.specs.Names.{computed_link_names, element_names, link_names, test_link_names};

use crate::name::Gathered;
use vhdl_names_trees::{
    Chosen, Computed, ComputedLink, ComputedStart, Test, TestLink, TestStart, Value, Vector,
    VectorElement, VectorLink, VectorStart,
};
use vhdl_names_units::Given;

/// Puts the names in a vector behind others.
#[cycle(vectors)]
fn of_vector<'a>(vector: &'a Vector, found: &mut Gathered<'a>)
    ensures { Adds found.old found.new (definition.vector_names (vector_view vector.now)) }
{
    match vector {
        Vector::Signal(place) => found.add_place(place),
        Vector::InSignal(_, signal, part) => {
            found.add_whole(*signal);
            of_chosen(part, found);
        }
        Vector::InVariable(_, _, part) => of_chosen(part, found),
        Vector::InConstant(_, _, part) => of_chosen(part, found),
        Vector::Variable(_, _, _)
        | Vector::Constant(_, _, _)
        | Vector::Character(_, _)
        | Vector::EnclosedCharacter(_, _)
        | Vector::Literal(_, _)
        | Vector::Encoded(_, _, _) => {}
        Vector::Not(_, operand) => of_vector(operand, found),
        Vector::Chain(start, links) => {
            of_start(start, found);
            of_links(links, found);
        }
        Vector::IntegerWith(_, _, _, operand) => of_vector(operand, found),
        Vector::ComputedWith(_, _, integer, operand) => {
            of_computed(integer, found);
            of_vector(operand, found);
        }
        Vector::ComputedEncoded(_, integer, _) => of_computed(integer, found),
        Vector::Counted(_, _, operand, _) => of_vector(operand, found),
        Vector::Shifted(_, _, operand, count) => {
            of_vector(operand, found);
            of_computed(count, found);
        }
        Vector::Aggregate(_, _, elements) => of_elements(elements, found),
        Vector::Sized(_, _, operand) => of_vector(operand, found),
    }
}

/// Puts the names in an integer that a run computes behind others.
#[cycle(vectors)]
fn of_computed<'a>(integer: &'a Computed, found: &mut Gathered<'a>)
    ensures { Adds found.old found.new (definition.computed_names (computed_view integer.now)) }
{
    match integer {
        Computed::Static(_) | Computed::VariableNumber(_) => {}
        Computed::SignalNumber(signal) => found.add_whole(*signal),
        Computed::Number(_, number) => of_vector(number, found),
        Computed::Negated(_, operand) => of_computed(operand, found),
        Computed::Magnitude(_, operand) => of_computed(operand, found),
        Computed::Chain(start, links) => {
            of_computed_start(start, found);
            of_computed_links(links, found);
        }
    }
}

/// Puts the names in its first operand, and in the one after it, behind others.
#[cycle(vectors)]
fn of_computed_start<'a>(start: &'a ComputedStart, found: &mut Gathered<'a>)
    ensures { Adds found.old found.new (definition.computed_names (computed_start_view start.now)) }
{
    of_computed(&start.first, found);
    of_computed(&start.link.operand, found);
}

/// Puts the names in its further operands behind others.
#[cycle(vectors)]
fn of_computed_links<'a>(list: &'a [ComputedLink], found: &mut Gathered<'a>)
    ensures { Adds found.old found.new (flat_map computed_link_names list.now) }
{
    for item in list {
        of_computed(&item.operand, found);
    }
}

/// Puts the names by which a run chooses a part behind others.
#[cycle(vectors)]
pub(crate) fn of_chosen<'a>(part: &'a Chosen, found: &mut Gathered<'a>)
    ensures { Adds found.old found.new (definition.chosen_names (chosen_view part.now)) }
{
    match part {
        Chosen::Element(index) => of_computed(index, found),
        Chosen::Slice { left, right, .. } => {
            of_computed(left, found);
            of_computed(right, found);
        }
    }
}

/// Puts the names in an element of an aggregate behind others.
#[cycle(vectors)]
fn of_element<'a>(element: &'a VectorElement, found: &mut Gathered<'a>)
    ensures { Adds found.old found.new (element_names element.now) }
{
    match element {
        VectorElement::Next(value) => of_vector(value, found),
        VectorElement::Chosen(_, value) => of_vector(value, found),
        VectorElement::Others(value) => of_vector(value, found),
    }
}

/// Puts the names in the elements of an aggregate behind others.
#[cycle(vectors)]
fn of_elements<'a>(list: &'a [VectorElement], found: &mut Gathered<'a>)
    ensures { Adds found.old found.new (definition.elements_names (elements_view list.now)) }
{
    for item in list {
        of_element(item, found);
        if let VectorElement::Others(_) = item {
            return;
        }
    }
}

/// Puts the names in the right operand of an operator behind others.
#[cycle(vectors)]
fn of_link<'a>(link: &'a VectorLink, found: &mut Gathered<'a>)
    ensures { Adds found.old found.new (link_names link.now) }
{
    match link {
        VectorLink::Vector(_, _, operand) => of_vector(operand, found),
        VectorLink::Integer(_, _, _) => {}
        VectorLink::Computed(_, _, operand) => of_computed(operand, found),
    }
}

/// Puts the names in a first operand, and in the one after it, behind others.
#[cycle(vectors)]
fn of_start<'a>(start: &'a VectorStart, found: &mut Gathered<'a>)
    ensures { Adds found.old found.new
        (definition.vector_names (vector_view start.now.first) ++ link_names start.now.link) }
{
    of_vector(&start.first, found);
    of_link(&start.link, found);
}

/// Puts the names in further operands behind others.
#[cycle(vectors)]
fn of_links<'a>(list: &'a [VectorLink], found: &mut Gathered<'a>)
    ensures { Adds found.old found.new (flat_map link_names list.now) }
{
    for item in list {
        of_link(item, found);
    }
}

/// Puts the names in a value behind others.
pub(crate) fn of_value<'a>(value: &'a Value, found: &mut Gathered<'a>)
    ensures { Adds found.old found.new (definition.value_names (value_view value.now)) }
{
    match value {
        Value::Elements(vector) => of_vector(vector, found),
        Value::StateOf(signal) => found.add_whole(*signal),
        Value::Computed(integer) => of_computed(integer, found),
        Value::Position(_) | Value::StateOfVariable(_) | Value::StaticTruth(_) => {}
    }
}

/// Puts the names in two values behind others.
fn of_values<'a>(left: &'a Value, right: &'a Value, found: &mut Gathered<'a>)
    ensures { Adds found.old found.new
        (definition.value_names (value_view left.now) ++ definition.value_names (value_view right.now)) }
{
    of_value(left, found);
    of_value(right, found);
}

/// Puts the names in two vectors behind others.
fn of_vectors<'a>(left: &'a Vector, right: &'a Vector, found: &mut Gathered<'a>)
    ensures { Adds found.old found.new
        (definition.vector_names (vector_view left.now) ++ definition.vector_names (vector_view right.now)) }
{
    of_vector(left, found);
    of_vector(right, found);
}

/// Puts the names in what is assigned behind others.
pub(crate) fn of_given<'a>(given: &'a Given, found: &mut Gathered<'a>)
    ensures { Adds found.old found.new (definition.given_names (given_view given.now)) }
{
    match given {
        Given::Single(value) => of_value(value, found),
        Given::Filled(element) => of_vector(element, found),
    }
}

/// Puts the names in a condition behind others.
#[cycle(conditions)]
pub(crate) fn of_test<'a>(test: &'a Test, found: &mut Gathered<'a>)
    ensures { Adds found.old found.new (definition.test_names (test_view test.now)) }
{
    match test {
        Test::Holds(vector) => of_vector(vector, found),
        Test::Fixed(_) => {}
        Test::Alike(_, left, right) => of_values(left, right, found),
        Test::Unlike(_, left, right) => of_values(left, right, found),
        Test::Compared(_, _, left, right) => of_vectors(left, right, found),
        Test::ComparedTo(_, _, vector, _) => of_vector(vector, found),
        Test::ComparedWith(_, _, _, vector) => of_vector(vector, found),
        Test::ComparedToComputed(_, _, vector, integer) => {
            of_vector(vector, found);
            of_computed(integer, found);
        }
        Test::ComparedWithComputed(_, _, integer, vector) => {
            of_computed(integer, found);
            of_vector(vector, found);
        }
        Test::ComputedCompared(_, _, left, right) => {
            of_computed(left, found);
            of_computed(right, found);
        }
        Test::Edge(_, place) => found.add_place(place),
        Test::Event(place) => found.add_place(place),
        Test::Not(operand) => of_test(operand, found),
        Test::Chain(start, links) => {
            of_test_start(start, found);
            of_test_links(links, found);
        }
    }
}

/// Puts the names in a first condition, and in the one after it, behind others.
#[cycle(conditions)]
fn of_test_start<'a>(start: &'a TestStart, found: &mut Gathered<'a>)
    ensures { Adds found.old found.new
        (definition.test_names (test_view start.now.first) ++ test_link_names start.now.link) }
{
    of_test(&start.first, found);
    of_test(&start.link.operand, found);
}

/// Puts the names in further conditions behind others.
#[cycle(conditions)]
fn of_test_links<'a>(list: &'a [TestLink], found: &mut Gathered<'a>)
    ensures { Adds found.old found.new (flat_map test_link_names list.now) }
{
    for item in list {
        of_test(&item.operand, found);
    }
}
