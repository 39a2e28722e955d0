//! Edges of signals: rising_edge, falling_edge and 'event (IEEE 1076-2008, 16.2.4; IEEE 1164), of a
//! signal's static name (8.1).

ghost use Rattle.vhdl_names_rules.specs.problems.Broken.{Tells, refused, lacking};
ghost use Rattle.vhdl_names_rules.specs.problems.Operators.{edge_problem as problem_of, name_problem};
ghost use Rattle.std.specs.Prelude.{◌≡◌, true, false, None, option_map, IfOk, IfErr, OnErr};
ghost use Rattle.std.specs.List.{list_all};
ghost use Rattle.vhdl_names_rules.specs.Gives.{Gives};
ghost use Rattle.vhdl_names_rules.specs.Names as rules;
ghost use Rattle.vhdl_names_rules.specs.Operators as table;
ghost use Rattle.vhdl_names_rules.specs.Visibility as visibility;
ghost use Rattle.vhdl_names_rules.specs.declared.kind.ElementKind.TheVariants.{Element};
ghost use Rattle.vhdl_names_rules.specs.declared.kind.Function.TheVariants.{EdgeCall};
ghost use Rattle.vhdl_names_rules.specs.units.Expressions as units;
ghost use Rattle.vhdl_names_trees.specs.views.Integers.{static_view, start_view};
ghost use Rattle.vhdl_names_trees.specs.views.Vectors.{part_view, place_view, vector_view};
ghost use Rattle.vhdl_names_parts.specs.Steps.{edge_by, edge_call_problem, is_signal};
ghost use Rattle.vhdl_names_trees.specs.views.Expressions.{typed_view, typed_suffix_view};

use crate::parts::sole_argument;
use vhdl_names_rules::{ElementKind, NameFault, NameProblem, without};
use vhdl_names_trees::{
    Part, SignalPart, Static, StaticLink, StaticStart, Test, Typed, TypedSuffix, Vector,
};
use vhdl_values::Edge;

/// The signal, or part of one, that a vector is, or else the vector.
fn as_place(vector: Vector) -> Result<SignalPart, Vector>
    ensures place { IfOk result (λ p. vector_view vector ≡ units.of_signal (place_view p)) }
    ensures other { IfErr result (λ v. is_signal (vector_view vector) ≡ false) }
    ensures same { IfErr result (λ v. v ≡ vector) }
{
    match vector.into_signal() {
        Ok(place) => Ok(place),
        Err(vector) => Err(vector),
    }
}

/// Whether no loop's parameter stands in it.
#[cycle(is_static)]
#[tactic(auto, using(crate::proofs::Meant::is_static_chain))]
fn is_static(integer: &Static) -> bool
    ensures { result ≡ rules.is_static (static_view integer.now) }
{
    match integer {
        Static::LoopParameter(_) => false,
        Static::Negated(_, operand) | Static::Absolute(_, operand) => is_static(operand),
        Static::SliceBound { left, right, .. } => is_static(left) && is_static(right),
        Static::Chain(start, links) => is_static_start(start) && are_static(links),
        _ => true,
    }
}

/// Whether no loop's parameter stands in either operand.
#[cycle(is_static)]
fn is_static_start(start: &StaticStart) -> bool
    ensures { result ≡ rules.is_static (start_view start.now) }
{
    is_static(&start.first) && is_static(&start.link.operand)
}

/// Whether no loop's parameter stands in any right operand.
#[cycle(is_static)]
fn are_static(links: &[StaticLink]) -> bool
    ensures { result ≡ list_all (λ l. rules.is_static (static_view l.operand)) links.now }
{
    for link in links {
        if !is_static(&link.operand) {
            return false;
        }
    }
    true
}

/// Whether it is the whole, or an element at an index with no loop's parameter in it.
pub fn is_static_part(part: &Part) -> bool
    ensures { result ≡ rules.is_static_part (part_view part.now) }
{
    match part {
        Part::Whole => true,
        Part::Element(index) => is_static(index),
        Part::Slice(_) => false,
    }
}

/// What is wrong with an operand that is no signal.
fn edge_problem(vector: &Vector) -> NameProblem
    ensures { result ≡ problem_of (table.elements Element (vector_view vector.now)) }
{
    match vector {
        Vector::Variable(..) | Vector::Constant(..) => NameProblem::WrongKind,
        _ => NameProblem::TypeMismatch,
    }
}

/// The element that an operand is.
fn element_of(operand: Typed, at: usize) -> Result<Vector, NameFault>
    ensures element { IfOk result (λ v. typed_view operand ≡ table.elements Element (vector_view v)) }
    ensures other { OnErr result (rules.edge_signal (typed_view operand) ≡ None) }
    ensures told { IfErr result (Tells (refused (problem_of (typed_view operand)) at)) }
{
    match operand {
        Typed::Elements(ElementKind::Element, vector) => Ok(vector),
        Typed::Integer(integer) => Err(without(integer, NameProblem::WrongKind.at(at))),
        operand => Err(without(operand, NameProblem::TypeMismatch.at(at))),
    }
}

/// The signal that an element is, by a static name.
#[tactic(auto, using(crate::proofs::Meant::no_edge))]
fn static_signal(vector: Vector, at: usize) -> Result<SignalPart, NameFault>
    ensures given { Gives place_view (rules.edge_signal (table.elements Element (vector_view vector))) result }
    ensures told { IfErr result (Tells (refused (problem_of (table.elements Element (vector_view vector))) at)) }
{
    match as_place(vector) {
        Ok(place) => {
            if is_static_part(&place.part) {
                Ok(place)
            } else {
                Err(without(place, NameProblem::TypeMismatch.at(at)))
            }
        }
        Err(vector) => {
            let problem = edge_problem(&vector);
            Err(without(vector, problem.at(at)))
        }
    }
}

/// The signal of one element that an edge call or 'event at byte `at` asks for.
pub(crate) fn edge_signal(operand: Typed, at: usize) -> Result<SignalPart, NameFault>
    ensures given { Gives place_view (rules.edge_signal (typed_view operand)) result }
    ensures told { IfErr result (Tells
        (lacking (problem_of (typed_view operand)) at (rules.edge_signal (typed_view operand)))) }
{
    let vector = element_of(operand, at)?;
    static_signal(vector, at)
}

/// An edge of a signal, for a call at byte `at`.
fn edge_call(edge: Edge, operand: Option<Typed>, at: usize) -> Result<Typed, NameFault>
    ensures given { Gives typed_view (edge_by edge (option_map typed_view operand)) result }
    ensures told { IfErr result (Tells (refused (edge_call_problem (option_map typed_view operand)) at)) }
{
    match operand {
        Some(operand) => {
            let place = edge_signal(operand, at)?;
            Ok(Typed::Truth(Test::Edge(edge, place)))
        }
        None => Err(NameProblem::TypeMismatch.at(at)),
    }
}

/// rising_edge or falling_edge, whose name is at byte `at`, of a signal's name.
#[tactic(auto, using(crate::proofs::Meant::edge_sole, crate::proofs::Meant::call_problem_sole))]
pub(crate) fn edge_of(edge: Edge, suffix: TypedSuffix, at: usize) -> Result<Typed, NameFault>
    ensures given { Gives typed_view (rules.edge_of edge (typed_suffix_view suffix)) result }
    ensures told { IfErr result (Tells
        (refused (name_problem (visibility.function (EdgeCall edge)) (typed_suffix_view suffix)) at)) }
{
    match suffix {
        TypedSuffix::Arguments(true, arguments) => edge_call(edge, sole_argument(arguments), at),
        _ => Err(NameProblem::TypeMismatch.at(at)),
    }
}
