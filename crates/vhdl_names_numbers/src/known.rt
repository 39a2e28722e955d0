//! Which values name no signal and no variable (IEEE 1076-2008, 9.4).

ghost use Rattle.std.specs.Prelude.{◌≡◌};
ghost use Rattle.std.specs.List.{list_all};
ghost use Rattle.vhdl_names_rules.specs.Known as rules;
ghost use Rattle.vhdl_names_trees.specs.views.Vectors.{vector_view, start_view, elements_view};
ghost use Rattle.vhdl_names_numbers.specs.Knowing as steps;

use vhdl_names_trees::{Vector, VectorElement, VectorLink, VectorStart};

/// Whether a vector names no signal and no variable.
#[cycle(known)]
#[tactic(auto, using(crate::proofs::Knowing::is_known_chain, crate::proofs::Knowing::is_known_aggregate))]
pub fn is_known(vector: &Vector) -> bool
    ensures { result ≡ rules.is_known (vector_view vector.now) }
{
    match vector {
        Vector::Signal(_)
        | Vector::Variable(..)
        | Vector::InSignal(..)
        | Vector::InVariable(..)
        | Vector::InConstant(..)
        | Vector::ComputedWith(..)
        | Vector::ComputedEncoded(..)
        | Vector::Shifted(..) => false,
        Vector::Constant(..)
        | Vector::Character(..)
        | Vector::EnclosedCharacter(..)
        | Vector::Literal(..)
        | Vector::Encoded(..) => true,
        Vector::Not(_, operand) => is_known(operand),
        Vector::IntegerWith(_, _, _, operand) => is_known(operand),
        Vector::Counted(_, _, operand, _) => is_known(operand),
        Vector::Sized(_, _, operand) => is_known(operand),
        Vector::Chain(start, links) => start_is_known(start) && links_are_known(links),
        Vector::Aggregate(_, _, elements) => are_known(elements),
    }
}

/// Whether the operands of a first operator name none.
#[cycle(known)]
#[tactic(auto, using(crate::proofs::Knowing::linked_known))]
fn start_is_known(start: &VectorStart) -> bool
    ensures { result ≡ rules.is_known (start_view start.now) }
{
    is_known(&start.first) && link_is_known(&start.link)
}

/// Whether the right operand of an operator names none.
#[cycle(known)]
fn link_is_known(link: &VectorLink) -> bool
    ensures { result ≡ steps.link_is_known link.now }
{
    match link {
        VectorLink::Vector(_, _, operand) => is_known(operand),
        VectorLink::Integer(..) => true,
        VectorLink::Computed(..) => false,
    }
}

/// Whether the right operands of further operators name none.
#[cycle(known)]
fn links_are_known(links: &[VectorLink]) -> bool
    ensures { result ≡ list_all steps.link_is_known links.now }
{
    for link in links {
        if !link_is_known(link) {
            return false;
        }
    }
    true
}

/// Whether the value of an element of an aggregate names none.
#[cycle(known)]
fn element_is_known(element: &VectorElement) -> bool
    ensures { result ≡ steps.element_is_known element.now }
{
    match element {
        VectorElement::Next(value) => is_known(value),
        VectorElement::Chosen(_, value) => is_known(value),
        VectorElement::Others(value) => is_known(value),
    }
}

/// Whether an element of an aggregate is for all others.
fn is_others(element: &VectorElement) -> bool
    ensures { result ≡ steps.is_others element.now }
{
    match element {
        VectorElement::Others(_) => true,
        VectorElement::Next(_) | VectorElement::Chosen(..) => false,
    }
}

/// Whether elements of an aggregate name none.
#[cycle(known)]
pub fn are_known(elements: &[VectorElement]) -> bool
    ensures { result ≡ rules.are_known (elements_view elements.now) }
{
    for element in elements {
        if !element_is_known(element) {
            return false;
        }
        if is_others(element) {
            return true;
        }
    }
    true
}
