//! Tests for edges (IEEE 1076-2008, 16.2.4; std_logic_1164).

ghost use Rattle.std.specs.Prelude.{◌≡◌, true, IfOk};
ghost use Rattle.vhdl_values.specs.declared.kinds.Logic.TheVariants.{And};
ghost use Rattle.rtl_model.specs.bodies.Body as bodies;
ghost use Rattle.rtl_net.specs.Bodies.{test_view};
ghost use Rattle.vhdl_expand_rules.specs.Expressions as definition;

use rtl_net::{Test, TestLink};
use std::alloc::{AllocError, Global};
use vhdl_values::{Edge, Logic, Nine};

/// An event of an element, which has this value.
#[tactic(auto, using(rtl_net::proofs::Rows::view_combined))]
fn event_to(alloc: Global, element: u32, value: Nine) -> Result<Test, AllocError>
    ensures { IfOk result (λ t. test_view t ≡
        bodies.combined And (bodies.event element) (bodies.level true element value)) }
{
    let first = Box::new(alloc, Test::Event(element))?;
    let mut rest = Vec::new(alloc);
    rest.push(TestLink {
        operator: Logic::And,
        operand: Test::Level {
            plain: true,
            net: element,
            value,
        },
    })?;
    Ok(Test::Combined { first, rest })
}

/// A test for an edge of an element. It takes the memory of a list and a box.
pub fn edge_test(alloc: Global, edge: Edge, element: u32) -> Result<Test, AllocError>
    ensures { IfOk result (λ t. test_view t ≡ definition.edge_test edge element) }
{
    match edge {
        Edge::Rising => Ok(Test::Rising(element)),
        Edge::Falling => Ok(Test::Falling(element)),
        Edge::To1 => event_to(alloc, element, Nine::One),
        Edge::To0 => event_to(alloc, element, Nine::Zero),
    }
}
