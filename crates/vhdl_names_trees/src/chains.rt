//! Chains of logical operators: a link more, and the last one taken away.

ghost use Rattle.std.specs.Prelude.{◌≡◌, IfOk};
ghost use Rattle.vhdl_names_rules.specs.units.Expressions as units;
ghost use Rattle.vhdl_names_trees.specs.views.Parted as parts;
ghost use Rattle.vhdl_names_trees.specs.views.Tests.{static_test_view, static_start_view, static_test_chained, test_view, start_view, test_chained, parts_view};

use crate::test::{StaticTest, StaticTestLink, StaticTestStart, Test, TestLink, TestStart};
use std::alloc::{AllocError, Global};
use vhdl_values::Logic;

/// Whether the last operator of a chain is `and`.
fn ends_in_and(start: &TestStart, links: &[TestLink]) -> bool
    ensures { result ≡ parts.ends_in_and (test_chained (start_view start.now) links.now) }
{
    let operator = match links.split_last() {
        Some((link, _)) => link.operator,
        None => start.link.operator,
    };
    match operator {
        Logic::And => true,
        _ => false,
    }
}

/// What `and` joins last in a chain, or else the chain.
pub(crate) fn parted_chain(
    start: Box<TestStart>,
    links: Vec<TestLink>,
) -> Result<(Test, Test), Test>
    ensures { parts_view result ≡ parts.parted (test_chained (start_view start.value) links.items) }
{
    if !ends_in_and(&start, &links) {
        return Err(Test::chained(start, links));
    }
    let mut links = links;
    match links.pop() {
        Some(link) => Ok((Test::chained(start, links), link.into_operand())),
        None => {
            let (first, link) = Box::into_inner(start).into_parts();
            Ok((first, link.into_operand()))
        }
    }
}

/// A first operand with its operator, and further operators with their right operands.
#[tactic(auto, using(crate::proofs::rows::Tests::view_static_chain))]
fn static_chain(start: Box<StaticTestStart>, links: Vec<StaticTestLink>) -> StaticTest
    ensures { static_test_view result ≡ static_test_chained (static_start_view start.value) links.items }
{
    StaticTest::Chain(start, links)
}

/// A chain with one more link.
pub(crate) fn static_chain_with(
    start: Box<StaticTestStart>,
    mut links: Vec<StaticTestLink>,
    link: StaticTestLink,
) -> Result<StaticTest, AllocError>
    ensures { IfOk result (λ t. static_test_view t
        ≡ units.StaticTest.both link.operator (static_test_chained (static_start_view start.value) links.items)
        (static_test_view link.operand)) }
{
    links.push(link)?;
    Ok(static_chain(start, links))
}

/// A chain of one link.
pub(crate) fn static_chain_of(
    alloc: Global,
    first: StaticTest,
    link: StaticTestLink,
) -> Result<StaticTest, AllocError>
    ensures { IfOk result (λ t. static_test_view t ≡
        units.StaticTest.both link.operator (static_test_view first) (static_test_view link.operand)) }
{
    let start = Box::new(alloc, StaticTestStart { first, link })?;
    Ok(static_chain(start, Vec::new(alloc)))
}

/// A chain with one more link, over signals.
pub(crate) fn chain_with(
    start: Box<TestStart>,
    mut links: Vec<TestLink>,
    link: TestLink,
) -> Result<Test, AllocError>
    ensures { IfOk result (λ t. test_view t
        ≡ units.Test.both link.operator (test_chained (start_view start.value) links.items) (test_view link.operand)) }
{
    links.push(link)?;
    Ok(Test::chained(start, links))
}

/// A chain of one link, over signals.
pub(crate) fn chain_of(alloc: Global, first: Test, link: TestLink) -> Result<Test, AllocError>
    ensures { IfOk result (λ t. test_view t ≡
        units.Test.both link.operator (test_view first) (test_view link.operand)) }
{
    let start = Box::new(alloc, TestStart { first, link })?;
    Ok(Test::chained(start, Vec::new(alloc)))
}
