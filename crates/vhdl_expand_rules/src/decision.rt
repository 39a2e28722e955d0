//! Truths over static integers, and the turns of loops and generates (IEEE 1076-2008, 9.2.3, 9.4,
//! 10.10, 11.9).

ghost use Rattle.std.specs.Prelude.{◌≡◌, Ok};
ghost use Rattle.rtl_model.specs.bodies.Tests as tests;
ghost use Rattle.vhdl_names_trees.specs.views.Integers.{range_view};
ghost use Rattle.vhdl_names_trees.specs.views.Tests.{static_test_view, static_start_view};
ghost use Rattle.vhdl_expand_rules.specs.Integers as definition;
ghost use Rattle.vhdl_expand_rules.specs.views.Integers.{integers_view, Computes, Makes};
ghost use Rattle.vhdl_expand_rules.specs.views.Decisions.{all_decided, turns_view};

use crate::fault::{ElabFault, ElabProblem};
use crate::integer::Integers;
use crate::turns::{MAX_TURNS, Turns};
use vhdl_names_trees::{StaticRange, StaticTest, StaticTestLink, StaticTestStart};
use vhdl_tree::Direction;
use vhdl_values::{Cmp, Logic};

/// A logical operator on truths.
fn truth(operator: Logic, left: bool, right: bool) -> bool
    ensures { result ≡ tests.truth operator left right }
{
    match operator {
        Logic::And => left && right,
        Logic::Or => left || right,
        Logic::Nand => !(left && right),
        Logic::Nor => !(left || right),
        Logic::Xor => { if left { !right } else { right } }
        Logic::Xnor => { if left { right } else { !right } }
    }
}

/// A relation of two integers.
fn compares(relation: Cmp, left: i32, right: i32) -> bool
    ensures { result ≡ definition.compares_integers relation left right }
{
    match relation {
        Cmp::Eq => left <= right && right <= left,
        Cmp::Ne => left < right || right < left,
        Cmp::Lt => left < right,
        Cmp::Le => left <= right,
        Cmp::Gt => right < left,
        Cmp::Ge => right <= left,
    }
}

/// Whether a range has no number in it.
pub fn is_null(direction: Direction, left: i32, right: i32) -> bool
    ensures { result ≡ definition.is_null direction left right }
{
    match direction {
        Direction::To => right < left,
        Direction::Downto => left < right,
    }
}

/// How many numbers are in a range.
pub fn extent(direction: Direction, left: i32, right: i32) -> u64
    ensures { result ≡ definition.extent direction left right }
{
    if is_null(direction, left, right) {
        0
    } else {
        (i64::from(left) - i64::from(right)).unsigned_abs() + 1
    }
}

impl Integers<'_> {
    /// Whether a condition over static integers holds; a fault is StaticError.
    #[cycle(decision)]
    #[tactic(auto, unfolding(crate::specs::Integers::decision))]
    pub fn decision(&self, test: &StaticTest) -> Result<bool, ElabFault>
        ensures { Computes (definition.decision (integers_view self.now) (static_test_view test.now)) result }
    {
        match test {
            StaticTest::Known(at, position) => {
                let x = self.integer(position, *at)?;
                Ok(0 < x)
            }
            StaticTest::Compared(relation, sign, left, right) => {
                let x = self.integer(left, *sign)?;
                let y = self.integer(right, *sign)?;
                Ok(compares(*relation, x, y))
            }
            StaticTest::Not(operand) => {
                let holds = self.decision(operand)?;
                Ok(!holds)
            }
            StaticTest::Chain(start, links) => {
                let first = self.first_decision(start)?;
                self.all_decisions(first, links)
            }
        }
    }

    /// The truth of the first operator of a chain.
    #[cycle(decision)]
    #[tactic(auto, unfolding(crate::specs::Integers::decision))]
    fn first_decision(&self, start: &StaticTestStart) -> Result<bool, ElabFault>
        ensures { Computes (definition.decision (integers_view self.now) (static_start_view start.now)) result }
    {
        let left = self.decision(&start.first)?;
        let right = self.decision(&start.link.operand)?;
        Ok(truth(start.link.operator, left, right))
    }

    /// The truth of a chain's further operators, on the truth of what stands before them.
    #[cycle(decision)]
    fn all_decisions(&self, first: bool, links: &[StaticTestLink]) -> Result<bool, ElabFault>
        ensures { Computes (all_decided (integers_view self.now) first links.now) result }
    {
        let mut holds = first;
        for link in links {
            let operand = self.decision(&link.operand)?;
            holds = truth(link.operator, holds, operand);
        }
        Ok(holds)
    }

    /// The turns of a loop or generate with this range, at most 4,096; a fault is StaticError or
    /// TooMany.
    #[tactic(auto, unfolding(crate::specs::Integers::turns))]
    pub fn turns(&self, range: &StaticRange, at: usize) -> Result<Turns, ElabFault>
        ensures { Makes turns_view (definition.turns (integers_view self.now) at (range_view range.now)) result }
    {
        let first = self.integer(&range.left, at)?;
        let last = self.integer(&range.right, at)?;
        let count = extent(range.direction, first, last);
        if count > MAX_TURNS {
            return Err(ElabProblem::TooMany.at(at));
        }
        Ok(Turns {
            first,
            direction: range.direction,
            count: count as u32,
        })
    }
}
