//! Which names are static: their longest static prefixes are the drivers of a process (IEEE
//! 1076-2008, 8.1).

ghost use Rattle.std.specs.Prelude.{◌≡◌};
ghost use Rattle.vhdl_names_rules.specs.Names as names;
ghost use Rattle.vhdl_names_trees.specs.views.Integers.{static_view, start_view};
ghost use Rattle.vhdl_names_trees.specs.views.Vectors.{part_view};
ghost use Rattle.vhdl_expand_rules.specs.Prefixes as definition;
ghost use Rattle.vhdl_expand_rules.specs.views.Prefixes.{all_static};

use vhdl_names_trees::{Part, Static, StaticLink, StaticStart};

/// Which names of a body are sought.
#[derive(Clone, Copy)]
pub enum Sought {
    Read,
    Assigned,
}

/// Whether an integer is static: no parameter of a loop stands in it.
#[cycle(is_static)]
#[tactic(auto, using(crate::proofs::StaticChains::start_stops, crate::proofs::StaticChains::start_goes_on))]
pub fn is_static(value: &Static) -> bool
    ensures { result ≡ names.is_static (static_view value.now) }
{
    match value {
        Static::LoopParameter(_) => false,
        Static::Number(_)
        | Static::LeastInteger
        | Static::Generic(_)
        | Static::Constant(_)
        | Static::GenerateParameter(_)
        | Static::Bound(_, _) => true,
        Static::Negated(_, operand) | Static::Absolute(_, operand) => is_static(operand),
        Static::SliceBound { left, right, .. } => is_static(left) && is_static(right),
        Static::Chain(start, links) => {
            if !is_start_static(start) {
                return false;
            }
            are_static(links)
        }
    }
}

/// Whether the first operator of a chain has static operands.
#[cycle(is_static)]
fn is_start_static(start: &StaticStart) -> bool
    ensures { result ≡ names.is_static (start_view start.now) }
{
    is_static(&start.first) && is_static(&start.link.operand)
}

/// Whether the operands of operators are static.
#[cycle(is_static)]
fn are_static(links: &[StaticLink]) -> bool
    ensures { result ≡ all_static links.now }
{
    for link in links {
        if !is_static(&link.operand) {
            return false;
        }
    }
    true
}

/// Whether a part is static, so that the name with it is its own longest static prefix.
pub fn is_static_part(part: &Part) -> bool
    ensures { result ≡ definition.is_static_part (part_view part.now) }
{
    match part {
        Part::Whole => true,
        Part::Element(index) => is_static(index),
        Part::Slice(range) => is_static(&range.left) && is_static(&range.right),
    }
}
