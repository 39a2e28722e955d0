//! Whether two reports by nets say the same.

ghost use Rattle.std.specs.Prelude.{◌≡◌, ◌↔◌, IsTrue};
ghost use Rattle.rtl_recheck.specs.Kept.{SayTheSame};

use rtl_check::NetReport;
use vhdl_values::Edge;

/// Whether two edges are the same.
fn is_same_edge(one: Edge, other: Edge) -> bool
    ensures { IsTrue result ↔ (one ≡ other) }
{
    match (one, other) {
        (Edge::Rising, Edge::Rising) => true,
        (Edge::Falling, Edge::Falling) => true,
        (Edge::To1, Edge::To1) => true,
        (Edge::To0, Edge::To0) => true,
        _ => false,
    }
}

/// Whether two lists of nets and edges are the same.
fn are_same_clocks(ones: &[(usize, Edge)], others: &[(usize, Edge)]) -> bool
    ensures { IsTrue result ↔ (ones.now ≡ others.now) }
{
    if ones.len() != others.len() {
        return false;
    }
    for k in 0..ones.len() {
        if ones[k].0 != others[k].0 || !is_same_edge(ones[k].1, others[k].1) {
            return false;
        }
    }
    true
}

/// Whether two reports by nets say the same.
pub fn are_same(one: &NetReport, other: &NetReport) -> bool
    ensures { IsTrue result ↔ SayTheSame one.now other.now }
{
    if one.levels != other.levels {
        return false;
    }
    if one.from != other.from {
        return false;
    }
    if one.nets != other.nets {
        return false;
    }
    if one.looks != other.looks {
        return false;
    }
    if !are_same_clocks(&one.clocks, &other.clocks) {
        return false;
    }
    one.bound == other.bound
}
