//! Whether a list has the pairs of net and edge that a netlist's clocked processes test, without
//! memory.

ghost use Rattle.std.specs.Prelude.{◌≡◌, ◌↔◌, ◌<◌, ℕ, Option, length, IsTrue, Contains};
ghost use Rattle.rtl_model.specs.basics.Lists.{IsLess, RisesBy};
ghost use Rattle.rtl_model.specs.simulation.Netlist as m;
ghost use Rattle.rtl_model.specs.simulation.Report.{clock_key, AreClocks};
ghost use Rattle.rtl_net.specs.Core.{core};
ghost use Rattle.rtl_process_kinds.specs.KindViews.{IsKind};
ghost use Rattle.rtl_check.specs.ClockEdges as e;
ghost use Rattle.rtl_check.specs.ListedClocks as s;

use crate::clock_edges::edge_number;
use rtl_body_facts::ProcessKind;
use rtl_net::Net;
use rtl_process_kinds::kind_at;
use vhdl_values::Edge;

/// Whether a pair is this net and edge.
fn is_pair(pair: (usize, Edge), net: usize, edge: Edge) -> bool
    ensures { result ≡ s.is_pair net edge pair }
{
    pair.0 == net && edge_number(pair.1) == edge_number(edge)
}

/// Whether a net and an edge are listed.
fn is_listed(clocks: &[(usize, Edge)], net: usize, edge: Edge) -> bool
    ensures { IsTrue result ↔ Contains clocks.now (net, edge) }
{
    for pair in clocks {
        if is_pair(*pair, net, edge) {
            return true;
        }
    }
    false
}

/// Whether a process of this kind is clocked by this edge of a net.
fn tests(edge: Edge, net: usize, kind: ProcessKind) -> bool
    ensures { result ≡ e.tests edge net kind }
{
    match kind {
        ProcessKind::Clocked(clocking) => {
            edge_number(clocking.edge) == edge_number(edge) && clocking.clock == net
        }
        _ => false,
    }
}

/// Whether some process is clocked by this edge of a net.
fn is_tested(net: &Net, clock: usize, edge: Edge) -> bool
    ensures { IsTrue result ↔ s.IsTested (core net.now) clock edge }
{
    let processes = net.processes();
    for process in 0..processes.len() {
        if tests(edge, clock, kind_at(net, process)) {
            return true;
        }
    }
    false
}

/// Whether all pairs are tested.
fn are_tested(net: &Net, clocks: &[(usize, Edge)]) -> bool
    ensures { IsTrue result ↔ s.AreTested (core net.now) clocks.now }
{
    for k in 0..clocks.len() {
        let (clock, edge) = clocks[k];
        if !is_tested(net, clock, edge) {
            return false;
        }
    }
    true
}

/// Whether the clock of a process of this kind is listed, if it has one.
fn lists_clock(clocks: &[(usize, Edge)], kind: ProcessKind) -> bool
    ensures { (q : m.Process) → IsKind q kind
        → IsTrue result ↔ ((n : ℕ) (edge : m.Edge) (reset : Option m.Reset) → q.kind ≡ m.Clocked n edge reset
        → Contains clocks.now (n, edge)) }
{
    match kind {
        ProcessKind::Clocked(clocking) => is_listed(clocks, clocking.clock, clocking.edge),
        _ => true,
    }
}

/// Whether all that is tested is listed.
fn are_listed(net: &Net, clocks: &[(usize, Edge)]) -> bool
    ensures { IsTrue result ↔ s.AreListed (core net.now) clocks.now }
{
    let processes = net.processes();
    for process in 0..processes.len() {
        if !lists_clock(clocks, kind_at(net, process)) {
            return false;
        }
    }
    true
}

/// Whether a net and an edge come before others.
fn comes_before(net: usize, edge: Edge, other: usize, other_edge: Edge) -> bool
    ensures { IsTrue result ↔ IsLess (clock_key (net, edge)) (clock_key (other, other_edge)) }
{
    net < other || (net == other && edge_number(edge) < edge_number(other_edge))
}

/// Whether each pair comes before the next.
fn rise(clocks: &[(usize, Edge)]) -> bool
    ensures { IsTrue result ↔ RisesBy clock_key clocks.now }
{
    for k in 1..clocks.len() {
        let (net, edge) = clocks[k - 1];
        let (next, next_edge) = clocks[k];
        if !comes_before(net, edge, next, next_edge) {
            return false;
        }
    }
    true
}

/// Whether these are the pairs of net and edge that a netlist's clocked processes test, each once:
/// by net, then in the order of edges. It takes no memory, and time by the product of clocks and
/// processes at most.
pub fn are_clocks(net: &Net, clocks: &[(usize, Edge)]) -> bool
    ensures { IsTrue result ↔ AreClocks (core net.now) clocks.now }
{
    if !rise(clocks) {
        return false;
    }
    if !are_tested(net, clocks) {
        return false;
    }
    are_listed(net, clocks)
}
