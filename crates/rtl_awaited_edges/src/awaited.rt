//! Clocked processes that act at an edge alone.

ghost use Rattle.std.specs.Prelude.{◌≡◌, ◌<◌, length, slice_index_or, IfSome, IfOk, IsSome, None, true};
ghost use Rattle.rtl_net.specs.Core.{core};
ghost use Rattle.rtl_awaited_edges.specs.Awaiting.{AreEdges, AreLeaders, AwaitFirst, IsAsleep, edge_alone};

use rtl_body_facts::{Clocking, ProcessKind, kind_of};
use rtl_eval::nine;
use rtl_net::Net;
use std::alloc::{AllocError, Global};
use vhdl_values::{Edge, edge};

/// An edge of a clock.
#[derive(Clone, Copy)]
pub struct ClockEdge {
    pub clock: usize,
    pub edge: Edge,
}

/// Of each process the edge without which it assigns nothing, if it is clocked and has no reset.
pub fn edges_of(alloc: Global, net: &Net) -> Result<Vec<Option<ClockEdge>>, AllocError>
    ensures { IfOk result (λ edges. AreEdges (core net.now) edges.items) }
{
    net.is_elaborated();
    let wide = net.is_wide();
    let inputs = net.inputs();
    let processes = net.processes();
    let mut edges = Vec::with_capacity(alloc, processes.len())?;
    for process in processes {
        edges.push(edge_alone(kind_of(wide, inputs, &process.body)))?;
    }
    Ok(edges)
}

/// The first edge that a process awaits, and for each process whether it awaits that one.
pub fn first_awaited(alloc: Global, net: &Net) -> Result<(Option<ClockEdge>, Vec<bool>), AllocError>
    ensures { IfOk result (λ r. AwaitFirst (core net.now) r.0 r.1.items) }
{
    let edges = edges_of(alloc, net)?;
    let mut awaited = None;
    let mut await_it = Vec::with_capacity(alloc, edges.len())?;
    for process in 0..edges.len() {
        let edge = edges[process];
        awaited = awaited.or(edge);
        await_it.push(are_alike(edge, awaited))?;
    }
    Ok((awaited, await_it))
}

/// The edge of a clocked process that has no reset.
fn edge_alone(kind: ProcessKind) -> Option<ClockEdge>
    ensures { result ≡ edge_alone kind }
{
    match kind {
        ProcessKind::Clocked(
            Clocking {
                clock,
                edge,
                reset: None,
                ..
            },
        ) => Some(ClockEdge { clock, edge }),
        _ => None,
    }
}

/// Whether there is no such edge, from what was before to what is now.
pub fn is_asleep(awaited: Option<ClockEdge>, before: &[u8], values: &[u8]) -> bool
    requires before { IfSome awaited (λ e. e.clock < length before.now) }
    requires values { IfSome awaited (λ e. e.clock < length values.now) }
    ensures { result ≡ true → IsAsleep awaited before.now values.now }
{
    match awaited {
        Some(awaited) => {
            let was = nine(before[awaited.clock]);
            !edge(awaited.edge, was, nine(values[awaited.clock]))
        }
        None => false,
    }
}

/// Of each process one that awaits the same edge; mostly it is one for all that do.
pub fn leaders_of(alloc: Global, edges: &[Option<ClockEdge>]) -> Result<Vec<usize>, AllocError>
    ensures { IfOk result (λ leaders. AreLeaders edges.now leaders.items) }
{
    let mut leaders = Vec::with_capacity(alloc, edges.len())?;
    let mut last = 0;
    for process in 0..edges.len() {
        let leader = leader_of(edges, process, last);
        leaders.push(leader)?;
        if edges[leader].is_some() {
            last = leader;
        }
    }
    Ok(leaders)
}

/// The last leader if it awaits the same edge as this process, or else the process.
fn leader_of(edges: &[Option<ClockEdge>], process: usize, last: usize) -> usize
    requires process { process < length edges.now }
    requires last { last < length edges.now }
    ensures there { result < length edges.now }
    ensures alike { slice_index_or edges.now result None ≡ slice_index_or edges.now process None }
{
    if are_alike(edges[process], edges[last]) {
        last
    } else {
        process
    }
}

/// Whether these are the same edge of the same clock.
fn are_alike(one: Option<ClockEdge>, other: Option<ClockEdge>) -> bool
    ensures alike { result ≡ true → one ≡ other }
    ensures some { result ≡ true → IsSome one }
{
    match (one, other) {
        (Some(one), Some(other)) => one.clock == other.clock && is_edge(one.edge, other.edge),
        _ => false,
    }
}

/// Whether this is that kind of edge.
fn is_edge(one: Edge, other: Edge) -> bool
    ensures { result ≡ true → one ≡ other }
{
    match (one, other) {
        (Edge::Rising, Edge::Rising) | (Edge::Falling, Edge::Falling) => true,
        (Edge::To1, Edge::To1) | (Edge::To0, Edge::To0) => true,
        _ => false,
    }
}

/// What was seen of the edge that a process awaits.
#[derive(Clone, Copy)]
pub struct Look {
    pub leader: usize,
    pub asleep: bool,
}

/// What is seen of the edge that this process awaits: what was, if it is the same.
#[inline(always)]
pub fn look_at(
    was: Look,
    edges: &[Option<ClockEdge>],
    leader: usize,
    before: &[u8],
    values: &[u8],
) -> Look
    requires there { leader < length edges.now }
    requires was { was.asleep ≡ true → IsAsleep (slice_index_or edges.now was.leader None) before.now values.now }
    requires before { IfSome (slice_index_or edges.now leader None) (λ e. e.clock < length before.now) }
    requires values { IfSome (slice_index_or edges.now leader None) (λ e. e.clock < length values.now) }
    ensures leader { result.leader ≡ leader }
    ensures asleep { result.asleep ≡ true → IsAsleep (slice_index_or edges.now leader None) before.now values.now }
{
    if was.leader == leader {
        return was;
    }
    Look {
        leader,
        asleep: is_asleep(edges[leader], before, values),
    }
}
