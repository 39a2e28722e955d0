//! Who is run when.

ghost use Rattle.std.specs.Prelude.{◌≡◌, ◌<◌, ◌≤◌, ◌++◌, All, length, map, IfOk, OnOk};
ghost use Rattle.std.specs.List.{filter};
ghost use Rattle.std.specs.List.Sorted.{IsNonDecreasingBy};
ghost use Rattle.rtl_model.specs.simulation.Accepted.{IsAccepted};
ghost use Rattle.rtl_net.specs.Core.{core};
ghost use Rattle.rtl_process_kinds.specs.KindViews.{AreKinds};
ghost use Rattle.rtl_levels.specs.Kept.{IsPlanned};
ghost use Rattle.rtl_levels.specs.Scheduled.{AddsBelow, AllAreMoving, AreMarking};
ghost use Rattle.rtl_levels.specs.Scheduled.{are_clocked, beside_level, clocked_wakes, kind_moves};
ghost use Rattle.rtl_levels.specs.Visits.{AreNetLevels};

use crate::clocking::moves;
use crate::order::{Visit, visits_of};
use crate::wholes::wholes_of;
use rtl_awaited_edges::{ClockEdge, edges_of, leaders_of};
use rtl_body_facts::ProcessKind;
use rtl_kernel::target_lists;
use rtl_net::Net;
use rtl_net_groups::{Cuts, Groups, Lists};
use std::alloc::{AllocError, Global};

/// The visits of processes in their order, for each net those that a change of it marks, and the
/// clocked processes that are sensitive to it; the cuts of each process's drivers over nets that
/// mark the same visits, and where there is one alone its first net; and of each process the edge
/// without which it assigns nothing, if it is clocked and has no reset, and a process that awaits
/// the same.
#[derive(Drop)]
pub struct Schedule {
    pub visits: Vec<Visit>,
    pub readers: Groups,
    pub clocked: Groups,
    pub cuts: Cuts,
    pub wholes: Vec<Option<usize>>,
    pub edges: Vec<Option<ClockEdge>>,
    pub leaders: Vec<usize>,
}

impl Schedule {
    /// The schedule of an accepted netlist whose processes have these kinds, these of which are
    /// clocked, and whose nets have these levels.
    pub fn new(
        alloc: Global,
        net: &Net,
        kinds: &[ProcessKind],
        clocked: &[bool],
        nets: &[u32],
    ) -> Result<Schedule, AllocError>
        requires accepted { IsAccepted (core net.now) }
        requires kinds { AreKinds (core net.now) kinds.now }
        requires clocked { clocked.now ≡ are_clocked (core net.now) }
        requires nets { AreNetLevels (core net.now) nets.now }
        ensures { IfOk result (IsPlanned (core net.now)) }
    {
        let together = vec![in alloc; 0; net.nets()]?;
        let visits = visits_of(alloc, net, nets)?;
        let moving = moving_nets(alloc, net, kinds, nets)?;
        let by_rank = marking_nets(alloc, &visits, &moving)?;
        let by_process = wakes_of_clocked(alloc, net, clocked)?;
        let readers = Groups::new(alloc, &together, &by_rank)?;
        let clocked = Groups::new(alloc, &together, &by_process)?;
        let targets = target_lists(alloc, net.processes())?;
        let cuts = Cuts::new(alloc, readers.of_net(), &targets)?;
        let wholes = wholes_of(alloc, &cuts, targets.count())?;
        let edges = edges_of(alloc, net)?;
        let leaders = leaders_of(alloc, &edges)?;
        Ok(Schedule {
            visits,
            readers,
            clocked,
            cuts,
            wholes,
            edges,
            leaders,
        })
    }
}

/// Of each process the nets whose changes may move it, beside their levels, in order of these.
fn moving_nets(
    alloc: Global,
    net: &Net,
    kinds: &[ProcessKind],
    nets: &[u32],
) -> Result<Lists<(u32, usize)>, AllocError>
    requires kinds { AreKinds (core net.now) kinds.now }
    requires nets { length nets.now ≡ length net.now.types }
    ensures { IfOk result (AllAreMoving (core net.now) nets.now) }
{
    net.is_elaborated();
    let processes = net.processes();
    let mut lists = Lists::new(alloc)?;
    let mut moving = Vec::new(alloc);
    for number in 0..processes.len() {
        moving.clear();
        let wakes = processes[number].wakes.as_slice();
        push_moving(kinds[number], nets, wakes, &mut moving)?;
        moving.sort_unstable_by_key(|m| m.0);
        lists.push(&moving)?;
    }
    Ok(lists)
}

/// Puts those of these nets that may move a process of this kind behind the others, each beside its
/// level.
fn push_moving(
    kind: ProcessKind,
    nets: &[u32],
    wakes: &[usize],
    moving: &mut Vec<(u32, usize)>,
) -> Result<(), AllocError>
    requires { All (λ n. n < length nets.now) wakes.now }
    ensures { OnOk result (moving.new.items
        ≡ moving.old.items ++ map (beside_level nets.now) (filter (kind_moves kind) wakes.now)) }
{
    for net in wakes {
        if moves(kind, *net) {
            moving.push((nets[*net], *net))?;
        }
    }
    Ok(())
}

/// Of each visit the nets whose changes mark it, where these may move processes: of those of its
/// process the ones that are below the visit's level, and that no visit before it has taken. Each
/// is taken once.
fn marking_nets(
    alloc: Global,
    visits: &[Visit],
    moving: &Lists<(u32, usize)>,
) -> Result<Lists<usize>, AllocError>
    requires processes { All (λ visit. visit.process < length moving.now) visits.now }
    requires in_order { All (IsNonDecreasingBy (λ m. m.0)) moving.now }
    ensures { IfOk result (AreMarking moving.now visits.now) }
{
    let mut taken = vec![in alloc; 0; moving.count()]?;
    let mut lists = Lists::new(alloc)?;
    let mut marking = Vec::new(alloc);
    for visit in visits {
        let process = visit.process;
        marking.clear();
        let nets = moving.get(process);
        let end = push_below(nets, taken[process], visit.level, &mut marking)?;
        taken[process] = end;
        lists.push(&marking)?;
    }
    Ok(lists)
}

/// Puts the nets from this place on, up to the first that isn't below the level, behind the others.
/// It returns that one's place.
fn push_below(
    moving: &[(u32, usize)],
    from: usize,
    level: u32,
    marking: &mut Vec<usize>,
) -> Result<usize, AllocError>
    requires { from ≤ length moving.now }
    ensures { IfOk result (λ end. AddsBelow moving.now from level end marking.old.items marking.new.items) }
{
    for place in from..moving.len() {
        let (of_net, net) = moving[place];
        if of_net >= level {
            return Ok(place);
        }
        marking.push(net)?;
    }
    Ok(moving.len())
}

/// Of each process the nets that it is sensitive to, where it is clocked.
fn wakes_of_clocked(alloc: Global, net: &Net, clocked: &[bool]) -> Result<Lists<usize>, AllocError>
    requires { clocked.now ≡ are_clocked (core net.now) }
    ensures { IfOk result (λ lists. lists ≡ map clocked_wakes (core net.now).processes) }
{
    let processes = net.processes();
    let mut lists = Lists::new(alloc)?;
    for number in 0..processes.len() {
        if clocked[number] {
            lists.push(processes[number].wakes.as_slice())?;
        } else {
            lists.push(&[])?;
        }
    }
    Ok(lists)
}
