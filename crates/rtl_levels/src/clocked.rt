//! The clocked processes of a moment.

ghost use Rattle.std.specs.Prelude.{◌≡◌, ◌<◌, ⊤, ℕ, Bool, false, length, slice_index_or, All, IsTrue, List};
ghost use Rattle.rtl_model.specs.simulation.Range.{IsValuation};
ghost use Rattle.rtl_kernel.specs.wakes.Woken.{wakers_of};
ghost use Rattle.rtl_net.specs.Core.{core};
ghost use Rattle.rtl_levels.specs.Kept.{AreRunsOf, AreSensitive, IsPlanned, IsStateOf, MayRun, entries_of};
ghost use Rattle.rtl_levels.specs.Marks.{HasNoMark};
ghost use Rattle.rtl_levels.specs.States.{Advances};
ghost use Rattle.rtl_levels.specs.Steps.{AllTakeOver, AreRunning, HaveRun, SomeTakeOver};

use crate::entries::take_over;
use crate::marks::readers_of;
use crate::running::run;
use crate::schedule::Schedule;
use crate::state::State;
use rtl_awaited_edges::{Look, look_at};
use rtl_drives::Drives;
use rtl_eval::Exec;
use rtl_net::Net;
use vhdl_values::Nine;

/// In how large a netlist the next process is brought from memory while one runs. What a smaller
/// one has is near anyway.
const AHEAD: usize = 1_024;

/// Runs the marked processes, each of which is sensitive to a net of these changes, once each, and
/// takes their marks off. Those that would assign nothing since the edge that they act at isn't
/// there don't run; the others are put down in `ran`. Nothing is taken over, so each of them reads
/// what was there before any of them ran. Besides the runs it takes time for the processes that are
/// sensitive to these nets, and for no others.
pub fn run_marked<E: Exec>(
    net: &Net,
    bodies: &[E],
    schedule: &Schedule,
    changes: &[(usize, Nine)],
    marked: &mut Vec<bool>,
    ran: &mut Vec<bool>,
    before: &[u8],
    values: &[u8],
    runs: &mut Vec<Drives>,
    ahead: &mut usize,
)
    requires may { MayRun E.process E.types E.most net.now bodies.now runs.old.items }
    requires planned { IsPlanned (core net.now) schedule.now }
    requires sensitive { AreSensitive (wakers_of schedule.now.clocked) changes.now marked.old.items }
    requires before { IsValuation (core net.now) before.now }
    requires values { IsValuation (core net.now) values.now }
    requires each_process { length marked.old.items ≡ length (core net.now).processes }
    requires each_ran { length ran.old.items ≡ length marked.old.items }
    requires none_ran { HasNoMark ran.old.items }
    ensures may { MayRun E.process E.types E.most net.now bodies.now runs.new.items }
    ensures each_process { length marked.new.items ≡ length marked.old.items }
    ensures each_ran { length ran.new.items ≡ length ran.old.items }
    ensures none_marked { HasNoMark marked.new.items }
    ensures ran { HaveRun (core net.now) before.now values.now marked.old.items ran.new.items
        (entries_of runs.new.items) }
{
    for (changed, _value) in changes {
        let processes = readers_of(&schedule.clocked, *changed);
        run_each(
            net, bodies, schedule, processes, marked, ran, before, values, runs, ahead,
        );
    }
}

/// The same of these processes.
#[inline(always)]
fn run_each<E: Exec>(
    net: &Net,
    bodies: &[E],
    schedule: &Schedule,
    processes: &[usize],
    marked: &mut Vec<bool>,
    ran: &mut Vec<bool>,
    before: &[u8],
    values: &[u8],
    runs: &mut Vec<Drives>,
    ahead: &mut usize,
)
    requires may { MayRun E.process E.types E.most net.now bodies.now runs.old.items }
    requires planned { IsPlanned (core net.now) schedule.now }
    requires there { All (λ p. p < length marked.old.items) processes.now }
    requires before { IsValuation (core net.now) before.now }
    requires values { IsValuation (core net.now) values.now }
    requires each_process { length marked.old.items ≡ length (core net.now).processes }
    requires each_ran { length ran.old.items ≡ length marked.old.items }
    ensures may { MayRun E.process E.types E.most net.now bodies.now runs.new.items }
    ensures each_process { length marked.new.items ≡ length marked.old.items }
    ensures each_ran { length ran.new.items ≡ length ran.old.items }
    ensures off { All (λ p. slice_index_or marked.new.items p false ≡ false) processes.now }
    ensures fewer { (p : ℕ) → IsTrue (slice_index_or marked.new.items p false)
        → IsTrue (slice_index_or marked.old.items p false) }
    ensures running { (first : List Bool)
        → AreRunning (core net.now) before.now values.now first marked.old.items ran.old.items
        (entries_of runs.old.items)
        → AreRunning (core net.now) before.now values.now first marked.new.items ran.new.items
        (entries_of runs.new.items) }
{
    let mut seen = Look {
        leader: schedule.edges.len(),
        asleep: false,
    };
    for place in 0..processes.len() {
        let process = processes[place];
        if marked[process] {
            marked[process] = false;
            let leader = schedule.leaders[process];
            seen = look_at(seen, &schedule.edges, leader, before, values);
            if !seen.asleep {
                ran[process] = true;
                look_ahead(bodies, runs, processes, place + 1, ahead);
                run(net, bodies, process, before, values, runs);
            }
        }
    }
}

/// Reads of a process that may run next, so that it comes from memory meanwhile. Nothing asks for
/// what is read.
fn look_ahead<E: Exec>(
    bodies: &[E],
    runs: &[Drives],
    processes: &[usize],
    place: usize,
    ahead: &mut usize,
) {
    if runs.len() > AHEAD && place < processes.len() {
        let next = processes[place];
        if next < runs.len() && next < bodies.len() {
            *ahead = bodies[next].room() ^ runs[next].room();
        }
    }
}

/// Takes over what the marked processes have assigned, each of which is sensitive to a net of these
/// changes, and takes their marks off. It takes time for the processes that are sensitive to these
/// nets, and for no others.
pub fn take_marked(
    net: &Net,
    runs: &[Drives],
    schedule: &Schedule,
    changes: &[(usize, Nine)],
    marked: &mut Vec<bool>,
    state: &mut State,
)
    requires planned { IsPlanned (core net.now) schedule.now }
    requires runs { AreRunsOf net.now marked.old.items runs.now }
    requires sensitive { AreSensitive (wakers_of schedule.now.clocked) changes.now marked.old.items }
    requires state { IsStateOf (core net.now) schedule.now state.old }
    ensures taken { AllTakeOver (core net.now) marked.old.items (entries_of runs.now)
        state.old.values.items state.new.values.items }
    ensures state { IsStateOf (core net.now) schedule.now state.new }
    ensures advances { Advances schedule.now.readers (λ _. ⊤) state.old state.new }
    ensures each_process { length marked.new.items ≡ length marked.old.items }
    ensures none_marked { HasNoMark marked.new.items }
{
    for (changed, _value) in changes {
        let processes = readers_of(&schedule.clocked, *changed);
        take_each(net, runs, schedule, processes, marked, state);
    }
}

/// The same of these processes.
#[inline(always)]
fn take_each(
    net: &Net,
    runs: &[Drives],
    schedule: &Schedule,
    processes: &[usize],
    marked: &mut Vec<bool>,
    state: &mut State,
)
    requires planned { IsPlanned (core net.now) schedule.now }
    requires runs { AreRunsOf net.now marked.old.items runs.now }
    requires there { All (λ p. p < length marked.old.items) processes.now }
    requires state { IsStateOf (core net.now) schedule.now state.old }
    ensures taken { SomeTakeOver (core net.now) marked.old.items marked.new.items (entries_of runs.now)
        state.old.values.items state.new.values.items }
    ensures off { All (λ p. slice_index_or marked.new.items p false ≡ false) processes.now }
    ensures state { IsStateOf (core net.now) schedule.now state.new }
    ensures advances { Advances schedule.now.readers (λ _. ⊤) state.old state.new }
{
    for process in processes {
        if marked[*process] {
            marked[*process] = false;
            take_over(net, schedule, *process, &runs[*process], state);
        }
    }
}
