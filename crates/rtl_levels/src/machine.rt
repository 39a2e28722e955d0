//! The machine.

ghost use Rattle.std.specs.Prelude.{◌≡◌, ℕ, All, length, slice_index, Contains, IfOk};
ghost use Rattle.rtl_model.specs.simulation.Accepted.{IsAccepted, IsByNets};
ghost use Rattle.rtl_model.specs.simulation.Cycle.{with_changes};
ghost use Rattle.rtl_model.specs.simulation.Levels.{AreLevels};
ghost use Rattle.rtl_model.specs.simulation.Machine.{IsFirst, IsStep};
ghost use Rattle.rtl_model.specs.simulation.Races.{IsRace};
ghost use Rattle.rtl_model.specs.simulation.Range.{IsValuation};
ghost use Rattle.rtl_kernel.specs.kernel.Kept.{RunBodies};
ghost use Rattle.rtl_kernel.specs.kernel.Simulation.{changes_of, initial_inputs};
ghost use Rattle.rtl_kernel.specs.wakes.Woken.{wakers_of};
ghost use Rattle.rtl_net.specs.Nets.{flat};
ghost use Rattle.rtl_net.specs.Core.{core};
ghost use Rattle.rtl_net_groups.specs.Touching.{KeepsLeft, Touches};
ghost use Rattle.rtl_levels.specs.Kept.{AreSensitive, AreSettledOrToCome, IsPlanned, IsStateOf, MayRun};
ghost use Rattle.rtl_levels.specs.Marks.{HasNoMark};
ghost use Rattle.rtl_levels.specs.Steps.{ComesToRest};
ghost use Rattle.rtl_levels.specs.Visits.{AreNetLevels};

use crate::clocked::{run_marked, take_marked};
use crate::clocking::clocked_processes;
use crate::inputs::{changes_to, set_inputs, take_inputs};
use crate::levels::levels_of_nets;
use crate::schedule::Schedule;
use crate::state::State;
use crate::sweep::sweep;
use drops::take_apart;
use rtl_drives::Drives;
use rtl_eval::Exec;
use rtl_kernel::{fresh_outcomes, starting_codes};
use rtl_net::Net;
use rtl_net_groups::Touched;
use rtl_process_kinds::kinds_of;
use std::alloc::{AllocError, Global};
use std::marker::Model;
use vhdl_values::Nine;

/// The synchronous machine of an accepted netlist, at a moment at which it has settled. A step runs
/// the clocked processes that are sensitive to what changes, with the new inputs and before
/// anything else changes, and then visits, in order of levels, each combinational process of which
/// something that it is sensitive to changes, and each clocked one whose reset does, where a
/// process drives that: at the first level of the nets that it drives above that of what changes,
/// if one is above. A visit sees no event, so of a clocked process it takes its reset's branch
/// alone. `new` and `leveled` take all memory, and no other call takes any.
pub struct Machine<'a, E: Exec> {
    net: &'a Net,
    bodies: &'a [E],
    schedule: Schedule,
    /// At the inputs, the values before the step under way, and between steps those of now: all
    /// that an edge looks at. At other nets it says nothing.
    before: Vec<u8>,
    state: State,
    runs: Vec<Drives>,
    /// The clocked processes that are to run, by number.
    woken: Vec<bool>,
    /// Those that have run, until what they assign is taken over.
    ran: Vec<bool>,
    /// What was read of the clocked process that may run next. Nothing asks for it.
    ahead: usize,
}

impl<E: Exec> Drop for Machine<'_, E> {
    fn drop(self) {
        take_apart!(self: { net, bodies, schedule, before, state, runs, woken, ran, ahead });
    }
}

impl<'a, E: Exec> Model for Machine<'a, E> {
    ghost use Rattle.rtl_levels.specs.Machine.{MachineView};
    ghost use Rattle.rtl_net.specs.contracts.process.Process as process_contract;
    ghost use Rattle.std.specs.Coded.{codes};

    ghost Value = { MachineView };

    ghost coded = { Prim.hlevel (codes, process_contract.the_row.coded) };

    ghost use Rattle.rtl_levels.specs.Kept.{IsMachine, MayRun};
    ghost use Rattle.rtl_net.specs.Core.{core};

    ghost view = { λ m. record { net = m.net.now; values = m.state.values.items; touched = m.state.touched } };

    ghost invariant = { λ m. MayRun E.process E.types E.most m.net.now m.bodies.now m.runs.items
        × IsMachine (core m.net.now) m.schedule m.before.items m.state m.woken.items m.ran.items };
}

impl<'a, E: Exec> Machine<'a, E> {
    /// The machine of an accepted netlist that is judged by processes, at its first moment. The
    /// k-th body runs the k-th process, and the k-th level is its level; there is a value for each
    /// of the netlist's inputs, in their order.
    pub fn new(
        alloc: Global,
        net: &'a Net,
        bodies: &'a [E],
        levels: &[Option<u32>],
        initial: &[Nine],
    ) -> Result<Machine<'a, E>, AllocError>
        requires accepted { IsAccepted (core net.now) }
        requires by_processes { IsByNets (core net.now) → ⊥ }
        requires levels { (greatest : ℕ) × AreLevels (core net.now) levels.now greatest }
        requires bodies { RunBodies E.process E.types (flat net.now) bodies.now }
        requires initial { length initial.now ≡ length net.now.inputs }
        ensures net { IfOk result (λ m. m.net ≡ net.now) }
        ensures first { IfOk result (λ m. IsFirst (core net.now) (initial_inputs (flat net.now) initial.now) m.values) }
    {
        let nets = levels_of_nets(alloc, net, levels)?;
        Machine::leveled(alloc, net, bodies, &nets, initial)
    }

    /// The same of any accepted netlist, by these levels of its nets.
    pub fn leveled(
        alloc: Global,
        net: &'a Net,
        bodies: &'a [E],
        nets: &[u32],
        initial: &[Nine],
    ) -> Result<Machine<'a, E>, AllocError>
        requires accepted { IsAccepted (core net.now) }
        requires nets { AreNetLevels (core net.now) nets.now }
        requires bodies { RunBodies E.process E.types (flat net.now) bodies.now }
        requires initial { length initial.now ≡ length net.now.inputs }
        ensures net { IfOk result (λ m. m.net ≡ net.now) }
        ensures first { IfOk result (λ m. IsFirst (core net.now) (initial_inputs (flat net.now) initial.now) m.values) }
    {
        net.is_elaborated();
        let mut values = starting_codes(alloc, net)?;
        let changes = changes_to(alloc, net.inputs(), initial)?;
        set_inputs(&changes, &mut values);
        let before = Vec::from_slice(alloc, &values)?;
        let kinds = kinds_of(alloc, net)?;
        let mut woken = clocked_processes(alloc, &kinds)?;
        let schedule = Schedule::new(alloc, net, &kinds, &woken, nets)?;
        let mut runs = fresh_outcomes(alloc, net.processes(), bodies)?;
        let mut state = State::new(alloc, values, &schedule.visits)?;
        let mut ran = vec![in alloc; false; woken.len()]?;
        let mut ahead = 0;
        come_to_rest(
            net, bodies, &schedule, &changes, &before, &mut runs, &mut woken, &mut ran, &mut state,
            &mut ahead,
        );
        Ok(Machine {
            net,
            bodies,
            schedule,
            before,
            state,
            runs,
            woken,
            ran,
            ahead,
        })
    }

    /// The values of all nets at this moment, as codes, by the nets' numbers.
    pub fn values(&self) -> &[u8]
        ensures value { result.now ≡ self.now.values }
        ensures as_many { length result.now ≡ length self.now.net.types }
    {
        self.state.values.as_slice()
    }

    /// The chunks of nets that the last step may have changed.
    pub fn touched(&self) -> &Touched
        ensures value { result.now ≡ self.now.touched }
        ensures nets { result.now.nets ≡ length self.now.values }
    {
        &self.state.touched
    }

    /// The next moment, at which inputs get new values. It asks that no data input changes at an
    /// active clock edge.
    pub fn step(&mut self, changes: &[(usize, Nine)])
        requires inputs { All (λ c. Contains self.old.net.inputs c.0) changes.now }
        requires raceless { IsRace (core self.old.net) (slice_index self.old.values)
            (with_changes (changes_of changes.now) self.old.values) → ⊥ }
        ensures net { self.new.net ≡ self.old.net }
        ensures step { IsStep (core self.old.net) self.old.values
            (with_changes (changes_of changes.now) self.old.values) self.new.values }
        ensures touched { KeepsLeft self.new.touched self.old.values self.new.values }
    {
        self.state.touched.forget();
        take_inputs(&self.schedule, changes, &mut self.woken, &mut self.state);
        come_to_rest(
            self.net,
            self.bodies,
            &self.schedule,
            changes,
            &self.before,
            &mut self.runs,
            &mut self.woken,
            &mut self.ran,
            &mut self.state,
            &mut self.ahead,
        );
        set_inputs(changes, &mut self.before);
    }
}

/// Runs the woken clocked processes together, each of which is sensitive to a net that changes;
/// then makes the visits that are dirty or get dirty.
fn come_to_rest<E: Exec>(
    net: &Net,
    bodies: &[E],
    schedule: &Schedule,
    changes: &[(usize, Nine)],
    before: &[u8],
    runs: &mut Vec<Drives>,
    woken: &mut Vec<bool>,
    ran: &mut Vec<bool>,
    state: &mut State,
    ahead: &mut usize,
)
    requires may { MayRun E.process E.types E.most net.now bodies.now runs.old.items }
    requires planned { IsPlanned (core net.now) schedule.now }
    requires sensitive { AreSensitive (wakers_of schedule.now.clocked) changes.now woken.old.items }
    requires each_process { length woken.old.items ≡ length (core net.now).processes }
    requires each_ran { length ran.old.items ≡ length woken.old.items }
    requires none_ran { HasNoMark ran.old.items }
    requires before { IsValuation (core net.now) before.now }
    requires state { IsStateOf (core net.now) schedule.now state.old }
    requires settled { AreSettledOrToCome (core net.now) schedule.now 0 state.old }
    ensures may { MayRun E.process E.types E.most net.now bodies.now runs.new.items }
    ensures state { IsStateOf (core net.now) schedule.now state.new }
    ensures rest { ComesToRest (core net.now) woken.old.items before.now
        state.old.values.items state.new.values.items }
    ensures touched { Touches state.old.touched state.new.touched state.old.values.items state.new.values.items }
    ensures each_process { length woken.new.items ≡ length woken.old.items }
    ensures each_ran { length ran.new.items ≡ length ran.old.items }
    ensures none_woken { HasNoMark woken.new.items }
    ensures none_ran { HasNoMark ran.new.items }
    ensures none_dirty { HasNoMark state.new.dirty.items }
{
    run_marked(
        net,
        bodies,
        schedule,
        changes,
        woken,
        ran,
        before,
        &state.values,
        runs,
        ahead,
    );
    take_marked(net, runs, schedule, changes, ran, state);
    sweep(net, bodies, schedule, runs, state);
}
