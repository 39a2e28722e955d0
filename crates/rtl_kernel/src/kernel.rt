//! The kernel.

ghost use Rattle.std.specs.Prelude.{◌≡◌, ◌<◌, ◌≤◌, ℕ, List, All, length, slice_index, Contains, IfOk, MatchResult};
ghost use Rattle.std.specs.Prelude.{IsTrue, true};
ghost use Rattle.std.specs.List.{count_by};
ghost use Rattle.rtl_model.specs.nets.CoreNetlist.{core_netlist};
ghost use Rattle.rtl_model.specs.simulation.Cycle.{start_state, after_inputs, after_update, after_run, with_changes};
ghost use Rattle.rtl_model.specs.simulation.Cycle.{is_quiet};
ghost use Rattle.rtl_model.specs.simulation.Moments.{HasNoneToRun, HasRun, Delta, SettlesTo, IsUnsettled};
ghost use Rattle.rtl_awaited_edges.specs.Awaiting.{IsAsleep, first_edge};
ghost use Rattle.rtl_net.specs.Nets.{flat};
ghost use Rattle.rtl_kernel.specs.kernel.Simulation.{changes_of, initial_inputs};
ghost use Rattle.rtl_kernel.specs.kernel.Kept.{RunBodies};
ghost use Rattle.rtl_kernel.specs.kernel.Picked.{IsAt, HasRunAsPicked, HasDeltasAsPicked};
ghost use Rattle.rtl_net_groups.specs.Touching.{Touches};

use crate::both::both;
use crate::cutting::driver_cuts;
use crate::drivers::Drivers;
use crate::nets::Nets;
use crate::pick::Pick;
use crate::resumed::Resumed;
use drops::take_apart;
use rtl_awaited_edges::{ClockEdge, first_awaited, is_asleep};
use rtl_eval::Exec;
use rtl_net::Net;
use rtl_net_groups::{Cuts, Touched};
use std::alloc::{AllocError, Global};
use std::marker::Model;
use vhdl_values::Nine;

/// A simulation of a netlist. What a cycle costs goes by the drivers, nets and processes that it
/// touches; `new` takes all memory, and no other call takes any.
pub struct Kernel<'a, E: Exec> {
    bodies: &'a [E],
    nets: Nets<'a>,
    cuts: Cuts,
    drivers: Drivers,
    resumed: Resumed,
    /// The first edge that a process awaits, and for each process whether it awaits that one.
    awaited: Option<ClockEdge>,
    await_it: Vec<bool>,
    /// What was read of the process that is to run next: so it comes from memory while the present
    /// one runs. Nothing asks for it.
    ahead: usize,
}

impl<E: Exec> Drop for Kernel<'_, E> {
    fn drop(self) {
        take_apart!(self: { bodies, nets, cuts, drivers, resumed, awaited, await_it, ahead });
    }
}

/// After each number of delta cycles up to the limit a driver is active.
#[derive(Clone, Copy)]
pub struct NoSettling;

impl<'a, E: Exec> Model for Kernel<'a, E> {
    ghost use Rattle.rtl_kernel.specs.kernel.Simulation.{Simulation};
    ghost use Rattle.rtl_net.specs.contracts.process.Process as process_contract;
    ghost use Rattle.std.specs.Coded.{codes};

    ghost Value = { Simulation };

    ghost coded = { Prim.hlevel (codes, process_contract.the_row.coded) };

    ghost use Rattle.rtl_kernel.specs.kernel.Kept.{IsKernel, state_of};

    ghost view = { λ k. record { net = k.nets.net; state = state_of k.nets.values k.drivers k.resumed } };

    ghost invariant = { λ k. IsKernel E.process E.types E.most k.bodies.now (record {
      nets = k.nets;
      cuts = k.cuts;
      drivers = k.drivers;
      resumed = k.resumed;
      awaited = k.awaited;
      await_it = k.await_it.items;
    }) };
}

impl<'a, E: Exec> Kernel<'a, E> {
    /// A simulation that is to be started: of this netlist, whose k-th process the k-th body runs,
    /// with a value for each of the netlist's inputs, in their order.
    pub fn new(
        alloc: Global,
        net: &'a Net,
        bodies: &'a [E],
        initial: &[Nine],
    ) -> Result<Kernel<'a, E>, AllocError>
        requires bodies { RunBodies E.process E.types (flat net.now) bodies.now }
        requires initial { length initial.now ≡ length net.now.inputs }
        ensures { IfOk result (λ k. k ≡ record {
          net = net.now;
          state = start_state (core_netlist (flat net.now)) (initial_inputs (flat net.now) initial.now);
        }) }
    {
        net.is_elaborated();
        let processes = net.processes();
        let nets = Nets::new(alloc, net, initial)?;
        let cuts = driver_cuts(alloc, nets.values().groups().of_net(), processes);
        let drivers = Drivers::new(alloc, processes, bodies);
        let resumed = Resumed::all(alloc, processes.len());
        let parts = both(cuts, drivers);
        let waits = both(resumed, first_awaited(alloc, net));
        let ((cuts, drivers), (resumed, (awaited, await_it))) = both(parts, waits)?;
        Ok(Kernel {
            bodies,
            nets,
            cuts,
            drivers,
            resumed,
            awaited,
            await_it,
            ahead: 0,
        })
    }

    /// The value of a net now: the code of one of the nine values, or the position of a literal.
    pub fn value(&self, net: usize) -> u8
        requires { net < length self.now.net.types }
        ensures { result ≡ slice_index self.entry.now.state.now net }
    {
        self.nets.values().now()[net]
    }

    /// The values of all nets now, as codes, by the nets' numbers.
    pub fn values(&self) -> &[u8]
        ensures value { result.now ≡ self.now.state.now }
        ensures as_many { length result.now ≡ length self.now.net.types }
    {
        self.nets.values().now()
    }

    /// The values of all nets before the last update, as codes, by the nets' numbers.
    pub fn before(&self) -> &[u8]
        ensures value { result.now ≡ self.now.state.before }
        ensures as_many { length result.now ≡ length self.now.net.types }
    {
        self.nets.values().before()
    }

    /// Marks the chunks of the nets that may have an event: in time that goes by the groups of
    /// those that have one.
    pub fn mark_changed(&self, touched: &mut Touched)
        requires { touched.old.nets ≡ length self.now.net.types }
        ensures { Touches touched.old touched.new self.now.state.before self.now.state.now }
    {
        let values = self.nets.values();
        let groups = values.groups();
        let changed = values.changed().groups;
        for group in changed {
            touched.mark_run(groups.first(*group), groups.end(*group));
        }
    }

    /// Whether no driver is active.
    pub fn is_quiet(&self) -> bool
        ensures { result ≡ is_quiet self.entry.now.state }
    {
        self.drivers.is_quiet()
    }

    /// Initialization (IEEE 1076-2008, 14.7.5.2): each process that is to run has its turn, in the
    /// order that the picker answers; straight behind `new` that is each. The body of one that is
    /// asleep isn't called, since it would assign nothing: the state is as if it had run.
    pub fn start<P: Pick>(&mut self, pick: &mut P)
        ensures net { self.new.net ≡ self.old.net }
        ensures ran { HasRun (core_netlist (flat self.old.net)) self.old.state self.new.state }
        ensures picked { HasRunAsPicked P.picks (core_netlist (flat self.old.net))
            pick.old pick.new self.old.state self.new.state }
    {
        self.run_all(pick);
    }

    /// A cycle in which some in ports of the top get new values (14.7.5.3). Before it no driver is
    /// active, and no process is to run.
    pub fn apply<P: Pick>(&mut self, changes: &[(usize, Nine)], pick: &mut P)
        requires inputs { All (λ c. Contains self.old.net.inputs c.0) changes.now }
        requires ready { HasNoneToRun self.old.state }
        requires quiet { IsTrue (is_quiet self.old.state) }
        ensures net { self.new.net ≡ self.old.net }
        ensures ran { HasRun (core_netlist (flat self.old.net))
            (after_inputs (core_netlist (flat self.old.net)) (with_changes (changes_of changes.now) self.old.state.now)
            self.old.state) self.new.state }
        ensures picked { HasRunAsPicked P.picks (core_netlist (flat self.old.net)) pick.old pick.new
            (after_inputs (core_netlist (flat self.old.net)) (with_changes (changes_of changes.now) self.old.state.now)
            self.old.state) self.new.state }
    {
        self.change(changes);
        self.run_all(pick);
    }

    /// A delta cycle (14.7.5.3).
    pub fn cycle<P: Pick>(&mut self, pick: &mut P)
        requires ready { HasNoneToRun self.old.state }
        ensures net { self.new.net ≡ self.old.net }
        ensures delta { (order : List ℕ) × Delta (core_netlist (flat self.old.net))
            order self.old.state self.new.state }
        ensures ready { HasNoneToRun self.new.state }
        ensures picked { HasRunAsPicked P.picks (core_netlist (flat self.old.net)) pick.old pick.new
            (after_update (core_netlist (flat self.old.net)) self.old.state) self.new.state }
    {
        self.update();
        self.run_all(pick);
    }

    /// Delta cycles until no driver is active, at most as many as the limit. Before them no process
    /// is to run. The answer is how many there were; where the limit doesn't suffice, the state is
    /// the one behind it.
    pub fn settle<P: Pick>(&mut self, limit: u32, pick: &mut P) -> Result<u32, NoSettling>
        requires ready { HasNoneToRun self.old.state }
        ensures net { self.new.net ≡ self.old.net }
        ensures ready { HasNoneToRun self.new.state }
        ensures settled { MatchResult result
            (λ deltas. SettlesTo (core_netlist (flat self.old.net)) self.old.state deltas self.new.state
            × (deltas ≤ limit))
            (λ _. IsUnsettled (core_netlist (flat self.old.net)) self.old.state limit self.new.state) }
        ensures picked { MatchResult result
            (λ deltas. HasDeltasAsPicked P.picks (core_netlist (flat self.old.net))
            deltas pick.old pick.new self.old.state self.new.state)
            (λ _. HasDeltasAsPicked P.picks (core_netlist (flat self.old.net))
            limit pick.old pick.new self.old.state self.new.state) }
    {
        for deltas in 0..limit {
            if self.is_quiet() {
                return Ok(deltas);
            }
            self.cycle(pick);
        }
        if self.is_quiet() {
            Ok(limit)
        } else {
            Err(NoSettling)
        }
    }

    /// Runs one of the processes that are to run: `place` is its place among them, in order of
    /// number. One that would assign nothing, since the edge that it awaits isn't there, is only
    /// taken off their list. The next one is brought from memory meanwhile.
    #[inline(always)]
    fn run_one(&mut self, place: usize, asleep: bool)
        requires place { place < count_by (λ b. b) self.old.state.waiting }
        requires asleep { asleep ≡ true → IsAsleep (first_edge (core_netlist (flat self.old.net)).processes)
            self.old.state.before self.old.state.now }
        ensures net { self.new.net ≡ self.old.net }
        ensures ran { (process : ℕ) × IsAt self.old.state.waiting place process
            × (self.new.state ≡ after_run (core_netlist (flat self.old.net)) process self.old.state) }
    {
        let process = self.resumed.take(place);
        if asleep && self.await_it[process] {
            return;
        }
        let bodies = self.bodies;
        self.ahead = self.resumed.look_ahead(bodies, &self.drivers);
        let values = self.nets.values();
        let body = &bodies[process];
        self.drivers
            .run(process, body, values.now(), values.before());
    }

    /// Runs all processes that are to run.
    fn run_all<P: Pick>(&mut self, pick: &mut P)
        ensures net { self.new.net ≡ self.old.net }
        ensures ran { HasRun (core_netlist (flat self.old.net)) self.old.state self.new.state }
        ensures picked { HasRunAsPicked P.picks (core_netlist (flat self.old.net))
            pick.old pick.new self.old.state self.new.state }
    {
        let values = self.nets.values();
        let asleep = is_asleep(self.awaited, values.before(), values.now());
        let mut left = self.resumed.len();
        while left > 0 {
            let place = pick.pick(left);
            self.run_one(place, asleep);
            left = self.resumed.len();
        }
    }

    /// Gives all active drivers and their nets their new values, and resumes the processes that
    /// wake.
    fn update(&mut self)
        requires ready { HasNoneToRun self.old.state }
        ensures net { self.new.net ≡ self.old.net }
        ensures state { self.new.state ≡ after_update (core_netlist (flat self.old.net)) self.old.state }
    {
        self.nets.begin();
        self.drivers.update(&self.cuts, &mut self.nets);
        self.nets.resolve(self.drivers.values());
        self.resumed.resume(self.nets.values());
    }

    /// Gives in ports new values, and resumes the processes that wake.
    fn change(&mut self, changes: &[(usize, Nine)])
        requires inputs { All (λ c. Contains self.old.net.inputs c.0) changes.now }
        requires ready { HasNoneToRun self.old.state }
        requires quiet { IsTrue (is_quiet self.old.state) }
        ensures net { self.new.net ≡ self.old.net }
        ensures state { self.new.state ≡ after_inputs (core_netlist (flat self.old.net))
            (with_changes (changes_of changes.now) self.old.state.now) self.old.state }
    {
        self.nets.give(changes);
        self.resumed.resume(self.nets.values());
    }
}
