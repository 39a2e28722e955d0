//! Simulations by levels.

ghost use Rattle.std.specs.Prelude.{IfErr, IfOk, map};
ghost use Rattle.rtl_net.specs.Core.{core};
ghost use Rattle.rtl_net.specs.Nets.{signal_view};
ghost use Rattle.rtl_run.specs.Admitted.{AreMachineLevels};
ghost use Rattle.rtl_run.specs.Beginnings.{IsReady};
ghost use Rattle.rtl_run.specs.Watched.{IsToldRun, IsToldRunFirst};
ghost use Rattle.rtl_run.specs.levels.Answered.{TracesLevels};

use crate::fault::{MachineFault, settled_fault};
use crate::laws::accepted_nets_are_synchronous;
use crate::level_engine::LevelEngine;
use crate::level_summary::LevelSummary;
use crate::machine_levels::{MachineLevels, first_machine};
use byte_streams::{Sink, Watch};
use rtl_eval::Exec;
use rtl_net::Shown;
use rtl_simulation::Course;
use rtl_stim::{Agenda, Stimulus};
use std::alloc::Global;

/// What is simulated: an accepted netlist, whose k-th process has the k-th body, by its levels,
/// under a stimulus without a race, with the bound of its report; and the signals that the trace
/// shows.
#[derive(Drop)]
pub struct Stepping<'a, E: Exec> {
    pub shown: Shown<'a>,
    pub bodies: &'a [E],
    pub levels: &'a MachineLevels,
    pub stimulus: &'a Stimulus,
    pub bound: u32,
}

impl<E: Exec> Stepping<'_, E> {
    /// Simulates from 0 to the stimulus's stop, and writes the trace. The agenda is new: nothing
    /// waits in it. The watch is told the machine's valuation at each moment, once the time of the
    /// next one is known, until which it stands.
    ///
    /// It takes the machine's memory, the agenda's, that of the names' blocks, and a byte for each
    /// net.
    ///
    /// # Errors
    ///
    /// `Memory` and `Output`, which leave a beginning of the trace.
    pub fn trace<A: Agenda, V: Watch, W: Sink>(
        &self,
        alloc: Global,
        agenda: &mut A,
        watch: &mut V,
        out: &mut W,
    ) -> Result<LevelSummary, MachineFault>
        requires levels { AreMachineLevels (core self.now.shown.net.now) self.now.levels.now }
        requires ready { IsReady E.process E.types self.now.shown.net.now self.now.bodies.now self.now.stimulus.now
            self.now.bound (A.state agenda.old) (W.state out.old) }
        ensures traces { TracesLevels self.now.shown.net.now (map signal_view self.now.shown.signals.now)
            self.now.stimulus.now self.now.bound (W.state out.old) (W.state out.new) result }
        ensures told { IfOk result (λ _. IsToldRun self.now.shown.net.now self.now.stimulus.now self.now.bound
            (λ stands. V.told watch.old stands watch.new)) }
        ensures failing { IfErr result (λ _. IsToldRunFirst self.now.shown.net.now self.now.stimulus.now self.now.bound
            (λ stands. V.told watch.old stands watch.new)) }
    {
        accepted_nets_are_synchronous();
        self.shown.net.is_elaborated();
        let initial = self.stimulus.initial();
        let machine = first_machine(alloc, self.shown.net, self.bodies, self.levels, initial)?;
        let mut engine = LevelEngine { machine };
        let course = Course {
            shown: self.shown,
            stimulus: self.stimulus,
            limit: self.bound,
        };
        match course.trace(alloc, &mut engine, agenda, watch, out) {
            Ok(moments) => Ok(LevelSummary {
                moments,
                bound: self.bound,
            }),
            Err(fault) => Err(settled_fault(fault)),
        }
    }
}
