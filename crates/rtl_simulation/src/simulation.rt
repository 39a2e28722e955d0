//! Simulations by events.

ghost use Rattle.std.specs.Prelude.{◌≡◌, [], None, IfErr, IfOk, map};
ghost use Rattle.rtl_kernel.specs.kernel.Kept.{RunBodies};
ghost use Rattle.rtl_net.specs.Nets.{flat, signal_view};
ghost use Rattle.byte_streams.specs.Written.{IsIntact};
ghost use Rattle.rtl_stim.specs.Ports.{HasOwnPorts, inputs_of};
ghost use Rattle.rtl_simulation.specs.Answered.{Answers};
ghost use Rattle.rtl_simulation.specs.Watched.{IsToldAll, WasTold};

use crate::course::Course;
use crate::event_engine::EventEngine;
use crate::summary::{RunFault, Summary};
use byte_streams::{Sink, Watch};
use rtl_eval::Exec;
use rtl_kernel::Pick;
use rtl_net::Shown;
use rtl_stim::{Agenda, Stimulus};
use std::alloc::Global;

/// What is simulated: a netlist, whose k-th process the k-th body runs, under a stimulus, with so
/// many delta cycles at most in each moment; and the signals that the trace shows.
#[derive(Drop)]
pub struct Simulation<'a, E: Exec> {
    pub shown: Shown<'a>,
    pub bodies: &'a [E],
    pub stimulus: &'a Stimulus,
    pub limit: u32,
}

impl<E: Exec> Simulation<'_, E> {
    /// Simulates from 0 to the stimulus's stop, and writes the trace. The agenda is new: nothing
    /// waits in it. The watch is told what each moment settles to, once the time of the next moment
    /// is known, until which it stands; and where a moment doesn't settle, the values before the
    /// last delta cycle allowed and after it.
    ///
    /// It takes the kernel's memory, the agenda's, that of the names' blocks, a byte for each net,
    /// and one for each 256.
    ///
    /// # Errors
    ///
    /// `NoSettling` with the first moment that doesn't settle within the limit: the trace of those
    /// before it went out. `Memory` and `Output` leave a beginning of the trace.
    pub fn run_watched<A: Agenda, P: Pick, V: Watch, W: Sink>(
        &self,
        alloc: Global,
        agenda: &mut A,
        pick: &mut P,
        watch: &mut V,
        out: &mut W,
    ) -> Result<Summary, RunFault>
        requires bodies { RunBodies E.process E.types (flat self.now.shown.net.now) self.now.bodies.now }
        requires ports { HasOwnPorts self.now.shown.net.now }
        requires inputs { self.now.stimulus.now.inputs ≡ inputs_of self.now.shown.net.now }
        requires waiting { (A.state agenda.old).waiting ≡ [] }
        requires last { (A.state agenda.old).last ≡ None }
        requires intact { IsIntact (W.state out.old) }
        ensures answers { Answers self.now.shown.net.now (map signal_view self.now.shown.signals.now)
            self.now.stimulus.now self.now.limit (W.state out.old) (W.state out.new) result }
        ensures told { IfOk result (λ _. IsToldAll self.now.shown.net.now self.now.stimulus.now
            (λ stands. V.told watch.old stands watch.new)) }
        ensures failing { IfErr result (λ fault. WasTold self.now.shown.net.now self.now.stimulus.now self.now.limit
            (λ stands. V.told watch.old stands watch.new)
            (λ stands before now time. V.stuck watch.old stands before now time watch.new) fault) }
    {
        let course = Course {
            shown: self.shown,
            stimulus: self.stimulus,
            limit: self.limit,
        };
        let mut engine = EventEngine::new(alloc, &course, self.bodies, pick)?;
        let moments = course.trace(alloc, &mut engine, agenda, watch, out)?;
        Ok(Summary {
            moments,
            most_deltas: engine.most,
        })
    }
}
