//! The engine that simulates by events.

ghost use Rattle.std.specs.Prelude.{◌≡◌, ◌≤◌, length, IfOk, IfErr, MatchResult};
ghost use Rattle.rtl_model.specs.simulation.Moments.{HasNoneToRun, IsUnsettled, SettlesTo};
ghost use Rattle.rtl_kernel.specs.kernel.Kept.{RunBodies};
ghost use Rattle.rtl_net.specs.Core.{core};
ghost use Rattle.rtl_net.specs.Nets.{flat};
ghost use Rattle.rtl_net_groups.specs.Touching.{Touches};
ghost use Rattle.rtl_stim.specs.Ports.{HasOwnPorts, inputs_of};
ghost use Rattle.rtl_simulation.specs.declared.summary.RunFault.TheVariants.{NoSettling};
ghost use Rattle.rtl_simulation.specs.Engines.{KernelBegins, KernelSettled, TellsStuck, course_of};

use crate::course::Course;
use crate::engine::Engine;
use crate::summary::RunFault;
use byte_streams::Watch;
use rtl_eval::Exec;
use rtl_kernel::{Kernel, Pick};
use rtl_net_groups::Touched;
use std::alloc::{AllocError, Global};
use vhdl_values::Nine;

/// A kernel, which lets each moment settle in delta cycles, at most so many. `pick` picks the order
/// of processes within a cycle.
#[derive(Drop)]
pub struct EventEngine<'a, E: Exec, P: Pick> {
    kernel: Kernel<'a, E>,
    pick: &'a mut P,
    limit: u32,
    /// The chunks of the nets that may have changed since the last moment.
    touched: Touched,
    /// The greatest number of delta cycles that a moment took.
    pub most: u32,
}

impl<'a, E: Exec, P: Pick> EventEngine<'a, E, P> {
    /// An engine that is to begin the first moment. The k-th body runs the k-th process.
    ///
    /// It takes the kernel's memory, and a byte for each 256 nets.
    pub fn new(
        alloc: Global,
        course: &Course<'a>,
        bodies: &'a [E],
        pick: &'a mut P,
    ) -> Result<EventEngine<'a, E, P>, AllocError>
        requires bodies { RunBodies E.process E.types (flat course.now.shown.net.now) bodies.now }
        requires ports { HasOwnPorts course.now.shown.net.now }
        requires inputs { course.now.stimulus.now.inputs ≡ inputs_of course.now.shown.net.now }
        ensures { IfOk result (λ e. KernelBegins (course_of course.now) e.kernel e.limit e.touched) }
    {
        let net = course.shown.net;
        net.is_elaborated();
        let mut kernel = Kernel::new(alloc, net, bodies, course.stimulus.initial())?;
        kernel.start(pick);
        let touched = Touched::new(alloc, net.nets())?;
        Ok(EventEngine {
            kernel,
            pick,
            limit: course.limit,
            touched,
            most: 0,
        })
    }
}

impl<E: Exec, P: Pick> Engine for EventEngine<'_, E, P> {
    ghost has_begun = { λ e r. KernelBegins r e.kernel e.limit e.touched };

    ghost is_at = { λ e r m. KernelSettled r m e.kernel e.limit e.touched e.most };

    ghost valuation = { λ e. e.kernel.state.now };

    ghost chunks = { λ e. e.touched };

    fn values(&self) -> &[u8] {
        self.kernel.values()
    }

    fn touched(&self) -> &Touched {
        &self.touched
    }

    fn start<V: Watch>(&mut self, watch: &mut V) -> Result<(), RunFault> {
        let deltas = settle(
            &mut self.kernel,
            self.limit,
            0,
            &mut self.touched,
            self.pick,
            watch,
        )?;
        self.most = deltas;
        Ok(())
    }

    fn step<V: Watch>(
        &mut self,
        time: u64,
        changes: &[(usize, Nine)],
        watch: &mut V,
    ) -> Result<(), RunFault> {
        self.kernel.apply(changes, self.pick);
        self.touched.forget();
        self.kernel.mark_changed(&mut self.touched);
        let deltas = settle(
            &mut self.kernel,
            self.limit,
            time,
            &mut self.touched,
            self.pick,
            watch,
        )?;
        self.most = self.most.max(deltas);
        Ok(())
    }
}

/// Delta cycles until no driver is active, at most so many; it is the moment at this time. The
/// watch is told where they don't suffice. The chunks of the nets that change are marked.
fn settle<E: Exec, P: Pick, V: Watch>(
    kernel: &mut Kernel<'_, E>,
    limit: u32,
    time: u64,
    touched: &mut Touched,
    pick: &mut P,
    watch: &mut V,
) -> Result<u32, RunFault>
    requires ready { HasNoneToRun kernel.old.state }
    requires nets { touched.old.nets ≡ length kernel.old.net.types }
    ensures net { kernel.new.net ≡ kernel.old.net }
    ensures ready { HasNoneToRun kernel.new.state }
    ensures settled { MatchResult result
        (λ deltas. SettlesTo (core kernel.old.net) kernel.old.state deltas kernel.new.state × (deltas ≤ limit))
        (λ fault. (fault ≡ NoSettling time)
        × IsUnsettled (core kernel.old.net) kernel.old.state limit kernel.new.state) }
    ensures touched { Touches touched.old touched.new kernel.old.state.now kernel.new.state.now }
    ensures watch_stays { IfOk result (λ _. watch.new ≡ watch.old) }
    ensures stuck { IfErr result (λ _. TellsStuck V.told V.stuck watch.old watch.new time
        kernel.new.state.before kernel.new.state.now) }
{
    for deltas in 0..limit {
        if kernel.is_quiet() {
            return Ok(deltas);
        }
        kernel.cycle(pick);
        kernel.mark_changed(touched);
    }
    if kernel.is_quiet() {
        return Ok(limit);
    }
    watch.unsettled(kernel.before(), kernel.values(), time);
    Err(RunFault::NoSettling { time })
}
