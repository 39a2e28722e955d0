//! The course of a simulation, from moment to moment.

ghost use Rattle.std.specs.Prelude.{◌≡◌, ℕ, pred, ◌<◌, [], length, None, MatchResult, OnOk};
ghost use Rattle.rtl_net_groups.specs.Touching.{KeepsLeft};
ghost use Rattle.byte_streams.specs.Written.{SinkState, IsIntact};
ghost use Rattle.rtl_vcd.specs.Shown.{shown_of};
ghost use Rattle.rtl_simulation.specs.Engines.{course_of, names_of};
ghost use Rattle.rtl_simulation.specs.Ended.{EndsAll, EndsBefore};
ghost use Rattle.rtl_simulation.specs.Progress.{HasCome, IsNextMoment, GoesOn};

use crate::engine::Engine;
use crate::progress::Progress;
use crate::summary::RunFault;
use byte_streams::{Sink, Watch};
use rtl_net::Shown;
use rtl_stim::{Agenda, Stimulus};
use rtl_vcd::{Blocks, VcdFault, end, first, header};
use std::alloc::Global;

/// A netlist under a stimulus, with so many delta cycles at most in each moment, and the signals
/// that its trace shows.
#[derive(Drop)]
pub struct Course<'a> {
    pub shown: Shown<'a>,
    pub stimulus: &'a Stimulus,
    pub limit: u32,
}

impl Course<'_> {
    /// Lets an engine compute each moment, from 0 to the stimulus's stop, and writes the trace, as
    /// `Simulation::run_watched` says. It answers how many moments there were.
    ///
    /// It takes the agenda's memory, that of the names' blocks, and a byte for each net.
    pub fn trace<G: Engine, A: Agenda, V: Watch, W: Sink>(
        &self,
        alloc: Global,
        engine: &mut G,
        agenda: &mut A,
        watch: &mut V,
        out: &mut W,
    ) -> Result<u64, RunFault>
        requires begun { G.has_begun engine.old (course_of self.now) }
        requires waiting { (A.state agenda.old).waiting ≡ [] }
        requires last { (A.state agenda.old).last ≡ None }
        requires intact { IsIntact (W.state out.old) }
        ensures { let r = course_of self.now in let names = names_of self.now in
            let old = W.state out.old in let new = W.state out.new in
            MatchResult result
            (λ moments. G.is_at engine.new r (pred moments)
            × EndsAll r names old new (λ stands. V.told watch.old stands watch.new) moments)
            (EndsBefore r names old new (λ stands. V.told watch.old stands watch.new)
            (λ stands before now time. V.stuck watch.old stands before now time watch.new)) }
    {
        self.stimulus.load(agenda)?;
        let blocks = Blocks::new(alloc, self.shown)?;
        let stop = self.stimulus.stop();
        header(self.shown, out)?;
        engine.start(watch)?;
        first(self.shown, engine.values(), out)?;
        let mut progress = Progress {
            now: 0,
            shown: Vec::from_slice(alloc, engine.values())?,
            printed: 0,
            moments: 1,
        };
        while let Some(time) = agenda.next() {
            watch.stood(engine.values(), time);
            engine.step(time, agenda.changes(), watch)?;
            self.stimulus.refill(time, agenda)?;
            self.go_on(time, &blocks, engine, &mut progress, out)?;
        }
        watch.stood(engine.values(), stop + 1);
        end(progress.printed, stop, out)?;
        Ok(progress.moments)
    }

    /// Writes what changes at the moment of this time, which has settled.
    fn go_on<G: Engine, W: Sink>(
        &self,
        time: u64,
        blocks: &Blocks<'_>,
        engine: &G,
        progress: &mut Progress,
        out: &mut W,
    ) -> Result<(), VcdFault>
        requires blocks { blocks.now ≡ shown_of self.now.shown }
        requires intact { IsIntact (W.state out.old) }
        requires as_many { length progress.old.shown.items ≡ length self.now.shown.net.now.types }
        requires left { KeepsLeft (G.chunks engine.now) progress.old.shown.items (G.valuation engine.now) }
        requires settled { G.is_at engine.now (course_of self.now) progress.old.moments }
        requires room { progress.old.moments < 18446744073709551615 }
        ensures as_many { length progress.new.shown.items ≡ length self.now.shown.net.now.types }
        ensures shown { OnOk result (progress.new.shown.items ≡ G.valuation engine.now) }
        ensures goes_on { (start : SinkState)
            → HasCome (course_of self.now) (names_of self.now) start (W.state out.old) progress.old
            → IsNextMoment (course_of self.now) progress.old time
            → GoesOn (course_of self.now) (names_of self.now) start (W.state out.new) progress.old time progress.new
            result }
    {
        let touched = engine.touched();
        let is_printed = blocks.moment(time, touched, &progress.shown, engine.values(), out)?;
        progress.add(time, touched, engine.values(), is_printed);
        Ok(())
    }
}
