//! What commands do on a netlist, and what is told of what they answer.

ghost use Rattle.std.specs.Prelude.{◌≡◌, [], ℕ, List, Result, Err, IfErr};
ghost use Rattle.rtl_net.specs.Nets.{NetlistView};
ghost use Rattle.byte_streams.specs.Written.{SinkState, IsIntact};
ghost use Rattle.rtl_stim.specs.Ports.{HasOwnPorts};
ghost use Rattle.rtlsim_command_faults.specs.Told.{summary_line, levels_line};
ghost use Rattle.rtlsim_command_faults.specs.declared.faults.Fault.{Fault};
ghost use Rattle.rtlsim_command_faults.specs.declared.status.Status.{Status};
ghost use Rattle.rtlsim_command_faults.specs.declared.status.Status.TheVariants as statuses;
ghost use Rattle.rtlsim_commands.specs.Answered.{TellsText, verdict_status};
ghost use Rattle.rtlsim_commands.specs.Expected.{IsOfRun};
ghost use Rattle.rtlsim_commands.specs.Sights.{Sight, Seeing, IsOfNet};

use byte_streams::{Sink, Watch};
use rtl_net::Net;
use rtl_run::LevelSummary;
use rtl_simulation::Summary;
use rtlsim_command_faults::{Fault, Status, tell_levels, tell_summary};
use std::alloc::Global;

/// What a command answers where it is done.
pub trait Answer: Drop {
    // What is told of it, and the status.
    ghost text: { Self → List ℕ };

    ghost said: { Self → Status };

    /// Tells it, and answers the status.
    fn tell<E: Sink>(&self, err: &mut E) -> Status
        ensures told { TellsText (text self.now) (E.state err.old) (E.state err.new) }
        ensures status { result ≡ said self.now };
}

impl Answer for () {
    ghost text = { λ answer. [] };

    ghost said = { λ answer. statuses.Done };

    fn tell<E: Sink>(&self, _err: &mut E) -> Status {
        Status::Done
    }
}

/// Of the checker: whether the verdict is yes.
impl Answer for bool {
    ghost text = { λ answer. [] };

    ghost said = { verdict_status };

    fn tell<E: Sink>(&self, _err: &mut E) -> Status {
        if *self {
            Status::Done
        } else {
            Status::Rejected
        }
    }
}

impl Answer for Summary {
    ghost text = { summary_line };

    ghost said = { λ answer. statuses.Done };

    fn tell<E: Sink>(&self, err: &mut E) -> Status {
        tell_summary(*self, err);
        Status::Done
    }
}

impl Answer for LevelSummary {
    ghost text = { levels_line };

    ghost said = { λ answer. statuses.Done };

    fn tell<E: Sink>(&self, err: &mut E) -> Status {
        tell_levels(*self, err);
        Status::Done
    }
}

/// A netlist, and the memory for what is done on it.
#[derive(Clone, Copy)]
pub struct Site<'a> {
    pub alloc: Global,
    pub net: &'a Net,
}

/// A command on a netlist.
pub trait Command {
    type Answer: Answer;

    // What it does on a netlist, between two states of the standard output.
    ghost does: { Self → NetlistView → Result Self.Answer Fault → (old new : SinkState) → Type 0 };

    // What a watch sees of it.
    ghost sight: { Self → Sight };

    /// Does it, and lets this watch look on: writes what it prints to `out`.
    fn on_net<V: Watch, S: Sink>(
        &mut self,
        site: Site<'_>,
        watch: &mut V,
        out: &mut S,
    ) -> Result<Self::Answer, Fault>
        requires ports { HasOwnPorts site.net.now }
        requires intact { IsIntact (S.state out.old) }
        ensures does { Seeing (sight self.old) (does self.old) (λ stands. V.told watch.old stands watch.new)
            site.entry.net.now result (S.state out.old) (S.state out.new) }
        ensures faults { IfErr result (IsOfNet (sight self.old)
            (λ stands before now at. V.stuck watch.old stands before now at watch.new) site.entry.net.now) };
}

/// A run of a netlist.
pub trait Run: Command {
    // None of its faults is one of what is expected.
    ghost unexpecting: { (run : Self) (net : NetlistView) (fault : Fault) (old new : SinkState)
        → Self.does run net (Err fault) old new
        → IsOfRun fault };
}
