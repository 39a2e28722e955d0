//! Runs by what is asked of their trace.

ghost use Rattle.rtlsim_commands.specs.Expected.{tracing_unexpecting};
ghost use Rattle.rtlsim_commands.specs.Tracing.{Tracing, choice_view};

use crate::command::{Command, Run, Site};
use crate::running::Simulate;
use byte_streams::{Nowhere, Sink, Watch};
use rtl_signal_names::{choose, chosen_shown};
use rtlsim_command_faults::Fault;

/// What is asked of a trace.
#[derive(Clone, Copy)]
pub enum Choice<'a> {
    /// All signals.
    Whole,
    /// The signals that these names choose: the one of this full name, and all below the instance
    /// of this name.
    Named(&'a [&'a [u8]]),
    /// No trace: nothing is written.
    Nothing,
}

/// A run that shows what is asked of its trace. It takes memory for the signals that names choose.
///
/// # Errors
///
/// - `Untraced`: the first name that chooses nothing, before anything is simulated.
/// - Else as the run; without a trace, `out` isn't written to.
#[derive(Drop)]
pub struct Traced<'a, R: Simulate + Drop> {
    pub run: R,
    pub choice: Choice<'a>,
}

impl<R: Simulate + Drop> Command for Traced<'_, R> {
    type Answer = R::Answer;

    ghost does = { λ traced. Tracing (choice_view traced.choice) (R.shows traced.run) };

    ghost sight = { λ traced. R.sight traced.run };

    fn on_net<V: Watch, S: Sink>(
        &mut self,
        site: Site<'_>,
        watch: &mut V,
        out: &mut S,
    ) -> Result<R::Answer, Fault> {
        let Site { alloc, net } = site;
        match self.choice {
            Choice::Whole => self.run.simulate(alloc, net.shown(), watch, out),
            Choice::Named(names) => {
                let chosen = choose(alloc, net, names)?;
                match chosen {
                    Ok(signals) => {
                        let shown = chosen_shown(net, &signals);
                        self.run.simulate(alloc, shown, watch, out)
                    }
                    Err(place) => Err(Fault::Untraced { place }),
                }
            }
            Choice::Nothing => self.run.simulate(alloc, net.unshown(), watch, &mut Nowhere),
        }
    }
}

impl<R: Simulate + Drop> Run for Traced<'_, R> {
    ghost unexpecting = { λ traced net fault old new does.
        tracing_unexpecting (R.shows traced.run) (R.unexpecting traced.run) (choice_view traced.choice) net fault old
        new does };
}
