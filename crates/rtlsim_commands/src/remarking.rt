//! What is told of a stimulus behind a run.

ghost use Rattle.rtlsim_commands.specs.Remarked.{TellsRemarks};

use byte_streams::{Sink, push_text};
use rtl_net::Net;
use rtlsim_command_faults::{Telling, push_memory};
use rtlsim_findings_text::stimulus_remarks_text;
use std::alloc::Global;

/// Tells the remarks on the stimulus, if there is one and explanations are asked for, or that
/// memory for them is refused.
pub(crate) fn tell_remarks<E: Sink>(alloc: Global, telling: &Telling<'_>, net: &Net, err: &mut E)
    ensures { TellsRemarks telling.now net.now (E.state err.old) (E.state err.new) }
{
    if !telling.explains {
        return;
    }
    let Some(stimulus) = telling.stimulus_text else {
        return;
    };
    match stimulus_remarks_text(alloc, telling.files, net, stimulus) {
        Ok(text) => push_text(err, &text),
        Err(_) => push_memory(err),
    }
}
