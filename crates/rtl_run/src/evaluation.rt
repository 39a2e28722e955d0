//! The values of a netlist's out ports at the first moment.

ghost use Rattle.std.specs.Prelude.{◌≡◌, map, length, IfOk};
ghost use Rattle.rtl_stim.specs.Ports.{HasOwnPorts, inputs_of};
ghost use Rattle.rtl_stim.specs.Stimuli.{inputs_at};
ghost use Rattle.rtl_net.specs.Core.{core};
ghost use Rattle.byte_streams.specs.Written.{IsIntact};
ghost use Rattle.rtl_run.specs.Synchronous.{SaysYes, IsRaceless};
ghost use Rattle.rtl_run.specs.Evaluated.{Evaluates, IsFirstOf};

use crate::admission::{Admitted, admit_words};
use crate::fault::MachineFault;
use crate::laws::accepted_nets_are_synchronous;
use crate::ports::push_ports;
use byte_streams::{Sink, Unwatched, finish};
use rtl_eval_code::codes;
use rtl_kernel::Forward;
use rtl_net::{Net, Shown};
use rtl_simulation::{Course, Engine, EventEngine};
use std::alloc::{AllocError, Global};

/// Writes, for each out port of the top in order of declaration, the line `NAME=VALUE` with its
/// value in the first valuation of the synchronous machine: `words` are texts NAME=VALUE, each of
/// which sets an input.
///
/// It takes the checker's memory, the stimulus's, the kernel's, a byte for each net,
/// and one for each 256.
///
/// # Errors
///
/// `Rejected` with what the checker found; then `Stim` with the first bad word, by its place from
/// 1; or `Memory`. Nothing is written till here. `Output` where `out` failed, which leaves a
/// beginning.
pub fn eval<W: Sink>(
    alloc: Global,
    net: &Net,
    words: &[&[u8]],
    out: &mut W,
) -> Result<(), MachineFault>
    requires ports { HasOwnPorts net.now }
    requires intact { IsIntact (W.state out.old) }
    ensures { Evaluates net.now (map (λ word. word.now) words.now) (W.state out.old) (W.state out.new) result }
{
    let admitted = admit_words(alloc, net, words)?;
    let values = first_values(alloc, net, &admitted)?;
    push_ports(net, &values, out);
    finish(out)?;
    Ok(())
}

/// The values of all nets once the first moment has settled, as codes.
fn first_values<'a>(
    alloc: Global,
    net: &'a Net,
    admitted: &'a Admitted,
) -> Result<Vec<u8>, AllocError>
    requires ports { HasOwnPorts net.now }
    requires accepted { SaysYes (core net.now) admitted.now.bound }
    requires inputs { admitted.now.stimulus.inputs ≡ inputs_of net.now }
    requires raceless { IsRaceless (core net.now) (inputs_at admitted.now.stimulus) }
    ensures first { IfOk result (λ values. IsFirstOf net.now admitted.now.stimulus admitted.now.bound values.items) }
    ensures as_many { IfOk result (λ values. length values.items ≡ length net.now.types) }
{
    accepted_nets_are_synchronous();
    net.is_elaborated();
    let bodies = codes(alloc, net)?;
    let course = Course {
        shown: Shown { net, signals: &[] },
        stimulus: &admitted.stimulus,
        limit: admitted.bound,
    };
    let mut pick = Forward;
    let mut engine = EventEngine::new(alloc, &course, &bodies, &mut pick)?;
    match engine.start(&mut Unwatched) {
        Ok(()) => Vec::from_slice(alloc, engine.values()),
        Err(_) => unreachable!(),
    }
}
