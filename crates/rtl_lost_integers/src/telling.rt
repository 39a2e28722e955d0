//! The line that tells of an integer that is lost.

ghost use Rattle.byte_streams.specs.Written.{Goes};
ghost use Rattle.std.specs.Prelude.{◌≡◌, None, IfOk, IsOk, slice_get};
ghost use Rattle.rtl_lost_integers.specs.Told as spec;

use crate::watching::LostInteger;
use byte_streams::{Out, Sink, push_number, push_text};
use rtl_net::{Net, NoMemory};
use rtl_signal_names::push_name;
use std::alloc::{AllocError, Global};

/// The line that tells which integer was lost first, if one was, and when: `FILE: remark: at TIME
/// ns NAME becomes x`. It takes memory for the line; where none was, it takes none.
pub fn lost_text(
    alloc: Global,
    file: &[u8],
    net: &Net,
    lost: Option<LostInteger>,
) -> Result<Vec<u8>, NoMemory>
    ensures text { IfOk result (λ text. text.items ≡ spec.lost_text file.now net.now lost) }
    ensures nothing { lost ≡ None → IsOk result }
{
    let Some(lost) = lost else {
        return Ok(Vec::new(alloc));
    };
    let mut text = Out::new(Vec::new(alloc));
    push_lost(file, net, lost, &mut text);
    if text.failed() {
        return Err(AllocError);
    }
    Ok(text.into_inner())
}

/// Writes that line.
fn push_lost<S: Sink>(file: &[u8], net: &Net, lost: LostInteger, sink: &mut S)
    ensures { Goes (S.state sink.old) (S.state sink.new) (spec.lost_line file.now net.now lost) }
{
    push_text(sink, file);
    push_text(sink, b": remark: at ");
    push_number(sink, lost.time);
    push_text(sink, b" ns ");
    push_signal(net, lost.signal, sink);
    push_text(sink, b" becomes x\n");
}

/// Writes the full name of the signal of this number.
fn push_signal<S: Sink>(net: &Net, number: usize, sink: &mut S)
    ensures { Goes (S.state sink.old) (S.state sink.new)
        (spec.name_of net.now.scopes (slice_get net.now.signals number)) }
{
    net.is_elaborated();
    let Some(signal) = net.signals().get(number) else {
        return;
    };
    push_name(net.scopes(), signal, sink);
}
