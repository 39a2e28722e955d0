//! The nearest name.

ghost use Rattle.std.specs.Prelude.{◌≡◌, [], length, map, slice_index_or, option_map, IfOk};
ghost use Rattle.byte_streams.specs.Written.{Goes};
ghost use Rattle.rtl_net.specs.Nets.{scope_view, label_at};
ghost use Rattle.rtlsim_nearest.specs.Likeness as spec;

use crate::likeness::{Way, is_like};
use byte_streams::{Sink, push_text};
use rtl_net::{Net, Scope};
use rtl_signal_names::full_name;
use std::alloc::{AllocError, Global};

/// The full name of the signal that is nearest to this name; nothing where none is like it. It
/// takes the memory of a full name at a time.
pub fn nearest(alloc: Global, net: &Net, name: &[u8]) -> Result<Vec<u8>, AllocError>
    ensures { IfOk result (λ nearest. nearest.items ≡ spec.nearest net.now name.now) }
{
    if let Some(full) = first_like(alloc, net, name, Way::OneLetter)? {
        return Ok(full);
    }
    if let Some(full) = first_like(alloc, net, name, Way::TwoLetters)? {
        return Ok(full);
    }
    if let Some(full) = first_like(alloc, net, name, Way::BehindTop)? {
        return Ok(full);
    }
    if let Some(full) = first_like(alloc, net, name, Way::Unlabelled)? {
        return Ok(full);
    }
    Ok(Vec::new(alloc))
}

/// The full name of the first signal that a name is like in this way.
fn first_like(
    alloc: Global,
    net: &Net,
    name: &[u8],
    way: Way,
) -> Result<Option<Vec<u8>>, AllocError>
    ensures { IfOk result (λ found. option_map (λ full. full.items) found ≡ spec.first_like net.now name.now way) }
{
    net.is_elaborated();
    let scopes = net.scopes();
    let signals = net.signals();
    let top = top_of(scopes);
    for number in 0..signals.len() {
        let full = full_name(alloc, scopes, &signals[number])?;
        if is_like(way, top, name, &full) {
            return Ok(Some(full));
        }
    }
    Ok(None)
}

/// The name of the top.
fn top_of(scopes: &[Scope]) -> &[u8]
    ensures { result.now ≡ label_at (map scope_view scopes.now) 0 }
{
    if scopes.is_empty() {
        return &[];
    }
    &scopes[0].label
}

/// Writes the line that names the nearest, or nothing.
pub fn push_nearest<S: Sink>(nearest: &[u8], sink: &mut S)
    ensures { Goes (S.state sink.old) (S.state sink.new) (spec.line_of nearest.now) }
{
    if nearest.is_empty() {
        return;
    }
    push_text(sink, b"nearest: ");
    push_text(sink, nearest);
    push_text(sink, b"\n");
}
