//! What a net starts with, and its sources.

ghost use Rattle.std.specs.Prelude.{map};
ghost use Rattle.byte_streams.specs.Written.{Goes};
ghost use Rattle.rtl_net.specs.Nets.{source_view, type_of};
ghost use Rattle.rtlsim_listing.specs.NetText.{start_text, source_text, driven_text, sources_text};

use byte_streams::{Sink, push_number, push_text};
use rtl_net::{NetKind, Source};
use vhdl_values::Nine;

/// The character of one of the nine values, or the position of a literal.
pub fn push_start<W: Sink>(kind: NetKind, start: u8, out: &mut W)
    ensures { Goes (W.state out.old) (W.state out.new) (start_text (type_of kind) start) }
{
    match kind {
        NetKind::Nine => {
            let value = Nine::from_code(start).unwrap_or(Nine::X);
            push_text(out, &[value.byte()]);
        }
        NetKind::Enumeration { .. } => push_number(out, u64::from(start)),
    }
}

/// `in` for an input, else the sources.
pub fn push_sources<W: Sink>(is_input: bool, sources: &[Source], out: &mut W)
    ensures { Goes (W.state out.old) (W.state out.new) (sources_text is_input (map source_view sources.now)) }
{
    if is_input {
        push_text(out, b"in");
        return;
    }
    push_driven(sources, out);
}

/// The sources, or `none`.
fn push_driven<W: Sink>(sources: &[Source], out: &mut W)
    ensures { Goes (W.state out.old) (W.state out.new) (driven_text (map source_view sources.now)) }
{
    let Some((first, rest)) = sources.split_first() else {
        push_text(out, b"none");
        return;
    };
    push_source(*first, out);
    for source in rest {
        push_text(out, b" ");
        push_source(*source, out);
    }
}

/// A driver's process, or `idle`.
fn push_source<W: Sink>(source: Source, out: &mut W)
    ensures { Goes (W.state out.old) (W.state out.new) (source_text (source_view source)) }
{
    match source {
        Source::Driven { process, .. } => push_number(out, process as u64),
        Source::Idle { .. } => push_text(out, b"idle"),
    }
}
