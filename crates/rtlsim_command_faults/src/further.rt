//! The faults of a source behind its first, as paragraphs.

ghost use Rattle.std.specs.Prelude.{flat_map, map};
ghost use Rattle.byte_streams.specs.Written.{Goes};
ghost use Rattle.rtlsim_refusals.specs.Explained.{paragraph, told_view};
ghost use Rattle.rtlsim_command_faults.specs.Behind.{TellsFurther, end_text};
ghost use Rattle.vhdl_front_rules.specs.Asking.{asked_view};

use crate::faults::Fault;
use crate::search::{End, find_further};
use crate::telling::Telling;
use byte_streams::{Sink, push_text};
use rtlsim_refusals::{Told, push_paragraph};
use std::alloc::Global;
use vhdl_front_rules::{Asked, Front};

/// Tells the faults of a source behind its first, each by its explanation: 20 at most with the
/// first, and then a line `and more`. Behind one of grammar each is the parser's refusal of the
/// tokens without the statements of those before it. Behind one of names and types each is one of
/// the source with blanks in place of the statements of those before it, for which the source is
/// read once more, 100 times at most. A fault of a word that stands in such a statement isn't told
/// once more. It takes the memory of the tokens and of two copies of the source beside that of the
/// readings, and of what is told; where it is refused, those are told that were found.
pub fn push_further_faults<F: Front, S: Sink>(
    alloc: Global,
    telling: &Telling<'_>,
    asked: Asked<'_>,
    first: &Fault,
    sink: &mut S,
)
    ensures { TellsFurther telling.now (asked_view asked.entry) first.now (S.state sink.old) (S.state sink.new) }
{
    let mut told = Vec::new(alloc);
    let end = find_further::<F>(alloc, telling.files, asked, first, &mut told);
    push_paragraphs(&told, sink);
    push_end(end, sink);
}

/// Writes a paragraph for each.
fn push_paragraphs<S: Sink>(told: &[Told<'_>], sink: &mut S)
    ensures { Goes (S.state sink.old) (S.state sink.new) (flat_map paragraph (map told_view told.now)) }
{
    for one in told {
        push_paragraph(one, sink);
    }
}

/// Writes the line below the last one that is told.
fn push_end<S: Sink>(end: End, sink: &mut S)
    ensures { Goes (S.state sink.old) (S.state sink.new) (end_text end) }
{
    match end {
        End::More => push_text(sink, b"and more\n"),
        _ => push_text(sink, b""),
    }
}
