//! The note at the loop in which a latch leaves the assignment out.

ghost use Rattle.std.specs.Prelude.{◌≡◌, ◌++◌, map, OnOk};
ghost use Rattle.rtlsim_findings.specs.Findings.{finding_view};
ghost use Rattle.rtlsim_notes.specs.Loops as spec;
ghost use Rattle.rtlsim_notes.specs.Notes.{loop_notes, note_view};
ghost use Rattle.vhdl_slips.specs.Words.{read_of};

use crate::lists::tokens_from;
use crate::noted::{Note, push_note};
use crate::sayings::loop_text;
use rtl_latches::Omission;
use rtl_net::NoMemory;
use rtlsim_findings::Finding;
use std::alloc::Global;
use vhdl_lexer::{Token, TokenKind};
use vhdl_misfits::is_inside_loop;
use vhdl_slips::{Lexed, behind_last, first_of, past};

/// The last for of these tokens, if its loop goes on behind them.
fn open_loop(before: &[Token]) -> Option<Token>
    ensures { result ≡ spec.open_loop before.now }
{
    let behind = behind_last(TokenKind::For, before);
    if !is_inside_loop(behind) {
        return None;
    }
    let count = before.len().saturating_sub(1).saturating_sub(behind.len());
    first_of(past(count, before))
}

/// The for of the loop in which these words of a process leave an assignment out.
fn loop_of(process: Lexed<'_>, omission: Option<Omission>) -> Option<Token>
    ensures { result ≡ spec.loop_of (read_of process.entry) omission }
{
    let omission = omission?;
    let (before, _here) = process.split_at(omission.at() as usize);
    open_loop(before.tokens)
}

/// Appends the note there.
pub(crate) fn push_loop(
    alloc: Global,
    source: Lexed<'_>,
    finding: &Finding<'_>,
    notes: &mut Vec<Note>,
) -> Result<(), NoMemory>
    ensures { OnOk result (map note_view notes.new.items
        ≡ map note_view notes.old.items ++ loop_notes (read_of source.entry) (finding_view finding.now)) }
{
    let process = Lexed {
        text: source.text,
        tokens: tokens_from(source, finding.cause.first),
    };
    let Some(token) = loop_of(process, finding.cause.omission) else {
        return Ok(());
    };
    let text = loop_text(alloc)?;
    push_note(token.start as usize, text, notes)
}
