//! The notes of a finding.

ghost use Rattle.std.specs.Prelude.{◌≡◌, ◌++◌, map, take, IfOk, OnOk};
ghost use Rattle.rtl_check.specs.Views.{fault_view};
ghost use Rattle.rtlsim_findings.specs.Findings.{finding_view};
ghost use Rattle.rtlsim_notes.specs.Notes as spec;
ghost use Rattle.rtlsim_notes.specs.Notes.{note_view};
ghost use Rattle.vhdl_slips.specs.Words.{read_of};

use crate::circles::{push_looks, push_steps};
use crate::connections::push_driver;
use crate::lists::{push_list, push_lists, push_read, tokens_from};
use crate::loops::push_loop;
use crate::noted::{Note, new_notes, push_note};
use crate::sayings::inside_text;
use fault_rules::Subject;
use rtl_check::CheckFault;
use rtl_net::{Net, NoMemory};
use rtlsim_findings::{Finding, Obstacle, note_at, note_text};
use rtlsim_listing::report_of;
use std::alloc::Global;
use vhdl_lexer::{Token, TokenKind};
use vhdl_places::{Use, first_use, statement};
use vhdl_slips::{Lexed, begins, from};

/// So many notes of a finding are looked at, and so many processes of a loop.
const MOST: usize = 20;

/// The first of some things, so many at most.
fn first_of<T>(count: usize, items: &[T]) -> &[T]
    ensures { result.now ≡ take count items.now }
{
    if count < items.len() {
        &items[..count]
    } else {
        items
    }
}

/// The notes of a finding, in order: where the source has these words, and what is said there. It
/// takes the memory of the notes, and time in proportion to the source and to what is named.
///
/// # Errors
///
/// Where memory is refused.
pub fn notes(
    alloc: Global,
    source: Lexed<'_>,
    net: &Net,
    finding: &Finding<'_>,
) -> Result<Vec<Note>, NoMemory>
    ensures { IfOk result (λ notes. map note_view notes.items
        ≡ spec.notes (read_of source.entry) net.now (finding_view finding.now)) }
{
    let mut all = Vec::new(alloc);
    push_own(alloc, source, net, finding, &mut all)?;
    push_further(alloc, source, net, finding, &mut all)?;
    new_notes(alloc, first_of(MOST, &all))
}

/// Appends the finding's own note.
fn push_own(
    alloc: Global,
    source: Lexed<'_>,
    net: &Net,
    finding: &Finding<'_>,
    notes: &mut Vec<Note>,
) -> Result<(), NoMemory>
    ensures { OnOk result (map note_view notes.new.items
        ≡ map note_view notes.old.items ++ spec.own_notes (read_of source.entry) net.now (finding_view finding.now)) }
{
    let Some(at) = note_at(finding) else {
        return Ok(());
    };
    let edge = edge_of(source, finding.cause.first, finding.cause.obstacle);
    let text = own_text(alloc, net, finding, edge)?;
    push_note(start_or(at, edge), text, notes)
}

/// What the finding's own note says, at an edge or at a statement.
fn own_text(
    alloc: Global,
    net: &Net,
    finding: &Finding<'_>,
    edge: Option<Token>,
) -> Result<Vec<u8>, NoMemory>
    ensures { IfOk result (λ text. text.items ≡ spec.own_text net.now (finding_view finding.now) edge) }
{
    if is_inside(finding.cause.obstacle, edge) {
        return inside_text(alloc);
    }
    note_text(alloc, net, finding)
}

/// Whether a reason is told at an edge, and not at the statement round it.
fn is_inside(obstacle: Option<Obstacle>, edge: Option<Token>) -> bool
    ensures { result ≡ spec.is_inside obstacle edge }
{
    match (obstacle, edge) {
        (Some(obstacle), Some(_)) => obstacle.kind == 16,
        _ => false,
    }
}

/// Where a token starts, or a byte where there is none.
fn start_or(at: usize, token: Option<Token>) -> usize
    ensures { result ≡ spec.start_or at token }
{
    match token {
        Some(token) => token.start as usize,
        None => at,
    }
}

/// The edge or event that makes a process neither clocked nor combinational, where that is the
/// reason. The process starts at this byte.
fn edge_of(source: Lexed<'_>, start: Option<usize>, obstacle: Option<Obstacle>) -> Option<Token>
    ensures { result ≡ spec.edge_of (read_of source.entry) start obstacle }
{
    let obstacle = obstacle?;
    let words = Lexed {
        text: source.text,
        tokens: statement(tokens_from(source, start)),
    };
    let (_before, here) = words.split_at(obstacle.at as usize);
    edge_in(obstacle.kind, here)
}

/// The same in the words from the reason's statement on.
fn edge_in(kind: u8, words: Lexed<'_>) -> Option<Token>
    ensures { result ≡ spec.edge_in words.entry.text.now kind words.entry.tokens.now }
{
    if kind == 16 {
        inner_edge(words)
    } else if kind == 15 {
        first_use(Use::AnyEdge, &[], words)
    } else {
        None
    }
}

/// The first edge or event inside the statement with which these words begin, and in a process that
/// waits the first behind its wait.
fn inner_edge(words: Lexed<'_>) -> Option<Token>
    ensures { result ≡ spec.inner_edge words.entry.text.now words.entry.tokens.now }
{
    if !begins(TokenKind::Wait, words.tokens) {
        return first_use(Use::InnerEdge, &[], words);
    }
    let behind = Lexed {
        text: words.text,
        tokens: from(TokenKind::Semicolon, words.tokens),
    };
    first_use(Use::AnyEdge, &[], behind)
}

/// Appends the notes beside the finding's own.
fn push_further(
    alloc: Global,
    source: Lexed<'_>,
    net: &Net,
    finding: &Finding<'_>,
    notes: &mut Vec<Note>,
) -> Result<(), NoMemory>
    ensures { OnOk result (map note_view notes.new.items
        ≡ map note_view notes.old.items
        ++ spec.further_notes (read_of source.entry) net.now (finding_view finding.now)) }
{
    push_loop(alloc, source, finding, notes)?;
    push_rule(alloc, source, net, finding.first, notes)
}

/// Appends the notes of a fault's rule.
fn push_rule(
    alloc: Global,
    source: Lexed<'_>,
    net: &Net,
    fault: &CheckFault,
    notes: &mut Vec<Note>,
) -> Result<(), NoMemory>
    ensures { OnOk result (map note_view notes.new.items
        ≡ map note_view notes.old.items ++ spec.rule_notes (read_of source.entry) net.now (fault_view fault.now)) }
{
    match fault {
        CheckFault::TwoDrivers { .. } => {
            push_both(alloc, source, net, report_of(fault).subject, notes)
        }
        CheckFault::EdgeNotSensitive {
            process,
            net: number,
        }
        | CheckFault::MissingSensitivity {
            process,
            net: number,
        } => {
            push_list(alloc, source, net, *process, notes)?;
            push_read(alloc, source, net, *process, *number, notes)
        }
        CheckFault::Loop { processes } => {
            push_steps(alloc, net, processes, notes)?;
            push_lists(alloc, source, net, first_of(MOST, processes), notes)
        }
        CheckFault::NetLoop { nets } => push_looks(alloc, source, net, nets, notes),
        _ => Ok(()),
    }
}

/// Appends the notes of both sources of a net.
fn push_both(
    alloc: Global,
    source: Lexed<'_>,
    net: &Net,
    subject: Subject,
    notes: &mut Vec<Note>,
) -> Result<(), NoMemory>
    ensures { OnOk result (map note_view notes.new.items
        ≡ map note_view notes.old.items ++ spec.both_notes (read_of source.entry) net.now subject) }
{
    match subject {
        Subject::Sources {
            net: number,
            first,
            second,
        } => {
            push_driver(alloc, source, net, number, first, notes)?;
            push_driver(alloc, source, net, number, second, notes)
        }
        _ => Ok(()),
    }
}
