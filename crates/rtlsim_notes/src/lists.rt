//! Notes of a process's sensitivity list, and of what it reads.

ghost use Rattle.std.specs.Prelude.{◌≡◌, ◌++◌, map, flat_map, OnOk, IfOk, Some};
ghost use Rattle.rtlsim_notes.specs.Notes as spec;
ghost use Rattle.rtlsim_notes.specs.Notes.{note_view};
ghost use Rattle.vhdl_slips.specs.Words.{read_of};

use crate::noted::{Note, push_note};
use crate::sayings::{lack_text, read_text};
use crate::scopes::{names_in, scope_of};
use rtl_net::{Net, NoMemory};
use rtlsim_findings::at_process;
use std::alloc::Global;
use vhdl_lexer::Token;
use vhdl_places::{Lack, Use, body, first_use, unread_name};
use vhdl_slips::{Lexed, text_of};

/// The tokens of the source from a byte on; none where there is none.
pub(crate) fn tokens_from(source: Lexed<'_>, at: Option<usize>) -> &[Token]
    ensures { result.now ≡ spec.tokens_from (read_of source.entry) at }
{
    match at {
        Some(at) => {
            let (_before, here) = source.split_at(at);
            here.tokens
        }
        None => &[],
    }
}

/// The tokens from where a process starts.
fn tokens_of<'a>(source: Lexed<'a>, net: &Net, process: usize) -> &'a [Token]
    ensures { result.now ≡ spec.tokens_of (read_of source.entry) net.now process }
{
    tokens_from(source, at_process(net, Some(process)))
}

/// Where it's told that a name of a list isn't read.
fn place_of(name: Token, lack: Lack) -> usize
    ensures { result ≡ spec.place_of name lack }
{
    match lack {
        Lack::EdgeBranch(branch) => branch.start as usize,
        _ => name.start as usize,
    }
}

/// Appends the note of a name of a process's list that it doesn't read.
pub(crate) fn push_list(
    alloc: Global,
    source: Lexed<'_>,
    net: &Net,
    process: usize,
    notes: &mut Vec<Note>,
) -> Result<(), NoMemory>
    ensures { OnOk result (map note_view notes.new.items
        ≡ map note_view notes.old.items ++ spec.list_notes (read_of source.entry) net.now process) }
{
    let Some(unread) = unread_name(source, tokens_of(source, net, process)) else {
        return Ok(());
    };
    let text = lack_text(alloc, text_of(source.text, unread.name), unread.lack)?;
    push_note(place_of(unread.name, unread.lack), text, notes)
}

/// Appends those of some processes.
pub(crate) fn push_lists(
    alloc: Global,
    source: Lexed<'_>,
    net: &Net,
    processes: &[usize],
    notes: &mut Vec<Note>,
) -> Result<(), NoMemory>
    ensures { OnOk result (map note_view notes.new.items ≡ map note_view notes.old.items
        ++ flat_map (spec.list_notes (read_of source.entry) net.now) processes.now) }
{
    for process in processes {
        push_list(alloc, source, net, *process, notes)?;
    }
    Ok(())
}

/// What a net is called in the scope of a process.
fn names_for<'a>(
    alloc: Global,
    net: &'a Net,
    process: usize,
    number: usize,
) -> Result<Vec<&'a [u8]>, NoMemory>
    ensures { IfOk result (λ names. map (λ n. n.now) names.items
        ≡ spec.names_for net.now number (spec.scope_at net.now (Some process))) }
{
    match scope_of(net, process) {
        Some(scope) => names_in(alloc, net, scope, number),
        None => Ok(Vec::new(alloc)),
    }
}

/// Where a process reads a net first from this byte on.
pub(crate) fn read_from(
    alloc: Global,
    source: Lexed<'_>,
    net: &Net,
    process: usize,
    number: usize,
    at: Option<usize>,
) -> Result<Option<Token>, NoMemory>
    ensures { IfOk result (λ token. token ≡ spec.read_from (read_of source.entry) net.now process number at) }
{
    let names = names_for(alloc, net, process, number)?;
    let words = Lexed {
        text: source.text,
        tokens: body(tokens_from(source, at)),
    };
    Ok(first_use(Use::Read, &names, words))
}

/// Appends the note where a process reads a net that isn't in its list.
pub(crate) fn push_read(
    alloc: Global,
    source: Lexed<'_>,
    net: &Net,
    process: usize,
    number: usize,
    notes: &mut Vec<Note>,
) -> Result<(), NoMemory>
    ensures { OnOk result (map note_view notes.new.items
        ≡ map note_view notes.old.items ++ spec.read_notes (read_of source.entry) net.now process number) }
{
    let start = at_process(net, Some(process));
    let Some(token) = read_from(alloc, source, net, process, number, start)? else {
        return Ok(());
    };
    let text = read_text(alloc, text_of(source.text, token))?;
    push_note(token.start as usize, text, notes)
}
