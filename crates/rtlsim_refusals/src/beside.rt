//! Other places of a source that have to be seen with a fault.

ghost use Rattle.std.specs.Prelude.{◌≡◌, [], flat_map, map, option_map, option_to_list};
ghost use Rattle.byte_streams.specs.Written.{Goes};
ghost use Rattle.rtlsim_refusals.specs.Explained as spec;
ghost use Rattle.vhdl_slips.specs.Words.{read_of};
ghost use Rattle.vhdl_source_files.specs.Files.{file_view};

use crate::explaining::Site;
use crate::place::{push_position, push_shown};
use byte_streams::{Sink, push_text};
use fault_rules::{ElabRule, NameRule, Rule};
use vhdl_lexer::Token;
use vhdl_places::{first_declared, first_driver, second_driver};
use vhdl_slips::{Lexed, first_text};
use vhdl_source_files::{FilePlace, SourceFile, place_in};

/// Another place that has to be seen, and what is said there.
#[derive(Clone, Copy)]
pub struct Noted<'a> {
    pub place: FilePlace<'a>,
    pub words: &'static [u8],
}

/// Two such places at most, in order.
#[derive(Clone, Copy)]
pub struct Notes<'a> {
    pub first: Option<Noted<'a>>,
    pub second: Option<Noted<'a>>,
}

impl Notes<'_> {
    /// None of them.
    pub(crate) fn none() -> Notes<'static>
        ensures { spec.notes_view result ≡ [] }
    {
        Notes {
            first: None,
            second: None,
        }
    }
}

/// A token of these files with what is said there.
fn note_at<'a>(
    files: &[SourceFile<'a>],
    words: &'static [u8],
    token: Option<Token>,
) -> Option<Noted<'a>>
    ensures { option_map spec.note_view result ≡ option_map (spec.note_at (map file_view files.now) words.now) token }
{
    let token = token?;
    Some(Noted {
        place: place_in(files, token.start as usize),
        words,
    })
}

/// The places that have to be seen with a fault of this rule.
pub(crate) fn notes_at<'a>(
    files: &[SourceFile<'a>],
    site: Site<'_, '_>,
    source: Lexed<'_>,
    rule: Rule,
) -> Notes<'a>
    ensures { spec.notes_view result
        ≡ spec.notes_at (map file_view files.now) (spec.site_of site.entry) (read_of source.entry) rule }
{
    let name = first_text(site.from);
    let before = site.before.tokens;
    match rule {
        Rule::Name(NameRule::Twice) => {
            let first = first_declared(source, name, before);
            Notes {
                first: note_at(files, b"the first of the two", first),
                second: None,
            }
        }
        Rule::Elab(ElabRule::TwoUnresolved) => Notes {
            first: note_at(
                files,
                b"it is assigned here",
                first_driver(name, before, site.from),
            ),
            second: note_at(
                files,
                b"it is assigned here too",
                second_driver(name, before, site.from),
            ),
        },
        _ => Notes::none(),
    }
}

/// Writes the place of a note, the note and the line of the place, if there is one.
fn push_note<S: Sink>(note: Option<Noted<'_>>, sink: &mut S)
    ensures { Goes (S.state sink.old) (S.state sink.new)
        (flat_map spec.note_text (option_to_list (option_map spec.note_view note.entry))) }
{
    match note {
        Some(note) => {
            push_position(note.place, sink);
            push_text(sink, b"note: ");
            push_text(sink, note.words);
            push_text(sink, b"\n");
            push_shown(note.place, sink);
        }
        None => push_text(sink, b""),
    }
}

/// Writes what stands between the line of a fault and its help.
pub(crate) fn push_notes<S: Sink>(notes: Notes<'_>, sink: &mut S)
    ensures { Goes (S.state sink.old) (S.state sink.new) (flat_map spec.note_text (spec.notes_view notes.entry)) }
{
    push_note(notes.first, sink);
    push_note(notes.second, sink);
}
