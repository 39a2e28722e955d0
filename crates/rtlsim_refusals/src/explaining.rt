//! Explanations of a source's faults.

ghost use Rattle.std.specs.Prelude.{◌≡◌, map};
ghost use Rattle.vhdl_parser_rules.specs.Expected.{expected_of};
ghost use Rattle.byte_streams.specs.Written.{Goes};
ghost use Rattle.rtlsim_refusals.specs.Explained as spec;
ghost use Rattle.vhdl_slips.specs.Words.{read_of};
ghost use Rattle.vhdl_source_files.specs.Files.{file_view, spot_view};
ghost use Rattle.vhdl_hints.specs.Hinted.{hint_view};

use crate::beside::{Notes, push_notes};
use crate::place::{begins_line, push_position, push_shown};
use crate::refused::{push_refused, said_of, said_refused};
use crate::unset::{names_entity, no_generic_said, push_generics_of};
use byte_streams::{Sink, push_number, push_text};
use fault_rules::{ElabRule, NameRule, Place, Report, Rule, Subject, SyntaxRule};
use vhdl_hints::{Hint, help, hint_at, push_hint};
use vhdl_lexer::Language;
use vhdl_parser_rules::Expected;
use vhdl_slips::{
    Lexed, Listing, Said, first_text, is_same_word, left_out_form, push_missing, push_names,
    push_subject, unexpected_form,
};
use vhdl_source_files::{FilePlace, SourceFile, place_in};

/// A byte of a source that has tokens.
#[derive(Clone, Copy)]
pub(crate) struct Site<'f, 's> {
    /// The language in which the source is read.
    pub language: Language,
    /// Where it stands in its own file.
    pub place: FilePlace<'f>,
    /// The tokens of the source before it.
    pub before: Lexed<'s>,
    /// Those from it on.
    pub from: Lexed<'s>,
    /// What was expected at the first of them, where the parser refuses it.
    pub expected: Expected,
}

/// Explains why a source of these files has no tokens.
pub fn explain_refusal<S: Sink>(files: &[SourceFile<'_>], report: Report, sink: &mut S)
    ensures { Goes (S.state sink.old) (S.state sink.new) (spec.refusal_explained (map file_view files.now) report) }
{
    match report.place {
        Place::Byte(at) => push_refusal(place_in(files, at), report.rule, sink),
        _ => push_text(sink, b""),
    }
}

/// A byte of a source of these files, which is read in a language.
pub(crate) fn site_at<'f, 's>(
    language: Language,
    files: &[SourceFile<'f>],
    source: Lexed<'s>,
    expected: Expected,
    at: usize,
) -> Site<'f, 's>
    ensures { spec.site_of result
        ≡ spec.seen_at language (map file_view files.now) (read_of source.entry) (expected_of expected) at }
{
    let (before, from) = source.split_at(at);
    Site {
        language,
        place: place_in(files, at),
        before,
        from,
        expected,
    }
}

/// Writes why a source has no tokens.
fn push_refusal<S: Sink>(place: FilePlace<'_>, rule: Rule, sink: &mut S)
    ensures { Goes (S.state sink.old) (S.state sink.new)
        (spec.paragraph (spec.refusal_told (spot_view place.entry) rule)) }
{
    push_head(place, rule, sink);
    push_refusal_sentence(place, rule, sink);
    push_rest(place, Notes::none(), refusal_help(place, rule), sink);
    push_text(sink, b"");
}

/// Writes what is wrong where a source has no tokens.
pub(crate) fn push_refusal_sentence<S: Sink>(place: FilePlace<'_>, rule: Rule, sink: &mut S)
    ensures { Goes (S.state sink.old) (S.state sink.new) (spec.refusal_sentence (spot_view place.entry) rule) }
{
    let (_, from) = place.halves();
    push_refused(from, sink);
    push_text(sink, refusal_said(place, rule).0.as_bytes());
}

/// What a designer does about it.
pub(crate) fn refusal_help(place: FilePlace<'_>, rule: Rule) -> &'static [u8]
    ensures { result.now ≡ (spec.refusal_said (spot_view place.entry) rule).1 }
{
    let (_, help) = refusal_said(place, rule);
    help.as_bytes()
}

/// What is said where a source has no tokens.
fn refusal_said(place: FilePlace<'_>, rule: Rule) -> Said
    ensures { (result.0.now, result.1.now) ≡ spec.refusal_said (spot_view place.entry) rule }
{
    let (_, from) = place.halves();
    said_refused(from, rule)
}

/// What the tokens around a byte tell of its fault.
fn hint_of<'s>(site: Site<'_, 's>, source: Lexed<'s>, report: Report) -> Hint<'s>
    ensures { hint_view result ≡ spec.hint_of (spec.site_of site.entry) (read_of source.entry) report }
{
    hint_at(source, site.before.tokens, site.from.tokens, report)
}

/// Writes what is wrong.
pub(crate) fn push_sentence<S: Sink>(
    site: Site<'_, '_>,
    source: Lexed<'_>,
    report: Report,
    sink: &mut S,
)
    ensures { Goes (S.state sink.old) (S.state sink.new)
        (spec.sentence_of (spec.site_of site.entry) (read_of source.entry) report) }
{
    let hint = hint_of(site, source, report);
    if hint.is_nothing() {
        push_usual(site, report, sink);
    } else {
        push_hint(site.from, hint, sink);
    }
}

/// What a designer does about it.
pub(crate) fn help_of(site: Site<'_, '_>, source: Lexed<'_>, report: Report) -> &'static [u8]
    ensures { result.now ≡ spec.help_of (spec.site_of site.entry) (read_of source.entry) report }
{
    let (_, usual) = said_at(site, report.rule);
    help(hint_of(site, source, report), usual.as_bytes())
}

/// Writes what is said of a rule.
fn push_usual<S: Sink>(site: Site<'_, '_>, report: Report, sink: &mut S)
    ensures { Goes (S.state sink.old) (S.state sink.new) (spec.usual_sentence (spec.site_of site.entry) report) }
{
    push_reported(site.from, report, sink);
    push_text(sink, said_at(site, report.rule).0.as_bytes());
}

/// Writes what a report is told of.
fn push_reported<S: Sink>(from: Lexed<'_>, report: Report, sink: &mut S)
    ensures { Goes (S.state sink.old) (S.state sink.new) (spec.reported (read_of from.entry) report) }
{
    match report.subject {
        Subject::Nothing => push_text(sink, b""),
        Subject::Lengths { found, needed } => {
            push_subject(from, sink);
            push_text(sink, report.rule.words().middle.as_bytes());
            push_number(sink, found as u64);
            push_text(sink, b" and ");
            push_number(sink, needed as u64);
        }
        _ => push_subject(from, sink),
    }
}

/// What is said of a rule at a byte: of some that of the form that stands there.
fn said_at(site: Site<'_, '_>, rule: Rule) -> Said
    ensures { (result.0.now, result.1.now) ≡ spec.said_at (spec.site_of site.entry) rule }
{
    match rule {
        Rule::Syntax(SyntaxRule::Unexpected) => unexpected_said(site),
        Rule::Name(NameRule::LeftOut) => {
            left_out_form(site.language, site.before.tokens, first_text(site.from))
        }
        Rule::Elab(ElabRule::NoGeneric) => no_generic_said(names_entity(site.before.tokens)),
        _ => said_of(rule),
    }
}

/// What is said of a token that can't stand there: what was expected for sure; else the form that
/// isn't read; else what may be expected.
fn unexpected_said(site: Site<'_, '_>) -> Said
    ensures { (result.0.now, result.1.now) ≡ spec.unexpected_said (spec.site_of site.entry) }
{
    let form = form_at(site);
    match site.expected {
        Expected::Surely(said) => said,
        Expected::Perhaps(said) => if is_plain(form) { said } else { form },
        Expected::Nothing => form,
    }
}

/// The form that isn't read, or the slip of the pen.
fn form_at(site: Site<'_, '_>) -> Said
    ensures { (result.0.now, result.1.now) ≡ spec.form_at (spec.site_of site.entry) }
{
    unexpected_form(
        site.language,
        site.before.tokens,
        begins_line(site.place),
        first_text(site.from),
    )
}

/// Whether nothing is said but that it can't stand there.
fn is_plain(said: Said) -> bool
    ensures { result ≡ spec.is_plain (said.entry.0.now, said.entry.1.now) }
{
    is_same_word(said.0.as_bytes(), b"can't stand here")
}

/// Writes what helps with a rule: a choice that is missing, where not each value has one; the
/// entities, where the top is none of them; the generics of the top, where a value is set for none
/// of them.
pub(crate) fn push_below<S: Sink>(site: Site<'_, '_>, source: Lexed<'_>, rule: Rule, sink: &mut S)
    ensures { Goes (S.state sink.old) (S.state sink.new)
        (spec.below (spec.site_of site.entry) (read_of source.entry) rule) }
{
    match rule {
        Rule::Name(NameRule::NoOthers) => push_missing(site.before, site.from, sink),
        Rule::Elab(ElabRule::NoTop) => push_names(Listing::Entities, source, sink),
        Rule::Elab(ElabRule::NoGeneric) => {
            if names_entity(site.before.tokens) {
                push_generics_of(site.from, source, sink);
            } else {
                push_text(sink, b"");
            }
        }
        _ => push_text(sink, b""),
    }
}

/// Writes where a fault is, as editors read it, and under what it is told.
pub(crate) fn push_head<S: Sink>(place: FilePlace<'_>, rule: Rule, sink: &mut S)
    ensures { Goes (S.state sink.old) (S.state sink.new) (spec.head_text (spot_view place.entry) rule) }
{
    push_position(place, sink);
    push_title(rule, sink);
}

/// Writes under what a fault is told.
pub(crate) fn push_title<S: Sink>(rule: Rule, sink: &mut S)
    ensures { Goes (S.state sink.old) (S.state sink.new) (spec.title_text rule) }
{
    let words = rule.words();
    push_text(sink, words.layer.as_bytes());
    push_text(sink, b" ");
    push_number(sink, u64::from(words.number));
    push_text(sink, b" ");
    push_text(sink, words.name.as_bytes());
    push_text(sink, b": ");
}

/// Writes what stands behind the sentence: the line with a mark under the place, the notes, and
/// what to do about it.
pub(crate) fn push_rest<S: Sink>(place: FilePlace<'_>, notes: Notes<'_>, help: &[u8], sink: &mut S)
    ensures { Goes (S.state sink.old) (S.state sink.new)
        (spec.rest_text (spot_view place.entry) (spec.notes_view notes.entry) help.now) }
{
    push_text(sink, b"\n");
    push_shown(place, sink);
    push_notes(notes, sink);
    push_help(help, sink);
}

/// Writes what a designer does about it.
pub(crate) fn push_help<S: Sink>(help: &[u8], sink: &mut S)
    ensures { Goes (S.state sink.old) (S.state sink.new) (spec.help_line help.now) }
{
    push_text(sink, b"help: ");
    push_text(sink, help);
    push_text(sink, b"\n");
}
