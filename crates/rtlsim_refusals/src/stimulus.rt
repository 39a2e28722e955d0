//! Explanations of the faults of a stimulus, of NAME=VALUE words and of a run.

ghost use Rattle.std.specs.Prelude.{◌≡◌, true, IfOk, None, OnErr, option_map};
ghost use Rattle.byte_streams.specs.Written.{Goes};
ghost use Rattle.fault_rules.specs.Rules.{words_of};
ghost use Rattle.rtlsim_refusals.specs.Stimuli as spec;
ghost use Rattle.rtlsim_listing.specs.Printing.{Prints};

use crate::explaining::{push_help, push_title};
use crate::place::line_after;
use crate::race::{first_setting, race_line};
use byte_streams::{Sink, push_number, push_text};
use fault_rules::{Place, Report, Rule, RunRule, StimRule, Subject};
use rtl_net::{Net, NoMemory};
use rtlsim_listing::net_name;
use std::alloc::{AllocError, Global};

/// Explains why a stimulus is refused, whose text shows the line, or a NAME=VALUE word, without a
/// text. It takes the memory of two names and of the words of a line at a race, and of such words
/// for the first of two lines; where that is refused, what went out is a beginning of the text.
pub fn explain_stim<S: Sink>(
    alloc: Global,
    file: &[u8],
    text: Option<&[u8]>,
    net: &Net,
    report: Report,
    sink: &mut S,
) -> Result<(), NoMemory>
    ensures printed { Prints result (S.state sink.old) (S.state sink.new)
        (spec.stim_explained file.now (option_map (λ t. t.now) text.entry) net.now report) }
    ensures memory { OnErr result (spec.takes_memory report ≡ true) }
{
    match (report.place, report.subject) {
        (Place::Time(time), Subject::Race { input, clock }) => explain_race(
            alloc,
            file,
            text,
            net,
            report.rule,
            (time, input, clock),
            sink,
        ),
        _ => explain_plain(alloc, file, text, report, sink),
    }
}

/// Explains a race, by its time, input and clock.
fn explain_race<S: Sink>(
    alloc: Global,
    file: &[u8],
    text: Option<&[u8]>,
    net: &Net,
    rule: Rule,
    race: (u64, usize, usize),
    sink: &mut S,
) -> Result<(), NoMemory>
    ensures { Prints result (S.state sink.old) (S.state sink.new)
        (spec.race_explained file.now (option_map (λ t. t.now) text.entry) net.now rule race.0 race.1 race.2) }
{
    let (time, input, clock) = race;
    let line = race_line(alloc, net, time, input, text)?;
    let input = net_name(alloc, net, input)?;
    let clock = net_name(alloc, net, clock)?;
    push_race(file, text, rule, line, (time, &input, &clock), sink);
    Ok(())
}

/// Writes the explanation of a race, by its time and the names of its input and clock, in the line
/// that makes the input change.
fn push_race<S: Sink>(
    file: &[u8],
    text: Option<&[u8]>,
    rule: Rule,
    line: Option<usize>,
    race: (u64, &[u8], &[u8]),
    sink: &mut S,
)
    ensures { Goes (S.state sink.old) (S.state sink.new)
        (spec.paragraph file.now (option_map (λ t. t.now) text.entry) rule line None
        (spec.race_sentence rule race.entry.0 race.entry.1.now race.entry.2.now)) }
{
    let (time, input, clock) = race;
    push_head(file, rule, line, sink);
    push_race_sentence(rule, time, input, clock, sink);
    push_rest(file, text, rule, line, None, sink);
}

/// Writes what races: two nets of these names.
fn push_race_sentence<S: Sink>(rule: Rule, time: u64, input: &[u8], clock: &[u8], sink: &mut S)
    ensures { Goes (S.state sink.old) (S.state sink.new) (spec.race_sentence rule time input.now clock.now) }
{
    push_time(rule, time, sink);
    push_text(sink, input);
    push_text(sink, rule.words().closing.as_bytes());
    push_text(sink, clock);
}

/// Writes a time, and what is said of a rule before it and behind it.
fn push_time<S: Sink>(rule: Rule, time: u64, sink: &mut S)
    ensures { Goes (S.state sink.old) (S.state sink.new) (spec.time_text rule time) }
{
    let words = rule.words();
    push_text(sink, words.opening.as_bytes());
    push_number(sink, time);
    push_text(sink, words.middle.as_bytes());
}

/// Explains a fault that names no net.
fn explain_plain<S: Sink>(
    alloc: Global,
    file: &[u8],
    text: Option<&[u8]>,
    report: Report,
    sink: &mut S,
) -> Result<(), NoMemory>
    ensures printed { Prints result (S.state sink.old) (S.state sink.new)
        (spec.plain_explained file.now (option_map (λ t. t.now) text.entry) report.rule report.place) }
    ensures memory { OnErr result (spec.is_of_two report.rule ≡ true) }
{
    let line = line_of(report.place);
    let first = first_of(alloc, report.rule, line, text)?;
    push_plain(file, text, report.rule, line, first, sink);
    Ok(())
}

/// Writes the explanation of a fault that names no net, in a line, with the first of two.
fn push_plain<S: Sink>(
    file: &[u8],
    text: Option<&[u8]>,
    rule: Rule,
    line: Option<usize>,
    first: Option<usize>,
    sink: &mut S,
)
    ensures { Goes (S.state sink.old) (S.state sink.new)
        (spec.paragraph file.now (option_map (λ t. t.now) text.entry) rule line first (words_of rule).middle.now) }
{
    push_head(file, rule, line, sink);
    push_text(sink, rule.words().middle.as_bytes());
    push_rest(file, text, rule, line, first, sink);
}

/// Where a line can't stand beside another of its input, the number of the first of the two.
fn first_of(
    alloc: Global,
    rule: Rule,
    line: Option<usize>,
    text: Option<&[u8]>,
) -> Result<Option<usize>, AllocError>
    ensures first { IfOk result (λ first. first ≡ spec.first_of rule line (option_map (λ t. t.now) text.entry)) }
    ensures memory { OnErr result (spec.is_of_two rule ≡ true) }
{
    if !is_of_two(rule) {
        return Ok(None);
    }
    match (line, text) {
        (Some(line), Some(text)) => first_setting(alloc, numbered_line(line, text), text),
        _ => Ok(None),
    }
}

fn is_of_two(rule: Rule) -> bool
    ensures { result ≡ spec.is_of_two rule }
{
    matches!(rule, Rule::Stim(StimRule::SetTwice | StimRule::ClockAndSet))
}

fn line_of(place: Place) -> Option<usize>
    ensures { result ≡ spec.line_of place }
{
    match place {
        Place::Line(line) => Some(line),
        _ => None,
    }
}

/// Writes a fault's place, and under what it is told.
fn push_head<S: Sink>(file: &[u8], rule: Rule, line: Option<usize>, sink: &mut S)
    ensures { Goes (S.state sink.old) (S.state sink.new) (spec.head file.now rule line) }
{
    push_place(file, line, sink);
    push_title(rule, sink);
}

/// Writes a file, and a line where there is one.
fn push_place<S: Sink>(file: &[u8], line: Option<usize>, sink: &mut S)
    ensures { Goes (S.state sink.old) (S.state sink.new) (spec.place_text file.now line) }
{
    push_text(sink, file);
    push_line_number(line, sink);
    push_text(sink, b": ");
}

/// Writes the number of a line, where there is one.
fn push_line_number<S: Sink>(line: Option<usize>, sink: &mut S)
    ensures { Goes (S.state sink.old) (S.state sink.new) (spec.line_number line) }
{
    match line {
        Some(line) => {
            push_text(sink, b":");
            push_number(sink, line as u64);
        }
        None => push_text(sink, b""),
    }
}

/// Writes what stands behind the sentence: the line, where there is one and a text, the first of
/// two, and the help.
fn push_rest<S: Sink>(
    file: &[u8],
    text: Option<&[u8]>,
    rule: Rule,
    line: Option<usize>,
    first: Option<usize>,
    sink: &mut S,
)
    ensures { Goes (S.state sink.old) (S.state sink.new)
        (spec.rest file.now (option_map (λ t. t.now) text.entry) rule line first) }
{
    push_text(sink, b"\n");
    push_shown(line, text, sink);
    push_first(file, text, first, sink);
    push_help(rule.words().help.as_bytes(), sink);
}

/// Writes a note at the first of two lines, where there is one.
fn push_first<S: Sink>(file: &[u8], text: Option<&[u8]>, first: Option<usize>, sink: &mut S)
    ensures { Goes (S.state sink.old) (S.state sink.new)
        (spec.first_noted file.now (option_map (λ t. t.now) text.entry) first) }
{
    match first {
        Some(_) => {
            push_place(file, first, sink);
            push_text(sink, b"note: the first of the two\n");
            push_shown(first, text, sink);
        }
        None => push_text(sink, b""),
    }
}

/// Writes the line of this number of a text, where there are both.
fn push_shown<S: Sink>(line: Option<usize>, text: Option<&[u8]>, sink: &mut S)
    ensures { Goes (S.state sink.old) (S.state sink.new) (spec.shown line (option_map (λ t. t.now) text.entry)) }
{
    match (line, text) {
        (Some(line), Some(text)) => {
            push_text(sink, numbered_line(line, text));
            push_text(sink, b"\n");
        }
        _ => push_text(sink, b""),
    }
}

/// The line of this number of a text.
fn numbered_line(line: usize, text: &[u8]) -> &[u8]
    ensures { result.now ≡ spec.numbered_line line text.now }
{
    line_after(behind_lines(line.saturating_sub(1), text))
}

/// What stands behind so many lines.
fn behind_lines(mut count: usize, mut bytes: &[u8]) -> &[u8]
    ensures { result.now ≡ spec.behind_lines count bytes.entry.now }
{
    while let [byte, rest @ ..] = bytes {
        if count == 0 {
            return bytes;
        }
        if *byte == b'\n' {
            count -= 1;
        }
        bytes = rest;
    }
    bytes
}

/// Explains that a moment doesn't settle.
pub fn explain_unsettled<S: Sink>(file: &[u8], time: u64, sink: &mut S)
    ensures { Goes (S.state sink.old) (S.state sink.new) (spec.settle_explained file.now time) }
{
    let rule = Rule::Run(RunRule::NoSettling);
    push_head(file, rule, None, sink);
    push_time(rule, time, sink);
    push_rest(file, None, rule, None, None, sink);
}
