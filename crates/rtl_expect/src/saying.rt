//! The lines that tell all that differs, and words of lines.

ghost use Rattle.std.specs.Prelude.{◌≡◌, ◌-◌, ◌<◌, ◌≤◌, [], IfOk, None, length, map, option_map, slice_get, slice_index_or};
ghost use Rattle.byte_streams.specs.Written.{Goes};
ghost use Rattle.rtl_net.specs.Elaborated.{AreScopes};
ghost use Rattle.rtl_net.specs.Nets.{scope_view, signal_view};
ghost use Rattle.rtl_stim_lines.specs.Lines.{as_lines};
ghost use Rattle.rtl_expect.specs.Telling as spec;
ghost use Rattle.rtl_expect.specs.Watching.{difference_view, told_view};

use crate::difference::{Codes, Difference, FirstDifferences, WantedCodes};
use crate::literals::Literals;
use crate::reading::{line_at, parts_of};
use crate::telling::{letter, position};
use byte_streams::{Sink, push_number, push_text};
use rtl_net::{Net, Scope, Signal, SignalKind, value_text};
use rtl_signal_names::push_name;
use rtl_stim_lines::words_of;
use std::alloc::{AllocError, Global};

/// Writes a line for each difference that is told, and how many more there are: `FILE:LINE: expect
/// 1 Differs: at TIME ns NAME is VALUE, not VALUE`, or `FILE:LINE: expect 2 AfterStop: at TIME ns
/// the run has stopped; VALUE was expected of NAME`. It takes no memory.
pub fn push_differences<L: Literals, S: Sink>(
    literals: &L,
    file: &[u8],
    net: &Net,
    differences: &FirstDifferences,
    sink: &mut S,
)
    ensures { Goes (S.state sink.old) (S.state sink.new) (spec.differences_said (L.names literals.now) file.now net.now
        (told_view differences.now) differences.now.more) }
{
    let told: &[Difference] = &differences.told;
    for difference in told {
        push_difference_said(literals, file, net, difference, sink);
    }
    push_more(differences.more, sink);
}

/// Writes the line of a difference.
fn push_difference_said<L: Literals, S: Sink>(
    literals: &L,
    file: &[u8],
    net: &Net,
    difference: &Difference,
    sink: &mut S,
)
    ensures { Goes (S.state sink.old) (S.state sink.new)
        (spec.difference_said (L.names literals.now) file.now net.now (difference_view difference.now)) }
{
    push_text(sink, file);
    push_text(sink, b":");
    push_number(sink, difference.line as u64);
    push_text(sink, b": ");
    push_rule(difference, sink);
    push_number(sink, difference.time);
    push_text(sink, b" ns ");
    push_of_signal(literals, net, difference, sink);
    push_text(sink, b"\n");
}

/// Writes the rule that is broken.
fn push_rule<S: Sink>(difference: &Difference, sink: &mut S)
    ensures { Goes (S.state sink.old) (S.state sink.new) (spec.rule_said (difference_view difference.now).found) }
{
    match difference.found {
        None => push_text(sink, b"expect 2 AfterStop: at "),
        Some(_) => push_text(sink, b"expect 1 Differs: at "),
    }
}

/// Writes what was found of the signal, and what was expected.
fn push_of_signal<L: Literals, S: Sink>(
    literals: &L,
    net: &Net,
    difference: &Difference,
    sink: &mut S,
)
    ensures { let d = difference_view difference.now in Goes (S.state sink.old) (S.state sink.new)
        (spec.of_signal_said (L.names literals.now) net.now (slice_get net.now.signals d.signal) d.found d.wanted) }
{
    net.is_elaborated();
    let Some(signal) = net.signals().get(difference.signal) else {
        return;
    };
    push_signal(literals, net.scopes(), signal, difference, sink);
}

/// Writes what was found of this signal, and what was expected.
fn push_signal<L: Literals, S: Sink>(
    literals: &L,
    scopes: &[Scope],
    signal: &Signal,
    difference: &Difference,
    sink: &mut S,
)
    requires scopes { AreScopes (map scope_view scopes.now) }
    requires there { signal.now.scope < length scopes.now }
    ensures { let d = difference_view difference.now in Goes (S.state sink.old) (S.state sink.new)
        (spec.signal_said (L.names literals.now) (map scope_view scopes.now) (signal_view signal.now)
        d.found d.wanted) }
{
    match &difference.found {
        None => {
            push_text(sink, b"the run has stopped; ");
            push_wanted(literals, signal, &difference.wanted, sink);
            push_text(sink, b" was expected of ");
            push_name(scopes, signal, sink);
        }
        Some(found) => {
            push_name(scopes, signal, sink);
            push_text(sink, b" is ");
            push_found(literals, signal, found, sink);
            push_text(sink, b", not ");
            push_wanted(literals, signal, &difference.wanted, sink);
        }
    }
}

/// Writes what was found of a signal, with literals by name.
fn push_found<L: Literals, S: Sink>(literals: &L, signal: &Signal, found: &Codes, sink: &mut S)
    ensures { Goes (S.state sink.old) (S.state sink.new)
        (spec.found_said (L.names literals.now) (signal_view signal.now) signal.now.kind found.now.items) }
{
    match signal.kind {
        SignalKind::Enumeration { .. } => push_literal(literals, signal, position(found), sink),
        kind => push_text(sink, &value_text(kind, found)),
    }
}

/// Writes what was expected of a signal, in the same form.
fn push_wanted<L: Literals, S: Sink>(
    literals: &L,
    signal: &Signal,
    wanted: &WantedCodes,
    sink: &mut S,
)
    ensures { Goes (S.state sink.old) (S.state sink.new)
        (spec.wanted_said (L.names literals.now) (signal_view signal.now) signal.now.kind wanted.now.items) }
{
    match signal.kind {
        SignalKind::Enumeration { .. } => match first_wanted(wanted) {
            Some(position) => push_literal(literals, signal, position, sink),
            None => push_text(sink, b"-"),
        },
        SignalKind::Integer { .. } | SignalKind::Boolean => push_number_wanted(
            signal.kind,
            wanted,
            sink,
        ),
        SignalKind::One | SignalKind::Vector { .. } => push_text(sink, &wanted_letters(wanted)),
    }
}

/// Writes what was expected of an integer, or of a boolean: its value, where all elements are; else
/// `x` where the last one is; else `-`.
fn push_number_wanted<S: Sink>(kind: SignalKind, wanted: &WantedCodes, sink: &mut S)
    ensures { Goes (S.state sink.old) (S.state sink.new)
        (spec.wanted_number kind (spec.all_wanted wanted.now.items)
        (slice_index_or wanted.now.items (length wanted.now.items - 1) None)) }
{
    match all_wanted(wanted) {
        Some(values) => push_text(sink, &value_text(kind, &values)),
        None => match last_wanted(wanted) {
            Some(_) => push_text(sink, b"x"),
            None => push_text(sink, b"-"),
        },
    }
}

/// The codes that are wanted, where each is, as bytes.
fn all_wanted(wanted: &[Option<u64>]) -> Option<Codes>
    requires few { length wanted.now ≤ 64 }
    ensures { option_map (λ codes. codes.items) result ≡ option_map (map spec.byte_of) (spec.all_wanted wanted.now) }
{
    let mut codes = Codes::new();
    for code in wanted {
        codes.push(byte_of((*code)?));
    }
    Some(codes)
}

/// The code as a byte. A wider one is no value's, and neither is the last byte.
fn byte_of(code: u64) -> u8
    ensures { result ≡ spec.byte_of code }
{
    if code < 256 { code as u8 } else { u8::MAX }
}

/// What is wanted of the last element.
fn last_wanted(wanted: &[Option<u64>]) -> Option<u64>
    ensures { result ≡ slice_index_or wanted.now (length wanted.now - 1) None }
{
    if wanted.is_empty() {
        return None;
    }
    wanted[wanted.len() - 1]
}

/// What is wanted of the first element.
fn first_wanted(wanted: &[Option<u64>]) -> Option<u64>
    ensures { result ≡ slice_index_or wanted.now 0 None }
{
    if wanted.is_empty() {
        return None;
    }
    wanted[0]
}

/// The letters of what is wanted.
fn wanted_letters(wanted: &[Option<u64>]) -> Codes
    requires few { length wanted.now ≤ 64 }
    ensures { result.items ≡ map spec.wanted_letter wanted.now }
{
    let mut letters = Codes::new();
    for code in wanted {
        letters.push(wanted_letter(*code));
    }
    letters
}

/// The letter of what is wanted.
fn wanted_letter(code: Option<u64>) -> u8
    ensures { result ≡ spec.wanted_letter code }
{
    match code {
        None => b'-',
        Some(code) if code < 9 => letter(code as u8),
        Some(_) => b'X',
    }
}

/// Writes the literal at a position: its name, where that is known.
fn push_literal<L: Literals, S: Sink>(literals: &L, signal: &Signal, position: u64, sink: &mut S)
    ensures { Goes (S.state sink.old) (S.state sink.new)
        (spec.literal_said (L.names literals.now) (signal_view signal.now) position) }
{
    match literals.name(signal, position) {
        Some(name) => push_text(sink, name),
        None => push_number(sink, position),
    }
}

/// Writes that there are so many more.
fn push_more<S: Sink>(more: usize, sink: &mut S)
    ensures { Goes (S.state sink.old) (S.state sink.new) (spec.more_said more) }
{
    if more == 0 {
        return;
    }
    push_text(sink, b"and ");
    push_number(sink, more as u64);
    push_text(sink, b" more\n");
}

/// The word at this place, from 0, of the line of this number; nothing where there is none. It
/// takes the memory of the text's lines and of the line's words.
pub fn word_in<'a>(
    alloc: Global,
    text: &'a [u8],
    line: usize,
    place: usize,
) -> Result<&'a [u8], AllocError>
    ensures { IfOk result (λ word. word.now ≡ spec.word_in line place text.now) }
{
    let parts = parts_of(alloc, text)?;
    let words = words_of(alloc, numbered_line(&parts, line))?;
    if place < words.len() {
        return Ok(words[place]);
    }
    Ok(&[])
}

/// The line of this number; nothing where there is none.
fn numbered_line<'a>(parts: &[&'a [u8]], line: usize) -> &'a [u8]
    ensures { result.now ≡ slice_index_or (as_lines (map (λ part. part.now) parts.now)) (line - 1) [] }
{
    let place = line.saturating_sub(1);
    if place < parts.len() {
        return line_at(parts, place);
    }
    &[]
}
