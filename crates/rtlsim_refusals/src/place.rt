//! Where a byte stands in a text.

ghost use Rattle.std.specs.Prelude.{◌≡◌, ◌+◌, ◌<◌, ◌≤◌, ◌^◌, flat_map, length};
ghost use Rattle.std.specs.List.{prefix_len};
ghost use Rattle.byte_streams.specs.Written.{Goes};
ghost use Rattle.rtlsim_refusals.specs.Places as spec;
ghost use Rattle.rtlsim_refusals.specs.Explained.{position_text};
ghost use Rattle.vhdl_source_files.specs.Files.{before, spot_view};

use byte_streams::{Sink, push_number, push_text};
use rtl_stim_lines::without_return;
use vhdl_source_files::{FilePlace, cut_line};

/// A place as editors tell it, from line 1 and column 1 on.
#[derive(Clone, Copy)]
pub struct Position {
    pub line: usize,
    pub column: usize,
}

/// Where the byte behind these bytes stands, the first of which stands here.
pub fn position_from(here: Position, bytes: &[u8]) -> Position
    requires line { here.line + length bytes.now < 2 ^ 64 }
    requires column { here.column + length bytes.now < 2 ^ 64 }
    ensures { result ≡ spec.position_from here.line here.column bytes.now }
{
    let mut line = here.line;
    let mut column = here.column;
    let mut left = bytes;
    while let [byte, rest @ ..] = left {
        if *byte == b'\n' {
            line += 1;
            column = 1;
        } else {
            column += 1;
        }
        left = rest;
    }
    Position { line, column }
}

/// Where the byte behind these bytes stands.
pub fn position_behind(before: &[u8]) -> Position
    ensures { result ≡ spec.position_behind before.now }
{
    position_from(Position { line: 1, column: 1 }, before)
}

/// What stands of its line before a byte that these bytes lead to.
pub fn line_before(before: &[u8]) -> &[u8]
    ensures { result.now ≡ spec.line_before before.now }
{
    let mut line = before;
    let mut bytes = before;
    while let [byte, rest @ ..] = bytes {
        if *byte == b'\n' {
            line = rest;
        }
        bytes = rest;
    }
    line
}

/// What stands of its line from a byte on, without the carriage return at the line's end.
pub fn line_after(after: &[u8]) -> &[u8]
    ensures { result.now ≡ spec.line_after after.now }
{
    without_return(&after[..line_len(after)])
}

/// How many bytes stand before the first line feed.
fn line_len(after: &[u8]) -> usize
    ensures value { result ≡ prefix_len spec.in_line after.now }
    ensures within { result ≤ length after.now }
{
    after.iter().take_while(|byte| **byte != b'\n').count()
}

/// Writes where a byte stands, as editors read it.
pub(crate) fn push_position<S: Sink>(place: FilePlace<'_>, sink: &mut S)
    ensures { Goes (S.state sink.old) (S.state sink.new)
        (position_text place.entry.file.name.now (spec.position_behind (before (spot_view place.entry)))) }
{
    let (before, _) = place.halves();
    let position = position_behind(before);
    push_text(sink, place.file.name);
    push_text(sink, b":");
    push_number(sink, position.line as u64);
    push_text(sink, b":");
    push_number(sink, position.column as u64);
    push_text(sink, b": ");
}

/// Writes the line of a byte, and below it a mark at the byte; of a long line what stands round the
/// byte.
pub(crate) fn push_shown<S: Sink>(place: FilePlace<'_>, sink: &mut S)
    ensures { Goes (S.state sink.old) (S.state sink.new) (spec.line_shown (spot_view place.entry)) }
{
    let (before, from) = place.halves();
    let line = cut_line(line_before(before), line_after(from));
    push_text(sink, line.cut);
    push_text(sink, line.before);
    push_text(sink, line.after);
    push_text(sink, line.more);
    push_text(sink, b"\n");
    push_blanks(line.cut, sink);
    push_blanks(line.before, sink);
    push_text(sink, b"^\n");
}

/// Writes blanks as wide as these bytes.
fn push_blanks<S: Sink>(bytes: &[u8], sink: &mut S)
    ensures { Goes (S.state sink.old) (S.state sink.new) (flat_map spec.blank bytes.now) }
{
    for byte in bytes {
        push_blank(*byte, sink);
    }
}

/// Writes a tab for a tab, and a space for another byte.
fn push_blank<S: Sink>(byte: u8, sink: &mut S)
    ensures { Goes (S.state sink.old) (S.state sink.new) (spec.blank byte) }
{
    if byte == b'\t' {
        push_text(sink, b"\t");
    } else {
        push_text(sink, b" ");
    }
}

/// Whether nothing stands before a byte in its line, but something in the lines before.
pub(crate) fn begins_line(place: FilePlace<'_>) -> bool
    ensures { result ≡ spec.begins_line (spot_view place.entry) }
{
    let (before, _) = place.halves();
    is_blank(line_before(before)) && !is_blank(before)
}

/// Whether these bytes are separators alone.
fn is_blank(mut bytes: &[u8]) -> bool
    ensures { result ≡ spec.is_blank bytes.entry.now }
{
    while let [b' ' | b'\t' | b'\n'..=b'\r', rest @ ..] = bytes {
        bytes = rest;
    }
    bytes.is_empty()
}
