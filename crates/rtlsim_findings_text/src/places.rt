//! Places in files, found without a walk over the whole file for each.

ghost use Rattle.std.specs.Prelude.{◌≡◌, ◌++◌, All, map, take, IfOk, OnOk};
ghost use Rattle.rtlsim_refusals.specs.Explained as said;
ghost use Rattle.rtlsim_refusals.specs.Places as spec;
ghost use Rattle.vhdl_source_files.specs.Files as spots;
ghost use Rattle.vhdl_source_files.specs.Files.{file_view};
ghost use Rattle.rtlsim_findings_text.specs.Marks.{AreMarks, AreMarked, IsMarked, Stands, view};
ghost use Rattle.rtlsim_findings_text.specs.Placed as placed;

use rtl_net::{Net, NoMemory};
use rtlsim_listing::push_decimal;
use rtlsim_refusals::{Position, line_after, position_from};
use std::alloc::Global;
use vhdl_source_files::{FilePlace, SourceFile, halves};

/// So many bytes stand between two marks.
const STEP: usize = 1024;

/// So many bytes from a byte on decide what is shown of its line: one more than are shown whole,
/// and a carriage return.
const AHEAD: usize = 202;

/// A file, and where the byte at each mark of it stands.
#[derive(Drop)]
pub(crate) struct MarkedFile<'a> {
    pub file: SourceFile<'a>,
    pub marks: Vec<Position>,
}

/// What findings and remarks are told with: the files of their netlist's source, with marks.
#[derive(Clone, Copy)]
pub(crate) struct Site<'a> {
    pub alloc: Global,
    pub files: &'a [MarkedFile<'a>],
    pub net: &'a Net,
}

/// The marks of a text.
fn marks_of(alloc: Global, text: &[u8]) -> Result<Vec<Position>, NoMemory>
    ensures { IfOk result (λ marks. AreMarks text.now marks.items) }
{
    let mut marks = Vec::new(alloc);
    let mut here = Position { line: 1, column: 1 };
    let mut at = 0;
    marks.push(here)?;
    while text.len() - at >= STEP {
        here = position_from(here, &text[at..at + STEP]);
        at += STEP;
        marks.push(here)?;
    }
    Ok(marks)
}

/// These files, with their marks. It takes a walk over each, and memory for the marks.
pub(crate) fn mark_files<'a>(
    alloc: Global,
    files: &[SourceFile<'a>],
) -> Result<Vec<MarkedFile<'a>>, NoMemory>
    ensures { IfOk result (λ marked. AreMarked (map file_view files.now) marked.items) }
{
    let mut marked = Vec::new(alloc);
    for file in files {
        let marks = marks_of(alloc, file.text)?;
        marked.push(MarkedFile { file: *file, marks })?;
    }
    Ok(marked)
}

/// Where a byte of a file stands, or its end.
fn position_at(file: &MarkedFile<'_>, at: usize) -> Position
    requires marked { IsMarked file.now }
    ensures { result ≡ spec.position_behind (take at file.now.file.text.now) }
{
    let text = file.file.text;
    let at = at.min(text.len());
    let mark = at / STEP;
    position_from(file.marks[mark], &text[mark * STEP..at])
}

/// A byte of a file, and where it stands.
#[derive(Clone, Copy)]
pub(crate) struct PlacedByte<'a> {
    pub byte: FilePlace<'a>,
    pub position: Position,
}

/// A byte of a file, with where it stands.
fn placed_in<'a>(file: &MarkedFile<'a>, at: usize) -> PlacedByte<'a>
    requires marked { IsMarked file.now }
    ensures is { spots.spot_view result.byte ≡ spots.spot (view file.now) at }
    ensures stands { Stands result }
{
    PlacedByte {
        byte: FilePlace {
            file: file.file,
            at,
        },
        position: position_at(file, at),
    }
}

/// A byte of the files' joined text.
pub(crate) fn place_at<'a>(files: &[MarkedFile<'a>], at: usize) -> PlacedByte<'a>
    requires marked { All IsMarked files.now }
    ensures is { spots.spot_view result.byte ≡ spots.spot_in (map view files.now) at }
    ensures stands { Stands result }
{
    let mut at = at;
    for number in 0..files.len() {
        let file = &files[number];
        let length = file.file.text.len();
        if number + 1 == files.len() || at <= length {
            return placed_in(file, at);
        }
        at -= length + 1;
    }
    PlacedByte {
        byte: FilePlace {
            file: SourceFile {
                name: &[],
                text: &[],
            },
            at,
        },
        position: Position { line: 1, column: 1 },
    }
}

/// What stands in its line before a byte of the files' joined text, and what stands there from it
/// on, of which the next 202 bytes are looked at.
pub(crate) fn halves_at<'a>(files: &[MarkedFile<'a>], at: usize) -> (&'a [u8], &'a [u8])
    requires marked { All IsMarked files.now }
    ensures before { result.0.now ≡ spec.line_before (spots.before (spots.spot_in (map view files.now) at)) }
    ensures after { result.1.now ≡ spec.line_after (take 202 (spots.after (spots.spot_in (map view files.now) at))) }
{
    let place = place_at(files, at);
    let (before, after) = place.byte.halves();
    let (next, _) = halves(after, AHEAD);
    (ending(before, place.position), line_after(next))
}

/// What stands behind the last line feed of the bytes before a byte that stands here.
fn ending(before: &[u8], position: Position) -> &[u8]
    requires here { position ≡ spec.position_behind before.now }
    ensures { result.now ≡ spec.line_before before.now }
{
    let width = position.column - 1;
    let start = before.len() - width;
    &before[start..]
}

/// Appends a place as editors read it; the source's name where there is none.
#[tactic(auto, unfolding(crate::specs::Placed::place_text))]
pub(crate) fn push_place(
    files: &[MarkedFile<'_>],
    place: Option<usize>,
    text: &mut Vec<u8>,
) -> Result<(), NoMemory>
    requires marked { All IsMarked files.now }
    ensures { OnOk result (text.new.items ≡ text.old.items ++ placed.place_text (map view files.now) place) }
{
    match place {
        Some(at) => push_spot(place_at(files, at), text),
        None => {
            text.extend_from_slice(last_name(files))?;
            Ok(text.extend_from_slice(b": ")?)
        }
    }
}

/// Appends a byte of a file as editors read it.
fn push_spot(place: PlacedByte<'_>, text: &mut Vec<u8>) -> Result<(), NoMemory>
    requires stands { Stands place }
    ensures { OnOk result (text.new.items ≡ text.old.items ++ placed.spot_text (spots.spot_view place.entry.byte)) }
{
    text.extend_from_slice(place.byte.file.name)?;
    push_position(place.position, text)
}

/// The name by which the source as a whole is told: that of its last file.
fn last_name<'a>(files: &[MarkedFile<'a>]) -> &'a [u8]
    ensures { result.now ≡ spots.source_name (map view files.now) }
{
    let mut name: &[u8] = &[];
    for file in files {
        name = file.file.name;
    }
    name
}

/// Appends a line and a column, `:LINE:COLUMN: `.
fn push_position(position: Position, text: &mut Vec<u8>) -> Result<(), NoMemory>
    ensures { OnOk result (text.new.items ≡ said.position_text text.old.items position) }
{
    text.extend_from_slice(b":")?;
    push_decimal(position.line, text)?;
    text.extend_from_slice(b":")?;
    push_decimal(position.column, text)?;
    text.extend_from_slice(b": ")?;
    Ok(())
}
