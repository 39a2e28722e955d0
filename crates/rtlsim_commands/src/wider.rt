//! How far the wider language reads a source that the narrower one refuses.

ghost use Rattle.std.specs.Prelude.{◌≡◌, ℕ, List, map, true};
ghost use Rattle.byte_streams.specs.Written.{Goes};
ghost use Rattle.rtlsim_command_faults.specs.Places.{byte_of};
ghost use Rattle.rtlsim_commands.specs.Wider as spec;
ghost use Rattle.vhdl_front_rules.specs.Asking.{asked_view};
ghost use Rattle.vhdl_source_files.specs.Files.{file_view, spot_view};

use byte_streams::{Sink, push_number, push_text};
use rtlsim_command_faults::Fault;
use rtlsim_refusals::position_behind;
use std::alloc::Global;
use vhdl_front_rules::{Asked, Front};
use vhdl_source_files::{FilePlace, SourceFile, place_in};

/// Tells below the explanation of a source's first fault whether the wider language reads the
/// source, or goes on to a later line or another file. It takes the memory of that reading; where
/// it is refused, nothing is told.
pub(crate) fn push_wider<F: Front, S: Sink>(
    alloc: Global,
    files: &[SourceFile<'_>],
    asked: Asked<'_>,
    first: &Fault,
    sink: &mut S,
)
    ensures { spec.TellsWider true (map file_view files.now) (asked_view asked.entry) (byte_of first.now)
        (S.state sink.old) (S.state sink.new) }
{
    if let Some(at) = first.byte() {
        push_reading::<F, S>(alloc, files, asked, at, sink);
    }
}

/// Reads the source in the wider language, and writes what is told of that below a fault at this
/// byte.
fn push_reading<F: Front, S: Sink>(
    alloc: Global,
    files: &[SourceFile<'_>],
    asked: Asked<'_>,
    first: usize,
    sink: &mut S,
)
    ensures { (line : List ℕ) × spec.Widens (map file_view files.now) (asked_view asked.entry) first line
        × Goes (S.state sink.old) (S.state sink.new) line }
{
    match F::open(alloc, asked.widely()) {
        Ok(_net) => push_text(sink, b"help: read with --wide: there this source is read\n"),
        Err(fault) => {
            if let Some(at) = Fault::from(fault).byte() {
                push_stopped(files, first, at, sink);
            }
        }
    }
}

/// Writes how far the reading goes that stops at a byte, below a fault at another one.
fn push_stopped<S: Sink>(files: &[SourceFile<'_>], first: usize, at: usize, sink: &mut S)
    ensures { Goes (S.state sink.old) (S.state sink.new) (spec.stopped_line (map file_view files.now) first at) }
{
    let (begun, stopped) = (place_in(files, first), place_in(files, at));
    if first < at && is_further(begun, stopped) {
        push_further(begun, stopped, sink);
    }
}

/// Whether a place stands in another file than the first one, or in a later line.
fn is_further(first: FilePlace<'_>, place: FilePlace<'_>) -> bool
    ensures { result ≡ spec.is_further (spot_view first.entry) (spot_view place.entry) }
{
    !is_of_one_file(first, place) || line_of(first) < line_of(place)
}

fn is_of_one_file(first: FilePlace<'_>, place: FilePlace<'_>) -> bool
    ensures { result ≡ spec.is_of_one_file (spot_view first.entry) (spot_view place.entry) }
{
    first.file.name == place.file.name
}

/// The line of a place, from 1.
fn line_of(place: FilePlace<'_>) -> usize
    ensures { result ≡ spec.line_of (spot_view place.entry) }
{
    let (before, _) = place.halves();
    position_behind(before).line
}

/// Writes to which line the reading goes on.
fn push_further<S: Sink>(first: FilePlace<'_>, place: FilePlace<'_>, sink: &mut S)
    ensures { Goes (S.state sink.old) (S.state sink.new)
        (spec.further_line (spot_view first.entry) (spot_view place.entry)) }
{
    push_text(sink, b"help: read with --wide: there it goes on to line ");
    push_number(sink, line_of(place) as u64);
    push_file(first, place, sink);
    push_text(sink, b"\n");
}

/// Writes the name of a place's file where it is another one than the first's.
fn push_file<S: Sink>(first: FilePlace<'_>, place: FilePlace<'_>, sink: &mut S)
    ensures { Goes (S.state sink.old) (S.state sink.new)
        (spec.in_file (spot_view first.entry) (spot_view place.entry)) }
{
    if is_of_one_file(first, place) {
        return;
    }
    push_text(sink, b" of ");
    push_text(sink, place.file.name);
}
