//! Entries that are taken over.

ghost use Rattle.std.specs.Prelude.{◌≡◌, ℕ, ◌+◌, ◌<◌, ◌≤◌, length, slice_index_or, None, IsSome};
ghost use Rattle.std.specs.List.{range_with_len};
ghost use Rattle.rtl_model.specs.nets.FlatNetlist.{process_at};
ghost use Rattle.rtl_model.specs.simulation.Netlist.{process};
ghost use Rattle.rtl_eval.specs.Runs.{IsOf};
ghost use Rattle.rtl_kernel.specs.drivers.Transactions.{nets_of};
ghost use Rattle.rtl_net.specs.Core.{core};
ghost use Rattle.rtl_net.specs.Nets.{flat};
ghost use Rattle.rtl_levels.specs.Kept.{IsPlanned};
ghost use Rattle.rtl_levels.specs.Pieces.{AreCutFor, IsPiece};
ghost use Rattle.rtl_levels.specs.States.{HaveReaders, StandTogether, StateTakesOver, StateTakesPart};

use crate::schedule::Schedule;
use crate::state::State;
use rtl_drives::{Drives, Span};
use rtl_net::{Driver, Net};
use rtl_net_groups::Groups;

/// Gives the nets of a process's drivers the entries that a run has left, and marks the readers and
/// the chunks of those that change. If its drivers are one cut, nothing is looked up for a place.
#[inline(always)]
pub fn take_over(net: &Net, schedule: &Schedule, number: usize, outcome: &Drives, state: &mut State)
    requires planned { IsPlanned (core net.now) schedule.now }
    requires there { number < length net.now.processes }
    requires own { IsOf (process_at (flat net.now) number) outcome.now }
    requires have_readers { HaveReaders schedule.now.readers state.old }
    ensures { StateTakesOver schedule.now.readers (process (core net.now) number).drives outcome.now.entries
        state.old state.new }
{
    match schedule.wholes[number] {
        Some(first) => take_whole(&schedule.readers, first, outcome, state),
        None => {
            let processes = net.processes();
            let drives = processes[number].drives.as_slice();
            take_spans(drives, schedule, number, outcome, state);
        }
    }
}

/// The same where the drivers' nets stand one behind the other from this one on, in one group.
#[inline(never)]
fn take_whole(readers: &Groups, first: usize, outcome: &Drives, state: &mut State)
    requires { StandTogether readers.now first (length outcome.now.entries) state.old }
    ensures { let entries = outcome.now.entries in
        StateTakesOver readers.now (range_with_len first (length entries)) entries state.old state.new }
{
    let spans = outcome.assigned();
    if spans.len() == 1 {
        let span = spans[0];
        let assigned = outcome.values(span);
        state.set_short(readers, first + span.first, assigned);
    } else {
        take_each(readers, first, outcome, state);
    }
}

/// The same, however many spans are assigned.
#[inline(never)]
fn take_each(readers: &Groups, first: usize, outcome: &Drives, state: &mut State)
    requires { StandTogether readers.now first (length outcome.now.entries) state.old }
    ensures { let entries = outcome.now.entries in
        StateTakesOver readers.now (range_with_len first (length entries)) entries state.old state.new }
{
    for span in outcome.assigned() {
        let assigned = outcome.values(*span);
        state.set_run(readers, first + span.first, assigned);
    }
}

/// The same where these are the drivers.
#[inline(never)]
fn take_spans(
    drives: &[Driver],
    schedule: &Schedule,
    number: usize,
    outcome: &Drives,
    state: &mut State,
)
    requires each_driver { length drives.now ≡ length outcome.now.entries }
    requires cuts { AreCutFor schedule.now (nets_of drives.now) number }
    requires have_readers { HaveReaders schedule.now.readers state.old }
    ensures { StateTakesOver schedule.now.readers (nets_of drives.now) outcome.now.entries state.old state.new }
{
    for span in outcome.assigned() {
        take_span(drives, schedule, number, outcome, *span, state);
    }
}

/// The same at the places of a span, each of which has an entry, piece by piece.
fn take_span(
    drives: &[Driver],
    schedule: &Schedule,
    number: usize,
    outcome: &Drives,
    span: Span,
    state: &mut State,
)
    requires each_driver { length drives.now ≡ length outcome.now.entries }
    requires within { span.first + span.len ≤ length outcome.now.entries }
    requires all { (k : ℕ) → k < span.len → IsSome (slice_index_or outcome.now.entries (span.first + k) None) }
    requires cuts { AreCutFor schedule.now (nets_of drives.now) number }
    requires have_readers { HaveReaders schedule.now.readers state.old }
    ensures { StateTakesPart schedule.now.readers (nets_of drives.now) outcome.now.entries
        span.first (span.first + span.len) state.old state.new }
{
    let end = span.first + span.len;
    let mut first = span.first;
    while first < end {
        let beyond = piece_end(drives, schedule, number, first, end);
        let piece = Span {
            first,
            len: beyond - first,
        };
        let assigned = outcome.values(piece);
        state.set_run(&schedule.readers, drives[first].net, assigned);
        first = beyond;
    }
}

/// Where the piece of the cut that has this place ends, or the end if it comes first.
fn piece_end(
    drives: &[Driver],
    schedule: &Schedule,
    number: usize,
    first: usize,
    end: usize,
) -> usize
    requires cuts { AreCutFor schedule.now (nets_of drives.now) number }
    requires some { first < end }
    requires within { end ≤ length drives.now }
    ensures { IsPiece schedule.now.readers.of_net (nets_of drives.now) first end result }
{
    let _drivers = drives.len();
    let cuts = schedule.cuts.of(number);
    let numbers = schedule.cuts.numbers(number);
    let cut = cuts[numbers[first]];
    end.min(cut.place + cut.len)
}
