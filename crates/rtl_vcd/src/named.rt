//! The changes of names, by way of a page.

ghost use Rattle.std.specs.Prelude.{◌≡◌, ◌+◌, ◌<◌, ◌≤◌, ◌++◌, ◌||◌, [], if◌then◌else◌, All, length, map, take};
ghost use Rattle.byte_streams.specs.Written.{Goes};
ghost use Rattle.rtl_net.specs.Nets.{signal_view};
ghost use Rattle.rtl_net.specs.Showing.{IsShown};
ghost use Rattle.rtl_vcd.specs.Trace.{change, time_line, are_some};
ghost use Rattle.rtl_vcd.specs.Blocks.{changes_from, continued};
ghost use Rattle.rtl_vcd.specs.Ready.{AreReady};
ghost use Rattle.rtl_vcd.specs.Pages.{Passes, IsOpen};

use crate::change::{change_line, prints_otherwise};
use crate::page::{PAGE, Page};
use crate::ready::Run;
use crate::trace::push_time;
use byte_streams::{Sink, push_text};
use rtl_net::Signal;

/// A time, and the values of the nets before it and at it.
#[derive(Clone, Copy)]
pub(crate) struct Step<'a> {
    pub(crate) time: u64,
    pub(crate) old: &'a [u8],
    pub(crate) new: &'a [u8],
}

/// The changes of the first of these names, behind their time where that isn't printed yet: up to
/// one that leaves no room for another line in the page, or up to one that isn't ready. The first
/// of all is number `first`. Answers how many names these are, and whether the time is printed
/// then.
pub(crate) fn push_part<W: Sink>(
    first: usize,
    names: &[Signal],
    runs: &[Run],
    step: &Step,
    is_printed: bool,
    page: &mut Page,
    out: &mut W,
) -> (usize, bool)
    requires some { 0 < length names.now }
    requires before { All (IsShown (length step.now.old.now)) (map signal_view names.now) }
    requires after { All (IsShown (length step.now.new.now)) (map signal_view names.now) }
    requires ready { AreReady first (map signal_view names.now) runs.now }
    requires numbers { first + length names.now < 18446744073709551616 }
    requires opened { IsOpen is_printed page.old }
    ensures some { 0 < result.0 }
    ensures within { result.0 ≤ length names.now }
    ensures opened { IsOpen result.1 page.new }
    ensures text { Passes (W.state out.old) (W.state out.new) page.old page.new
        (continued is_printed step.now.time
        (changes_from first (take result.0 (map signal_view names.now)) step.now.old.now step.now.new.now)) }
    ensures printed { result.1
        ≡ (is_printed || are_some (changes_from first (take result.0 (map signal_view names.now)) step.now.old.now
        step.now.new.now)) }
{
    let many = append_changes(first, names, runs, step, page);
    if page.text().is_empty() {
        return (many, is_printed);
    }
    put_time(step.time, is_printed, out);
    turn(page, out);
    (many, true)
}

/// Appends the changes of the first of these names to the page, as `push_part` has them.
fn append_changes(
    first: usize,
    names: &[Signal],
    runs: &[Run],
    step: &Step,
    page: &mut Page,
) -> usize
    requires some { 0 < length names.now }
    requires before { All (IsShown (length step.now.old.now)) (map signal_view names.now) }
    requires after { All (IsShown (length step.now.new.now)) (map signal_view names.now) }
    requires ready { AreReady first (map signal_view names.now) runs.now }
    requires numbers { first + length names.now < 18446744073709551616 }
    requires room { length page.old + 77 ≤ PAGE }
    ensures some { 0 < result }
    ensures within { result ≤ length names.now }
    ensures text { page.new ≡ page.old
        ++ changes_from first (take result (map signal_view names.now)) step.now.old.now step.now.new.now }
{
    let old = step.old;
    let new = step.new;
    for (place, run) in runs.iter().enumerate() {
        if !run.keeps(old, new) {
            if run.count == 0 {
                push_unready(first + place, &names[place], step, page);
                return place + 1;
            }
            run.push_other(page, old, new);
            if page.is_full() {
                return place + 1;
            }
        }
    }
    runs.len()
}

/// Appends the change of the name with this number to the page. Answers whether it has one.
#[inline(never)]
fn push_unready(number: usize, signal: &Signal, step: &Step, page: &mut Page) -> bool
    requires before { IsShown (length step.now.old.now) (signal_view signal.now) }
    requires after { IsShown (length step.now.new.now) (signal_view signal.now) }
    requires room { length page.old + 77 ≤ PAGE }
    ensures text { page.new ≡ page.old ++ change number (signal_view signal.now) step.now.old.now step.now.new.now }
    ensures some { result ≡ are_some (change number (signal_view signal.now) step.now.old.now step.now.new.now) }
{
    if !prints_otherwise(number, signal, step.old, step.new) {
        return false;
    }
    page.push_all(&change_line(number, signal, step.new));
    true
}

/// The time, where it isn't printed yet.
fn put_time<W: Sink>(time: u64, is_printed: bool, out: &mut W)
    ensures { Goes (W.state out.old) (W.state out.new) (if is_printed then [] else (time_line time)) }
{
    if is_printed {
        return;
    }
    push_time(out, time);
}

/// Hands the page to the sink where it has no room for another line.
fn turn<W: Sink>(page: &mut Page, out: &mut W)
    ensures room { length page.new + 77 ≤ PAGE }
    ensures text { Passes (W.state out.old) (W.state out.new) [] page.new page.old }
{
    if !page.is_full() {
        return;
    }
    push_text(out, page.text());
    page.clear();
}
