//! Reading a file of expected values.

ghost use Rattle.std.specs.Prelude.{◌≡◌, ◌≤◌, ◌<◌, ◌+◌, ◌∷◌, [], length, map, drop, IfOk, OnOk};
ghost use Rattle.std.specs.List.{slice_split};
ghost use Rattle.rtl_stim_lines.specs.Lines.{as_lines, ends_line};
ghost use Rattle.rtl_stim_lines.specs.Forms as forms;
ghost use Rattle.rtl_signal_names.specs.Naming.{HasNumbers};
ghost use Rattle.rtl_expect.specs.Lines as lines;
ghost use Rattle.rtl_expect.specs.Lines.{after_line, expected_in, in_line};
ghost use Rattle.rtl_expect.specs.Watching.{AreInOrder, expectation_view, list_view};
ghost use Rattle.rtl_expect.specs.Reading.{AreListed, IsExpected, Leads, all_placed};

use crate::expectation::Expectation;
use crate::faults::ExpectFault;
use crate::literals::Literals;
use crate::value::value_wanted;
use fault_rules::ExpectRule;
use rtl_net::Net;
use rtl_signal_names::{SignalTable, signal_named, table_of};
use rtl_stim_lines::{Form, Time, form_of, says_nothing, without_return, words_of};
use std::alloc::{AllocError, Global};

/// What the lines of a text expect, in order of time and of lines. It takes time that goes by the
/// lines, to put them in order by the lines times the logarithm of their number at most, and no
/// more than the lines where they are in order of time.
pub(crate) fn read_lines<L: Literals>(
    alloc: Global,
    net: &Net,
    literals: &L,
    text: &[u8],
) -> Result<Vec<Expectation>, ExpectFault>
    ensures { AreListed (L.positions literals.now) net.now text.now result }
{
    let table = table_of(alloc, net)?;
    let parts = parts_of(alloc, text)?;
    let mut list = Vec::new(alloc);
    for place in 0..parts.len() {
        let line = line_at(&parts, place);
        read_line(alloc, net, &table, literals, place + 1, line, &mut list)?;
    }
    put_in_order(&mut list)?;
    Ok(list)
}

/// The line that the part at this place is: a return at the end of the last part is its own.
pub(crate) fn line_at<'a>(parts: &[&'a [u8]], place: usize) -> &'a [u8]
    requires { place < length parts.now }
    ensures { as_lines (drop place (map (λ part. part.now) parts.now))
        ≡ result.now ∷ as_lines (drop (place + 1) (map (λ part. part.now) parts.now)) }
{
    let part = parts[place];
    if place + 1 < parts.len() {
        return without_return(part);
    }
    part
}

/// The parts of a text between line feeds.
pub(crate) fn parts_of<'a>(alloc: Global, text: &'a [u8]) -> Result<Vec<&'a [u8]>, AllocError>
    ensures { IfOk result (λ parts. map (λ part. part.now) parts.items ≡ slice_split ends_line text.now) }
{
    text.split(|byte| *byte == b'\n').collect(alloc)
}

/// Takes in the line of this number. The list has the expectations in order of lines.
fn read_line<L: Literals>(
    alloc: Global,
    net: &Net,
    table: &SignalTable,
    literals: &L,
    number: usize,
    line: &[u8],
    list: &mut Vec<Expectation>,
) -> Result<(), ExpectFault>
    requires { HasNumbers net.now table.now }
    ensures { let so_far = all_placed [] (list_view list.old) in
        Leads (in_line number (after_line (L.positions literals.now) net.now so_far number line.now))
        (all_placed [] (list_view list.new)) result }
{
    let words = words_of(alloc, line)?;
    if says_nothing(&words) {
        return Ok(());
    }
    let expectation = expectation_of(alloc, net, table, literals, number, &words)?;
    keep(list, expectation)?;
    Ok(())
}

/// What the words of the line of this number expect.
fn expectation_of<L: Literals>(
    alloc: Global,
    net: &Net,
    table: &SignalTable,
    literals: &L,
    line: usize,
    words: &[&[u8]],
) -> Result<Expectation, ExpectFault>
    requires { HasNumbers net.now table.now }
    ensures { IsExpected (in_line line
        (expected_in (L.positions literals.now) net.now line (forms.form_of (map (λ word. word.now) words.now))))
        result }
{
    net.is_elaborated();
    let Some(Form::At { time, name, value }) = form_of(words) else {
        return Err(ExpectFault::in_line(ExpectRule::BadLine, line));
    };
    let Time::At(time) = time else {
        return Err(ExpectFault::in_line(ExpectRule::TimeTooLarge, line));
    };
    let Some((number, signal)) = signal_named(alloc, net, table, name)? else {
        return Err(ExpectFault::in_line(ExpectRule::NotASignal, line));
    };
    let Some(wanted) = value_wanted(alloc, literals, signal, value)? else {
        return Err(ExpectFault::in_line(ExpectRule::BadValue, line));
    };
    Ok(Expectation {
        line,
        time,
        signal: number,
        wanted,
    })
}

/// Puts an expectation behind those of the lines before.
fn keep(list: &mut Vec<Expectation>, expectation: Expectation) -> Result<(), AllocError>
    ensures { OnOk result (all_placed [] (list_view list.new)
        ≡ lines.placed (expectation_view expectation) (all_placed [] (list_view list.old))) }
{
    list.push(expectation)?;
    Ok(())
}

/// Puts expectations in order of time; those of one time stay in the order that they have.
fn put_in_order(list: &mut Vec<Expectation>) -> Result<(), AllocError>
    ensures placed { OnOk result (list_view list.new ≡ all_placed [] (list_view list.old)) }
    ensures ordered { OnOk result (AreInOrder (list_view list.new)) }
{
    list.sort_by_key(|expectation| expectation.time)?;
    Ok(())
}
