//! Which of the checker's rules a source doesn't break in the wider language, and which process of
//! a loop can be split.

ghost use Rattle.std.specs.Prelude.{◌≡◌, ◌++◌, Some, true, IfOk, IsTrue, OnOk};
ghost use Rattle.std.specs.List.{list_any};
ghost use Rattle.byte_streams.specs.Written.{Goes};
ghost use Rattle.rtl_check.specs.Views.{fault_view};
ghost use Rattle.rtlsim_commands.specs.Freed as spec;
ghost use Rattle.vhdl_front_rules.specs.Asking.{asked_view};
ghost use Rattle.vhdl_front_rules.specs.Designs.{IsNetOf};
ghost use Rattle.vhdl_lexer.specs.declared.language.Language.TheVariants.{Profile};

use crate::command::Site;
use byte_streams::{Sink, push_number, push_text};
use rtl_check::{CheckFault, Judgement, judge};
use rtl_net::NoMemory;
use rtlsim_circles::{Split, split_of};
use rtlsim_command_faults::{Status, Telling};
use rtlsim_listing::{net_name, process_name, report_of};
use vhdl_front_rules::{Asked, Front};
use vhdl_lexer::Language;

/// Tells, below what was told of a netlist with this status, which of the checker's rules the
/// source breaks and doesn't break in the wider language, and which process of a loop can be split:
/// where the checker refuses the netlist, explanations are asked for and the narrower language was
/// read. It takes the memory of that reading and of two judgements; where it is refused, nothing is
/// told.
pub(crate) fn tell_freed<F: Front, E: Sink>(
    site: Site<'_>,
    asked: Asked<'_>,
    telling: &Telling<'_>,
    said: Status,
    err: &mut E,
)
    requires net { IsNetOf (asked_view asked) site.net.now }
    ensures { spec.Frees telling.now (asked_view asked.entry) (E.state err.old) (E.state err.new) }
{
    if asks_freed(telling, said) {
        push_freed::<F, E>(site, asked, telling, err);
    }
}

/// Whether that is told behind what was told with this status.
fn asks_freed(telling: &Telling<'_>, said: Status) -> bool
    ensures explains { IsTrue result → telling.now.explains ≡ true }
    ensures is_narrow { IsTrue result → telling.now.language ≡ Profile }
{
    match (telling.language, said) {
        (Language::Profile, Status::Rejected) => telling.explains,
        _ => false,
    }
}

/// Tells it, unless memory is refused.
fn push_freed<F: Front, E: Sink>(
    site: Site<'_>,
    asked: Asked<'_>,
    telling: &Telling<'_>,
    err: &mut E,
)
    requires net { IsNetOf (asked_view asked) site.net.now }
    requires explains { telling.now.explains ≡ true }
    requires is_narrow { telling.now.language ≡ Profile }
    ensures { spec.Frees telling.now (asked_view asked.entry) (E.state err.old) (E.state err.new) }
{
    let Ok(narrow) = judge(site.alloc, site.net) else {
        return;
    };
    let Ok(wider) = F::open(site.alloc, asked.widely()) else {
        return;
    };
    let Ok(wide) = judge(site.alloc, &wider) else {
        return;
    };
    let Ok(split) = split_line(site, &narrow, &wide) else {
        return;
    };
    push_lines(&narrow, &wide, err);
    push_text(err, &split);
}

/// Writes the lines of the rules that the wider language asks less of.
fn push_lines<E: Sink>(narrow: &Judgement, wide: &Judgement, err: &mut E)
    ensures { Goes (E.state err.old) (E.state err.new) (spec.rule_lines narrow.now wide.now) }
{
    push_line(narrow, wide, 2, err);
    push_line(narrow, wide, 8, err);
    push_line(narrow, wide, 9, err);
}

/// Writes the line of the rule of this number, if it is so.
fn push_line<E: Sink>(narrow: &Judgement, wide: &Judgement, number: u8, err: &mut E)
    ensures { Goes (E.state err.old) (E.state err.new) (spec.freed_line narrow.now wide.now number) }
{
    if !is_freed(narrow, wide, number) {
        return;
    }
    push_text(err, b"help: read with --wide: there it has no fault ");
    push_number(err, number as u64);
    push_text(err, b"\n");
}

/// Whether the narrower language breaks the rule of this number, and the wider one doesn't.
fn is_freed(narrow: &Judgement, wide: &Judgement, number: u8) -> bool
    ensures { result ≡ spec.is_freed narrow.now wide.now number }
{
    breaks(narrow, number) && !breaks(wide, number)
}

/// Whether a netlist that is judged so breaks the rule of this number.
fn breaks(judgement: &Judgement, number: u8) -> bool
    ensures { result ≡ spec.breaks judgement.now number }
{
    match judgement {
        Judgement::Faulty(faults) => any_of_rule(number, faults),
        _ => false,
    }
}

/// Whether one of these faults is of the rule of this number.
fn any_of_rule(number: u8, faults: &[CheckFault]) -> bool
    ensures { result ≡ list_any (spec.is_of_rule number) faults.now }
{
    let mut left = faults;
    while let [fault, rest @ ..] = left {
        if is_of_rule(number, fault) {
            return true;
        }
        left = rest;
    }
    false
}

/// Whether a fault is of the rule of this number.
fn is_of_rule(number: u8, fault: &CheckFault) -> bool
    ensures { result ≡ spec.is_of_rule number fault.now }
{
    report_of(fault).rule.words().number == number
}

/// The line of the process that can be split, if one can.
fn split_line(site: Site<'_>, narrow: &Judgement, wide: &Judgement) -> Result<Vec<u8>, NoMemory>
    ensures { IfOk result (λ text. text.items
        ≡ spec.split_line site.entry.net.now (spec.split_for site.entry.net.now narrow.now wide.now)) }
{
    match split_for(site, narrow, wide)? {
        Some(split) => split_text(site, split),
        None => Ok(Vec::new(site.alloc)),
    }
}

/// The process of a loop that can be split, where the loop is none of nets.
fn split_for(
    site: Site<'_>,
    narrow: &Judgement,
    wide: &Judgement,
) -> Result<Option<Split>, NoMemory>
    ensures { IfOk result (λ split. split ≡ spec.split_for site.entry.net.now narrow.now wide.now) }
{
    match wide {
        Judgement::ByNets(_) => fault_split(site, narrow),
        _ => Ok(None),
    }
}

/// The process that can be split of the loop for which a netlist is refused.
fn fault_split(site: Site<'_>, narrow: &Judgement) -> Result<Option<Split>, NoMemory>
    ensures { IfOk result (λ split. split ≡ spec.fault_split site.entry.net.now narrow.now) }
{
    match narrow {
        Judgement::Faulty(faults) => first_split(site, faults),
        _ => Ok(None),
    }
}

/// The process that can be split of the loop that is the first of these faults.
fn first_split(site: Site<'_>, faults: &[CheckFault]) -> Result<Option<Split>, NoMemory>
    ensures { IfOk result (λ split. split ≡ spec.first_split site.entry.net.now faults.now) }
{
    match faults {
        [first, ..] => loop_split(site, first),
        [] => Ok(None),
    }
}

/// The process that can be split of a fault that is a loop.
fn loop_split(site: Site<'_>, fault: &CheckFault) -> Result<Option<Split>, NoMemory>
    ensures { IfOk result (λ split. split ≡ spec.loop_split site.entry.net.now (fault_view fault.now)) }
{
    match fault {
        CheckFault::Loop { processes } => split_of(site.alloc, site.net, processes),
        _ => Ok(None),
    }
}

/// What is said of a process that can be split.
fn split_text(site: Site<'_>, split: Split) -> Result<Vec<u8>, NoMemory>
    ensures { IfOk result (λ text. text.items ≡ spec.split_line site.entry.net.now (Some split)) }
{
    let mut text = Vec::from_slice(site.alloc, b"help: or assign ")?;
    text.extend_from_slice(&net_name(site.alloc, site.net, split.net)?)?;
    text.extend_from_slice(b" in a process of its own: ")?;
    push_unlooked(site, split, &mut text)?;
    Ok(text)
}

/// Appends at which net the one doesn't look that can have a process of its own.
fn push_unlooked(site: Site<'_>, split: Split, text: &mut Vec<u8>) -> Result<(), NoMemory>
    ensures { OnOk result (text.new.items
        ≡ text.old.items ++ spec.unlooked_text site.entry.net.now split) }
{
    text.extend_from_slice(&net_name(site.alloc, site.net, split.net)?)?;
    text.extend_from_slice(b" of ")?;
    text.extend_from_slice(&process_name(site.alloc, site.net, split.process)?)?;
    text.extend_from_slice(b" doesn't look at ")?;
    text.extend_from_slice(&net_name(site.alloc, site.net, split.next)?)?;
    text.extend_from_slice(b"\n")?;
    Ok(())
}
