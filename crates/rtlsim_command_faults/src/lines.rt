//! The lines that tell faults.

ghost use Rattle.std.specs.Prelude.{◌≡◌, ◌++◌, codes, decimal, map, true, false, OnErr};
ghost use Rattle.rtlsim_listing.specs.Printing.{Prints};
ghost use Rattle.rtl_net.specs.Nets.{NetlistView};
ghost use Rattle.byte_streams.specs.Written.{Goes, IsIntact};
ghost use Rattle.rtlsim_command_faults.specs.Faults.{has_names, takes_memory, of_source};
ghost use Rattle.rtlsim_command_faults.specs.Explanations.{files_of, told, unread};
ghost use Rattle.vhdl_source_files.specs.Files.{file_view, spot_view};
ghost use Rattle.rtlsim_command_faults.specs.Lines.{byte_text, spot_text, place_text, rule_text, rule_words, told_line, race_line, stim_line, fault_lines, memory_line};
ghost use Rattle.rtlsim_command_faults.specs.Told.{TellsFault, summary_line, levels_line};
ghost use Rattle.rtlsim_command_faults.specs.Faults as faults;

use crate::explaining::{explain_fault, explain_nameless};
use crate::faults::Fault;
use crate::reports::{
    elab_report, expect_report, lex_report, name_report, settle_report, stim_report, syntax_report,
    untraced_report,
};
use crate::status::Status;
use crate::telling::{Site, Telling};
use byte_streams::{Sink, push_number, push_text};
use fault_rules::{ExpectRule, Place, Report, Rule, StimRule};
use rtl_expect::{ExpectFault, push_first};
use rtl_net::{Net, NoMemory};
use rtl_run::LevelSummary;
use rtl_simulation::Summary;
use rtl_stim::StimFault;
use rtlsim_listing::{net_name, show_faults};
use std::alloc::Global;
use vhdl_front_rules::SourceFault;
use vhdl_source_files::{FilePlace, SourceFile, place_in};

/// Writes the lines that tell a fault, with the names of the netlist that has it, and its
/// explanation where that is asked for, and answers the status. It takes the memory of a few names
/// at a time, with the lines of the expected values where a name in them is no signal's, or of the
/// source and its tokens for the explanation of its own fault; where that is refused it tells so in
/// their place.
pub fn tell_fault<E: Sink>(
    alloc: Global,
    telling: &Telling<'_>,
    net: &Net,
    fault: &Fault,
    err: &mut E,
) -> Status
    requires intact { IsIntact (E.state err.old) }
    ensures { TellsFault telling.now net.now fault.now (E.state err.old) (E.state err.new) result }
{
    if is_of_names(fault) {
        let site = Site {
            alloc,
            telling,
            net,
        };
        match push_told(&site, fault, err) {
            Ok(()) => fault.status(),
            Err(_refused) => {
                push_memory(err);
                Status::Memory
            }
        }
    } else {
        tell_nameless(alloc, telling, fault, err)
    }
}

/// Writes the line that tells why a source is refused, and its explanation where that is asked for,
/// and answers the status. The explanation takes the memory of the source and of its tokens; where
/// that is refused it tells so in its place.
pub fn tell_source_fault<E: Sink>(
    alloc: Global,
    telling: &Telling<'_>,
    fault: SourceFault,
    err: &mut E,
) -> Status
    ensures { (net : NetlistView) → TellsFault telling.now net (of_source fault) (E.state err.old) (E.state err.new)
        result }
{
    let fault = Fault::from(fault);
    tell_nameless(alloc, telling, &fault, err)
}

fn is_of_names(fault: &Fault) -> bool
    ensures { result ≡ faults.is_of_names fault.now }
{
    match fault {
        Fault::Rejected(_) | Fault::Stim(_) | Fault::Differs(_) | Fault::Untraced { .. } => true,
        Fault::Expect(ExpectFault::InLine { rule, .. }) => matches!(rule, ExpectRule::NotASignal),
        _ => false,
    }
}

/// Writes the line of any other fault, and its explanation where that is asked for, and answers the
/// status.
fn tell_nameless<E: Sink>(
    alloc: Global,
    telling: &Telling<'_>,
    fault: &Fault,
    err: &mut E,
) -> Status
    requires { faults.is_of_names fault.now ≡ false }
    ensures { (net : NetlistView) → TellsFault telling.now net fault.now (E.state err.old) (E.state err.new) result }
{
    push_nameless(telling.files, fault, err);
    if !telling.explains {
        return fault.status();
    }
    if explain_nameless(alloc, telling, fault, err) {
        fault.status()
    } else {
        push_memory(err);
        Status::Memory
    }
}

/// Writes how many moments there were, and how many delta cycles one took at most.
pub fn tell_summary<E: Sink>(summary: Summary, err: &mut E)
    ensures { Goes (E.state err.old) (E.state err.new) (summary_line summary) }
{
    push_moments(err, summary.moments, b" deltas ", summary.most_deltas);
}

/// Writes how many moments there were, and the bound on the delta cycles of one.
pub fn tell_levels<E: Sink>(summary: LevelSummary, err: &mut E)
    ensures { Goes (E.state err.old) (E.state err.new) (levels_line summary) }
{
    push_moments(err, summary.moments, b" bound ", summary.bound);
}

/// Writes how many moments there were, a text and a number.
fn push_moments<S: Sink>(sink: &mut S, moments: u64, text: &[u8], number: u32)
    ensures { Goes (S.state sink.old) (S.state sink.new)
        (codes "moments " ++ decimal moments ++ text.now ++ decimal number ++ codes "\n") }
{
    push_counted(sink, b"moments ", moments);
    push_text(sink, text);
    push_number(sink, u64::from(number));
    push_text(sink, b"\n");
}

/// Writes that memory was refused.
pub fn push_memory<S: Sink>(sink: &mut S)
    ensures { Goes (S.state sink.old) (S.state sink.new) memory_line }
{
    push_text(sink, b"rtlsim: memory\n");
}

/// Writes what tells a fault of a netlist, and its explanation where that is asked for.
fn push_told<S: Sink>(site: &Site<'_>, fault: &Fault, sink: &mut S) -> Result<(), NoMemory>
    requires names { faults.is_of_names fault.now ≡ true }
    ensures printed { Prints result (S.state sink.old) (S.state sink.new)
        (told site.now.telling.now unread site.now.net.now fault.now) }
    ensures named { OnErr result (takes_memory site.now.telling.now.explains fault.now ≡ true) }
{
    push_fault(site, fault, sink)?;
    explain_fault(site, fault, sink)
}

/// Writes the lines that tell a fault of a netlist.
fn push_fault<S: Sink>(site: &Site<'_>, fault: &Fault, sink: &mut S) -> Result<(), NoMemory>
    ensures printed { Prints result (S.state sink.old) (S.state sink.new)
        (fault_lines (files_of site.now.telling.now) site.now.net.now fault.now) }
    ensures named { OnErr result (takes_memory site.now.telling.now.explains fault.now ≡ true) }
{
    match fault {
        Fault::Rejected(faults) => show_faults(site.alloc, site.net, faults, sink),
        Fault::Stim(stim) => push_stim(site, *stim, sink),
        Fault::Differs(differences) => {
            push_first(site.net, differences, sink);
            Ok(())
        }
        _ => {
            push_nameless(site.telling.files, fault, sink);
            Ok(())
        }
    }
}

/// Writes the line of a fault of a stimulus.
fn push_stim<S: Sink>(site: &Site<'_>, stim: StimFault, sink: &mut S) -> Result<(), NoMemory>
    ensures printed { Prints result (S.state sink.old) (S.state sink.new)
        (stim_line (files_of site.now.telling.now) site.now.net.now stim) }
    ensures named { OnErr result (takes_memory site.now.telling.now.explains (Fault.Stim stim) ≡ true) }
{
    match stim {
        StimFault::Race { time, input, clock } => push_race(site, time, input, clock, sink),
        _ => {
            push_nameless(site.telling.files, &Fault::Stim(stim), sink);
            Ok(())
        }
    }
}

/// Writes the line of a race.
fn push_race<S: Sink>(
    site: &Site<'_>,
    time: u64,
    input: usize,
    clock: usize,
    sink: &mut S,
) -> Result<(), NoMemory>
    ensures { Prints result (S.state sink.old) (S.state sink.new)
        (race_line site.now.net.now time input clock) }
{
    let input = net_name(site.alloc, site.net, input)?;
    let clock = net_name(site.alloc, site.net, clock)?;
    push_rule(Rule::Stim(StimRule::Race), sink);
    push_text(sink, b" ");
    push_number(sink, time);
    push_text(sink, b" ");
    push_text(sink, &input);
    push_text(sink, b" ");
    push_text(sink, &clock);
    push_text(sink, b"\n");
    Ok(())
}

/// Writes what tells a fault whose line has no names.
fn push_nameless<S: Sink>(files: &[SourceFile<'_>], fault: &Fault, sink: &mut S)
    requires nameless { has_names fault.now ≡ false }
    ensures { (net : NetlistView) → Goes (S.state sink.old) (S.state sink.new)
        (fault_lines (map file_view files.now) net fault.now) }
{
    match fault {
        Fault::Lex(lex) => push_reported(files, lex_report(*lex), sink),
        Fault::Syntax(syntax) => push_reported(files, syntax_report(*syntax), sink),
        Fault::Name(name) => push_reported(files, name_report(*name), sink),
        Fault::Elab(elab) => push_reported(files, elab_report(*elab), sink),
        Fault::Stim(stim) => push_reported(files, stim_report(*stim), sink),
        Fault::Expect(expect) => push_reported(files, expect_report(*expect), sink),
        Fault::Untraced { place } => push_reported(files, Some(untraced_report(*place)), sink),
        Fault::NoSettling { time } => push_reported(files, Some(settle_report(*time)), sink),
        Fault::Output => push_text(sink, b"rtlsim: output\n"),
        Fault::Memory | Fault::Rejected(_) | Fault::Differs(_) => push_memory(sink),
    }
}

/// Writes the line of a report, or that memory was refused.
fn push_reported<S: Sink>(files: &[SourceFile<'_>], report: Option<Report>, sink: &mut S)
    ensures { Goes (S.state sink.old) (S.state sink.new) (told_line (map file_view files.now) report) }
{
    match report {
        Some(report) => {
            push_rule(report.rule, sink);
            push_place(files, report.place, sink);
            push_text(sink, b"\n");
        }
        None => push_memory(sink),
    }
}

/// Writes which rule is broken.
fn push_rule<S: Sink>(rule: Rule, sink: &mut S)
    ensures { Goes (S.state sink.old) (S.state sink.new) (rule_text rule) }
{
    push_text(sink, b"rtlsim: ");
    push_rule_words(rule, sink);
}

/// Writes the layer of a rule, its number and its name.
pub(crate) fn push_rule_words<S: Sink>(rule: Rule, sink: &mut S)
    ensures { Goes (S.state sink.old) (S.state sink.new) (rule_words rule) }
{
    let words = rule.words();
    push_text(sink, words.layer.as_bytes());
    push_text(sink, b" ");
    push_number(sink, u64::from(words.number));
    push_text(sink, b" ");
    push_text(sink, words.name.as_bytes());
}

/// Writes where a fault is found.
fn push_place<S: Sink>(files: &[SourceFile<'_>], place: Place, sink: &mut S)
    ensures { Goes (S.state sink.old) (S.state sink.new) (place_text (map file_view files.now) place) }
{
    match place {
        Place::Byte(at) => push_byte(files, at, sink),
        Place::Line(line) => push_counted(sink, b" line ", line as u64),
        Place::Time(time) => push_counted(sink, b" ", time),
        _ => {}
    }
}

/// Writes at which byte a fault is found, and of several files in which.
#[tactic(auto, using(crate::proofs::Places::one_file, crate::proofs::Places::several_files))]
fn push_byte<S: Sink>(files: &[SourceFile<'_>], at: usize, sink: &mut S)
    ensures { Goes (S.state sink.old) (S.state sink.new) (byte_text (map file_view files.now) at) }
{
    if files.len() < 2 {
        push_counted(sink, b" at ", at as u64);
    } else {
        push_file_byte(place_in(files, at), sink);
    }
}

/// Writes a byte of a file.
fn push_file_byte<S: Sink>(place: FilePlace<'_>, sink: &mut S)
    ensures { Goes (S.state sink.old) (S.state sink.new) (spot_text (spot_view place.entry)) }
{
    push_counted(sink, b" at ", place.at as u64);
    push_text(sink, b" in ");
    push_text(sink, place.file.name);
}

/// Writes a text and a number.
fn push_counted<S: Sink>(sink: &mut S, text: &[u8], number: u64)
    ensures { Goes (S.state sink.old) (S.state sink.new) (text.now ++ decimal number) }
{
    push_text(sink, text);
    push_number(sink, number);
}
