//! What stands below the lines of a fault.

ghost use Rattle.std.specs.Prelude.{◌≡◌, [], if◌then◌else◌, false, true, OnErr, map, option_map};
ghost use Rattle.byte_streams.specs.Written.{Goes};
ghost use Rattle.rtlsim_command_faults.specs.Explanations as spec;
ghost use Rattle.rtlsim_command_faults.specs.Explanations.{files_of};
ghost use Rattle.rtlsim_command_faults.specs.Faults.{is_of_names, takes_memory};
ghost use Rattle.rtlsim_command_faults.specs.Told.{Explains, ExplainsRead};
ghost use Rattle.vhdl_source_files.specs.Files.{file_view};
ghost use Rattle.rtlsim_listing.specs.Printing.{Prints};
ghost use Rattle.rtlsim_refusals.specs.Explained.{explained, told_view};

use crate::comparing::{explain_differences, explain_unnamed, explain_untraced};
use crate::describing::told_read;
use crate::faults::Fault;
use crate::reports::{elab_report, lex_report, name_report, stim_report, syntax_report};
use crate::telling::{Site, Telling};
use byte_streams::{Sink, push_text};
use fault_rules::Report;
use rtl_expect::ExpectFault;
use rtl_net::NoMemory;
use rtl_stim::StimFault;
use rtlsim_findings_text::explain_rejection;
use rtlsim_refusals::{Told, explain_refusal, explain_stim, explain_unsettled, push_paragraph};
use std::alloc::Global;
use vhdl_source_files::{SourceFile, joined, source_name};

/// Explains a fault that is told by the netlist, where that is asked for.
pub(crate) fn explain_fault<S: Sink>(
    site: &Site<'_>,
    fault: &Fault,
    sink: &mut S,
) -> Result<(), NoMemory>
    requires names { is_of_names fault.now ≡ true }
    ensures printed { Prints result (S.state sink.old) (S.state sink.new)
        (if site.now.telling.now.explains
        then spec.explanation site.now.telling.now spec.unread site.now.net.now fault.now else []) }
    ensures named { OnErr result (takes_memory site.now.telling.now.explains fault.now ≡ true) }
{
    if site.telling.explains {
        explain_named(site, fault, sink)
    } else {
        Ok(())
    }
}

/// Explains a fault that is told by the netlist.
fn explain_named<S: Sink>(site: &Site<'_>, fault: &Fault, sink: &mut S) -> Result<(), NoMemory>
    requires names { is_of_names fault.now ≡ true }
    requires asked { site.now.telling.now.explains ≡ true }
    ensures printed { Prints result (S.state sink.old) (S.state sink.new)
        (spec.explanation site.now.telling.now spec.unread site.now.net.now fault.now) }
    ensures named { OnErr result (takes_memory site.now.telling.now.explains fault.now ≡ true) }
{
    match fault {
        Fault::Rejected(faults) => {
            let telling = site.telling;
            explain_rejection(
                site.alloc,
                telling.files,
                telling.source,
                site.net,
                faults,
                sink,
            )
        }
        Fault::Stim(stim) => explain_stimulus(site, *stim, sink),
        Fault::Expect(ExpectFault::InLine { line, .. }) => explain_unnamed(site, *line, sink),
        Fault::Differs(differences) => {
            explain_differences(site, differences, sink);
            Ok(())
        }
        Fault::Untraced { place } => explain_untraced(site, *place, sink),
        _ => Ok(()),
    }
}

/// Explains a fault of a stimulus.
fn explain_stimulus<S: Sink>(
    site: &Site<'_>,
    fault: StimFault,
    sink: &mut S,
) -> Result<(), NoMemory>
    ensures printed { Prints result (S.state sink.old) (S.state sink.new)
        (spec.explanation site.now.telling.now spec.unread site.now.net.now (Fault.Stim fault)) }
    ensures named { OnErr result (takes_memory site.now.telling.now.explains (Fault.Stim fault) ≡ true) }
{
    let Some(report) = stim_report(fault) else {
        return Ok(());
    };
    let (telling, net) = (site.telling, site.net);
    let text = telling.stimulus_text;
    explain_stim(site.alloc, telling.stimulus, text, net, report, sink)
}

/// Explains any other fault. One of grammar, of names or of elaboration takes the memory of the
/// source, of its tokens and of what is told. Answers whether memory sufficed; where it is refused,
/// nothing is written.
pub(crate) fn explain_nameless<S: Sink>(
    alloc: Global,
    telling: &Telling<'_>,
    fault: &Fault,
    sink: &mut S,
) -> bool
    requires { is_of_names fault.now ≡ false }
    ensures { Explains telling.now fault.now result (S.state sink.old) (S.state sink.new) }
{
    let files = telling.files;
    match fault {
        Fault::Lex(told) => explain_tokens(files, lex_report(*told), sink),
        Fault::Syntax(told) => explain_read(alloc, telling, syntax_report(*told), sink),
        Fault::Name(told) => explain_read(alloc, telling, name_report(*told), sink),
        Fault::Elab(told) => explain_read(alloc, telling, elab_report(*told), sink),
        Fault::NoSettling { time } => {
            explain_unsettled(source_name(files), *time, sink);
            true
        }
        _ => {
            push_text(sink, b"");
            true
        }
    }
}

/// Explains why a source has no tokens.
fn explain_tokens<S: Sink>(files: &[SourceFile<'_>], report: Option<Report>, sink: &mut S) -> bool
    ensures told { Goes (S.state sink.old) (S.state sink.new) (spec.refusal_said (map file_view files.now) report) }
    ensures whole { result ≡ true }
{
    match report {
        Some(report) => explain_refusal(files, report, sink),
        None => push_text(sink, b""),
    }
    true
}

/// Reads the source once more, and explains which of its rules is broken.
fn explain_read<S: Sink>(
    alloc: Global,
    telling: &Telling<'_>,
    report: Option<Report>,
    sink: &mut S,
) -> bool
    ensures { ExplainsRead telling.now.language (files_of telling.now) report result (S.state sink.old)
        (S.state sink.new) }
{
    let files = telling.files;
    let Ok(source) = joined(alloc, files) else {
        return false;
    };
    let Ok(told) = told_read(alloc, telling.language, files, &source, report) else {
        return false;
    };
    push_told(&told, sink);
    true
}

/// Writes the paragraph of what is told, if something is.
fn push_told<S: Sink>(told: &Option<Told<'_>>, sink: &mut S)
    ensures { Goes (S.state sink.old) (S.state sink.new) (explained (option_map told_view told.now)) }
{
    match told {
        Some(told) => push_paragraph(told, sink),
        None => push_text(sink, b""),
    }
}
