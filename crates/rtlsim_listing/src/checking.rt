//! The lines of a judgement.

ghost use Rattle.std.specs.Prelude.{◌≡◌, if◌then◌else◌};
ghost use Rattle.rtlsim_listing.specs.CheckText as spec;
ghost use Rattle.rtlsim_listing.specs.CheckText.{check_text, report_text, shown_view};
ghost use Rattle.rtlsim_listing.specs.DotText.{dot_text, graph_text};
ghost use Rattle.rtlsim_listing.specs.Printing.{Prints};

use crate::graph::push_graph;
use crate::levels::{Shown, greatest_level, push_bounds, push_levels};
use crate::rejection::show_faults;
use byte_streams::Sink;
use rtl_check::{Judgement, NetReport, Report};
use rtl_net::{Net, NoMemory};
use std::alloc::Global;

/// Writes the checker's judgement of a netlist: `yes` with the greatest level, the bound and the
/// level of each process that has one, or where `draws` says so the levels as a graph in Graphviz's
/// language; or `no` with a line for each fault. It takes the memory of a few names at a time;
/// where that is refused, what went out is a beginning of the text. Where a judgement names what
/// the netlist doesn't have, as one of another netlist may, nothing stands for the name.
pub fn show_check<W: Sink>(
    alloc: Global,
    net: &Net,
    judgement: &Judgement,
    draws: bool,
    out: &mut W,
) -> Result<(), NoMemory>
    ensures { Prints result (W.state out.old) (W.state out.new)
        (if draws then dot_text net.now judgement.now else check_text net.now judgement.now) }
{
    match judgement {
        Judgement::ByProcesses(report) => show_accepted(
            alloc,
            net,
            of_processes(report),
            draws,
            out,
        ),
        Judgement::ByNets(report) => show_accepted(alloc, net, of_nets(report), draws, out),
        Judgement::Faulty(faults) => show_faults(alloc, net, faults, out),
    }
}

/// What is printed of a report by processes.
fn of_processes(report: &Report) -> Shown<'_>
    ensures { shown_view result ≡ spec.of_processes report.now }
{
    Shown {
        by_nets: false,
        levels: &report.levels,
        from: &report.from,
        bound: report.bound,
    }
}

/// What is printed of a report by nets.
fn of_nets(report: &NetReport) -> Shown<'_>
    ensures { shown_view result ≡ spec.of_nets report.now }
{
    Shown {
        by_nets: true,
        levels: &report.levels,
        from: &report.from,
        bound: report.bound,
    }
}

/// The graph of a report, or its lines.
fn show_accepted<W: Sink>(
    alloc: Global,
    net: &Net,
    shown: Shown<'_>,
    draws: bool,
    out: &mut W,
) -> Result<(), NoMemory>
    ensures { Prints result (W.state out.old) (W.state out.new)
        (if draws then graph_text net.now shown.entry.levels.now
        else report_text net.now (shown_view shown.entry)) }
{
    if draws {
        return push_graph(alloc, net, shown.levels, out);
    }
    push_bounds(greatest_level(shown.levels), shown.bound, out);
    push_levels(alloc, net, &shown, out)
}
