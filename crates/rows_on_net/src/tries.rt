//! What is tried with a netlist.

use crate::change::{change, put};
use crate::texts::{push_joined, push_truth};
use byte_streams::{Out, Sink, push_text};
use rtl_check::{Judgement, NetReport, Report, judge, stored};
use rtl_net::Net;
use rtl_recheck::{recheck, recheck_by_nets};
use rtlsim_listing::{show_check, show_faults};
use std::alloc::Global;

/// Writes what comes of a try with a netlist, by a row's words: `check` for the checker's
/// judgement, `stored` for the variables that are stored, and `recheck` for whether a report
/// stands: the checker's, with the changes that the words behind tell. Behind `wide ` it is tried
/// with the netlist as the wider language reads it.
pub fn push_try<S: Sink>(alloc: Global, net: Net, line: &str, out: &mut S) {
    match line.strip_prefix("wide ") {
        Some(rest) => push_tried(alloc, &net.widened(), rest, out),
        None => push_tried(alloc, &net, line, out),
    }
}

/// Writes what comes of a try with a netlist as it is.
fn push_tried<S: Sink>(alloc: Global, net: &Net, line: &str, out: &mut S) {
    let (word, words) = line.split_once(' ').unwrap_or((line, ""));
    if word == "check" {
        return push_check(alloc, net, out);
    }
    if word == "stored" {
        return push_stored(alloc, net, out);
    }
    if word == "recheck" {
        return push_recheck(alloc, net, words, out);
    }
    push_text(out, b"no such try");
}

/// Writes the lines of the judgement.
fn push_check<S: Sink>(alloc: Global, net: &Net, out: &mut S) {
    let mut lines = Out::new(Vec::new(alloc));
    let is_told = match judge(alloc, net) {
        Ok(judgement) => show_check(alloc, net, &judgement, false, &mut lines).is_ok(),
        Err(_) => false,
    };
    let is_told = is_told && !lines.failed();
    push_lines(out, is_told, &lines.into_inner());
}

/// Writes the lines of the stored variables.
fn push_stored<S: Sink>(alloc: Global, net: &Net, out: &mut S) {
    let mut lines = Out::new(Vec::new(alloc));
    let is_told = match stored(alloc, net) {
        Ok(faults) => show_faults(alloc, net, &faults, &mut lines).is_ok(),
        Err(_) => false,
    };
    let is_told = is_told && !lines.failed();
    push_lines(out, is_told, &lines.into_inner());
}

/// Writes lines, with `; ` between them.
fn push_lines<S: Sink>(out: &mut S, is_told: bool, lines: &[u8]) {
    if is_told {
        push_joined(out, lines);
    } else {
        push_text(out, b"not told");
    }
}

/// Writes whether a report with these changes stands.
fn push_recheck<S: Sink>(alloc: Global, net: &Net, words: &str, out: &mut S) {
    match judge(alloc, net) {
        Ok(Judgement::ByProcesses(mut report)) => push_stands(net, &mut report, words, out),
        Ok(Judgement::ByNets(mut report)) => push_nets_stand(alloc, net, &mut report, words, out),
        Ok(Judgement::Faulty(_)) => push_stands(net, &mut guessed(alloc, net), words, out),
        Err(_) => push_text(out, b"memory"),
    }
}

/// Changes the bound of a report by nets where the words tell one, and writes whether it stands.
fn push_nets_stand<S: Sink>(
    alloc: Global,
    net: &Net,
    report: &mut NetReport,
    words: &str,
    out: &mut S,
) {
    if let Some(bound) = words.strip_prefix("bound ") {
        report.bound = bound.parse::<u32>().unwrap_or(0);
    }
    match recheck_by_nets(alloc, net, report) {
        Ok(stands) => push_truth(out, stands),
        Err(_) => push_text(out, b"memory"),
    }
}

/// Changes a report, and writes whether it stands.
fn push_stands<S: Sink>(net: &Net, report: &mut Report, words: &str, out: &mut S) {
    for part in words.split(", ") {
        if !change(report, part) {
            return push_text(out, b"no such change");
        }
    }
    push_truth(out, recheck(net, report));
}

/// A report on a netlist that has none: each process at level 1, no clocks, and bound 1.
fn guessed(alloc: Global, net: &Net) -> Report {
    let mut report = Report {
        levels: Vec::new(alloc),
        from: Vec::new(alloc),
        clocks: Vec::new(alloc),
        bound: 1,
    };
    for process in 0..net.processes().len() {
        put(&mut report.levels, process, Some(1));
        put(&mut report.from, process, None);
    }
    report
}
