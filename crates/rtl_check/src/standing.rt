//! Whether levels and froms are those of a netlist, by comparing each process with those that drive
//! what it is sensitive to.

ghost use Rattle.std.specs.Prelude.{◌≡◌, ◌<◌, ◌↔◌, length, slice_index_or, IsTrue, None};
ghost use Rattle.rtl_model.specs.simulation.Netlist as m;
ghost use Rattle.rtl_net.specs.Nets.{source_view};
ghost use Rattle.rtl_net.specs.Core.{core};
ghost use Rattle.rtl_process_kinds.specs.KindViews.{IsKind};
ghost use Rattle.rtl_check.specs.Standing as s;

use rtl_body_facts::ProcessKind;
use rtl_net::{Net, Source, nets_meet_the_laws};
use rtl_process_kinds::{kind_at, wakes_of};

/// The greatest level of some processes, and the lowest that has it; 0 and none where none has a
/// level.
#[derive(Clone, Copy)]
pub struct Highest {
    pub level: u32,
    pub process: Option<usize>,
}

/// The level of a process, if it has one.
fn level_at(levels: &[Option<u32>], process: usize) -> Option<u32>
    ensures { result ≡ s.level_of levels.now process }
{
    if process < levels.len() {
        return levels[process];
    }
    None
}

/// Whether a process is below another.
fn is_below(process: usize, other: Option<usize>) -> bool
    ensures { result ≡ s.is_below process other }
{
    match other {
        None => false,
        Some(other) => process < other,
    }
}

/// The highest with one more source of a net.
fn with_source(levels: &[Option<u32>], highest: Highest, source: Source) -> Highest
    ensures { result ≡ s.with_source levels.now highest (source_view source) }
{
    match source {
        Source::Driven { process, .. } => with_process(highest, process, level_at(levels, process)),
        Source::Idle { .. } => highest,
    }
}

/// The highest with one more process of this level.
fn with_process(highest: Highest, process: usize, level: Option<u32>) -> Highest
    ensures { result ≡ s.with_process highest process level }
{
    match level {
        None => highest,
        Some(level) => {
            if highest.level < level
                || (level == highest.level && is_below(process, highest.process))
            {
                return Highest {
                    level,
                    process: Some(process),
                };
            }
            highest
        }
    }
}

/// The highest with all sources of a net.
fn with_sources(net: &Net, levels: &[Option<u32>], start: Highest, number: usize) -> Highest
    requires { number < length net.now.types }
    ensures { result ≡ s.with_sources levels.now start (m.sources_of (core net.now) number) }
{
    let sources = net.sources(number);
    let mut highest = start;
    for source in sources {
        highest = with_source(levels, highest, *source);
    }
    highest
}

/// The highest of those that drive something that a process is sensitive to.
fn highest_of(net: &Net, levels: &[Option<u32>], process: usize) -> Highest
    requires { process < length net.now.processes }
    ensures { result ≡ s.highest_of (core net.now) levels.now process }
{
    let wakes = wakes_of(net, process);
    let mut highest = Highest {
        level: 0,
        process: None,
    };
    for wake in wakes {
        highest = with_sources(net, levels, highest, *wake);
    }
    highest
}

/// Whether two are the same.
fn are_same(from: Option<usize>, other: Option<usize>) -> bool
    ensures { IsTrue result ↔ (from ≡ other) }
{
    match (from, other) {
        (None, None) => true,
        (Some(process), Some(other)) => process == other,
        _ => false,
    }
}

/// Whether a level and a from are what a process of this kind has.
fn stands_as(highest: Highest, kind: ProcessKind, level: Option<u32>, from: Option<usize>) -> bool
    ensures { (q : m.Process) → IsKind q kind → IsTrue result ↔ s.StandsAs highest q.kind level from }
{
    match kind {
        ProcessKind::Combinational => match level {
            None => false,
            Some(level) => level > 0
                && level - 1 == highest.level
                && are_same(from, highest.process),
        },
        _ => level.is_none() && from.is_none(),
    }
}

/// Whether a process has its level and its from.
fn stands(net: &Net, levels: &[Option<u32>], from: &[Option<usize>], process: usize) -> bool
    requires there { process < length net.now.processes }
    requires each_from { length from.now ≡ length net.now.processes }
    ensures { IsTrue result ↔ s.Stands (core net.now) levels.now from.now process }
{
    let highest = highest_of(net, levels, process);
    let kind = kind_at(net, process);
    stands_as(highest, kind, level_at(levels, process), from[process])
}

/// Whether levels and froms are those of a netlist in which each process is clocked or
/// combinational. It takes no memory, and time in proportion to the netlist.
pub fn are_levels(net: &Net, levels: &[Option<u32>], from: &[Option<usize>]) -> bool
    ensures { s.HasNoMixed (core net.now) → IsTrue result ↔ s.ShowFroms (core net.now) levels.now from.now }
{
    nets_meet_the_laws();
    net.is_elaborated();
    let processes = net.processes();
    if levels.len() != processes.len() {
        return false;
    }
    if from.len() != processes.len() {
        return false;
    }
    for process in 0..processes.len() {
        if !stands(net, levels, from, process) {
            return false;
        }
    }
    true
}
