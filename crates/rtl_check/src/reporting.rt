//! Reports on accepted netlists.

ghost use Rattle.std.specs.Prelude.{IfOk, OnOk};
ghost use Rattle.rtl_model.specs.simulation.Accepted.{IsAccepted};
ghost use Rattle.rtl_net.specs.Core.{core};
ghost use Rattle.rtl_check.specs.Views.{AreClockNets};
ghost use Rattle.rtl_process_kinds.specs.KindViews.{AreKinds};
ghost use Rattle.rtl_check.specs.Findings.{IsLeveled, IsLeveledByNets};
ghost use Rattle.rtl_check.specs.Verdicts.{IsNetReportOf, IsReportOf};

use crate::bound::{bound_of, one_if};
use crate::clock_edges::clock_edges;
use rtl_body_facts::ProcessKind;
use rtl_check_levels::{Levels, tables_are_of_nets};
use rtl_check_nets::NetLevels;
use rtl_model::simulation_laws;
use rtl_net::{Net, NoMemory, nets_meet_the_laws};
use std::alloc::Global;
use vhdl_values::Edge;

/// What an accepted netlist's simulation keeps to.
#[derive(Drop)]
pub struct Report {
    /// The level of each combinational process: the length of the longest chain that ends with it,
    /// each but the first being sensitive to a net that the one before drives. None for a clocked
    /// process.
    pub levels: Vec<Option<u32>>,
    /// Of each process above level 1 the lowest process of the level below that drives a net it is
    /// sensitive to.
    pub from: Vec<Option<usize>>,
    /// The nets and edges that clocked processes test, each once: by net, then in the order of
    /// edges.
    pub clocks: Vec<(usize, Edge)>,
    /// No moment has more delta cycles than this.
    pub bound: u32,
}

/// The report on a netlist whose combinational processes have these levels.
pub fn report_of(
    alloc: Global,
    net: &Net,
    kinds: &[ProcessKind],
    clocks: &[usize],
    levels: Levels,
) -> Result<Report, NoMemory>
    requires kinds { AreKinds (core net.now) kinds.now }
    requires clocks { AreClockNets (core net.now) clocks.now }
    requires levels { IsLeveled (core net.now) levels }
    ensures report { IfOk result (IsReportOf (core net.now)) }
    ensures accepted { OnOk result (IsAccepted (core net.now)) }
{
    tables_are_of_nets();
    simulation_laws::faults_are_listed();
    simulation_laws::accepted_by_processes();
    nets_meet_the_laws();
    net.is_elaborated();
    let edges = clock_edges(alloc, net, kinds, clocks)?;
    let bound = bound_of(net, kinds, clocks, levels.greatest);
    Ok(Report {
        levels: levels.levels,
        from: levels.from,
        clocks: edges,
        bound,
    })
}

/// What the simulation of an accepted netlist keeps to that is judged by nets: by which net changes
/// behind which, in place of by processes.
#[derive(Drop)]
pub struct NetReport {
    /// The level of each process that may assign in a delta cycle: one more than the greatest level
    /// of a net that it is sensitive to.
    pub levels: Vec<Option<u32>>,
    /// Of each such process the lowest net of the level below that it is sensitive to; none at
    /// level 1.
    pub from: Vec<Option<usize>>,
    /// The level of each net: how many nets the longest chain has that ends with it, each but the
    /// first looking at the one before. 0 of a net that changes behind no other.
    pub nets: Vec<u32>,
    /// The lowest net of the level below that a net looks at; none up to level 1.
    pub looks: Vec<Option<usize>>,
    /// The nets and edges that clocked processes test, as in a `Report`.
    pub clocks: Vec<(usize, Edge)>,
    /// No moment has more delta cycles than this.
    pub bound: u32,
}

/// The report on a netlist that is judged by nets, whose nets and processes have these levels.
pub fn net_report_of(
    alloc: Global,
    net: &Net,
    kinds: &[ProcessKind],
    clocks: &[usize],
    levels: NetLevels,
) -> Result<NetReport, NoMemory>
    requires kinds { AreKinds (core net.now) kinds.now }
    requires clocks { AreClockNets (core net.now) clocks.now }
    requires levels { IsLeveledByNets (core net.now) levels }
    ensures report { IfOk result (IsNetReportOf (core net.now)) }
    ensures accepted { OnOk result (IsAccepted (core net.now)) }
{
    simulation_laws::faults_are_listed();
    let edges = clock_edges(alloc, net, kinds, clocks)?;
    let registers = one_if(!clocks.is_empty());
    Ok(NetReport {
        levels: levels.levels,
        from: levels.from,
        nets: levels.nets,
        looks: levels.looks,
        clocks: edges,
        bound: levels.greatest + registers,
    })
}
