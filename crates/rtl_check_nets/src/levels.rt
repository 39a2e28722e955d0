//! The levels of nets, and of processes by them.

ghost use Rattle.std.specs.Prelude.{◌≡◌, ◌+◌, ◌<◌, ◌≤◌, ◌^◌, ℕ, IfOk, OnOk, length, slice_index, unwrap_or};
ghost use Rattle.rtl_model.specs.simulation.Accepted.{HasNoNetLoop};
ghost use Rattle.rtl_net.specs.Core.{core};
ghost use Rattle.rtl_check_levels.specs.Levels as l;
ghost use Rattle.rtl_process_kinds.specs.KindViews.{AreKinds};
ghost use Rattle.rtl_check_nets.specs.Rows.{AreLevelsOfRows, HaveLevels, IsBelow};
ghost use Rattle.rtl_check_nets.specs.NetOrders.{AreReported};

use rtl_body_facts::ProcessKind;
use rtl_check_levels::{Counting, Highest, Levels, highest_of};
use rtl_model::simulation_laws;
use rtl_net::{Net, NoMemory, nets_meet_the_laws};
use rtl_process_kinds::{follows_driver, is_combinational, resets, wakes_of};
use std::alloc::Global;

/// The levels of nets, and of processes by them.
#[derive(Drop)]
pub struct NetLevels {
    /// The level of each process that may assign in a delta cycle: one more than the greatest level
    /// of a net that it is sensitive to.
    pub levels: Vec<Option<u32>>,
    /// The lowest net of the level below that it is sensitive to; none at level 1.
    pub from: Vec<Option<usize>>,
    /// The level of each net: how many nets the longest chain has that ends with it, each but the
    /// first looking at the one before. 0 of a net that changes behind no other.
    pub nets: Vec<u32>,
    /// The lowest net of the level below that a net looks at; none up to level 1.
    pub looks: Vec<Option<usize>>,
    /// The greatest level of a process, 0 without any.
    pub greatest: u32,
}

/// The greatest level of the nets that a process is sensitive to, and the lowest that has it: of a
/// process that may assign in a delta cycle.
fn below_of(net: &Net, kinds: &[ProcessKind], nets: &Levels, process: usize) -> Option<Highest>
    requires kinds { AreKinds (core net.now) kinds.now }
    requires there { process < length kinds.now }
    requires levels { HaveLevels (core net.now) nets.now }
    ensures { IsBelow (core net.now) nets.now process result }
{
    nets_meet_the_laws();
    net.is_elaborated();
    let may = is_combinational(kinds, process)
        || (resets(kinds[process]) && follows_driver(net, process));
    if !may {
        return None;
    }
    Some(highest_of(
        wakes_of(net, process),
        Counting::Each,
        &nets.levels,
        &nets.from,
    ))
}

/// The levels of so many nets, of the rows of a table.
fn nets_of(alloc: Global, levels: &[Option<u32>], nets: usize) -> Result<Vec<u32>, NoMemory>
    requires { nets ≤ length levels.now }
    ensures many { IfOk result (λ v. length v.items ≡ nets) }
    ensures each { IfOk result (λ v. (n : ℕ) → n < nets
        → slice_index v.items n ≡ unwrap_or (l.level_of levels.now n) 0) }
{
    let mut are = Vec::new(alloc);
    for net in 0..nets {
        are.push(levels[net].unwrap_or(0))?;
    }
    Ok(are)
}

/// The levels of a netlist's nets, and of its processes by them, from those of the table of its
/// nets.
pub fn levels_of(
    alloc: Global,
    net: &Net,
    kinds: &[ProcessKind],
    rows: Levels,
) -> Result<NetLevels, NoMemory>
    requires kinds { AreKinds (core net.now) kinds.now }
    requires rows { AreLevelsOfRows (core net.now) rows }
    ensures no_loop { OnOk result (HasNoNetLoop (core net.now)) }
    ensures levels { IfOk result (AreReported (core net.now)) }
    ensures few { IfOk result (λ l. l.greatest + 1 < 2 ^ 32) }
{
    simulation_laws::net_levels_are_shown();
    nets_meet_the_laws();
    net.is_elaborated();
    let nets = nets_of(alloc, &rows.levels, net.nets())?;
    let mut levels = Vec::new(alloc);
    let mut from = Vec::new(alloc);
    let mut greatest = 0;
    for process in 0..kinds.len() {
        match below_of(net, kinds, &rows, process) {
            Some(below) => {
                let level = below.level + 1;
                levels.push(Some(level))?;
                from.push(below.row)?;
                greatest = greatest.max(level);
            }
            None => {
                levels.push(None)?;
                from.push(None)?;
            }
        }
    }
    let mut looks = rows.from;
    looks.truncate(net.nets());
    Ok(NetLevels {
        levels,
        from,
        nets,
        looks,
        greatest,
    })
}
