//! The levels of the nets of a netlist, or a loop among them.

ghost use Rattle.std.specs.Prelude.{◌≡◌, nat_lt, [], IfOk, filter};
ghost use Rattle.rtl_model.specs.simulation.Faults.{AreFaultsButLoops};
ghost use Rattle.rtl_net.specs.Core.{core};
ghost use Rattle.rtl_process_kinds.specs.KindViews.{AreKinds};
ghost use Rattle.rtl_check_nets.specs.NetOrders.{IsNetOrder};

use crate::levels::{NetLevels, levels_of};
use crate::table::table_of;
use rtl_body_facts::ProcessKind;
use rtl_check_levels::{Counting, LevelOrder, order_by};
use rtl_net::{Net, NoMemory};
use std::alloc::{AllocError, Global};

/// More nets and hubs than this aren't looked at: they would take more than 100 GB.
const MOST_ROWS: usize = 2_000_000_000;

/// What the nets of a netlist have that look at one another.
#[derive(Drop)]
pub enum NetOrder {
    /// Levels, where no net depends on itself.
    Leveled(NetLevels),
    /// A loop: each net looks at the next, and the last at the first. It is listed from its lowest
    /// net.
    Looped(Vec<usize>),
}

/// The nets of a loop in which there may be hubs.
fn nets_among(alloc: Global, rows: &[usize], nets: usize) -> Result<Vec<usize>, NoMemory>
    ensures { IfOk result (λ v. v.items ≡ filter (λ row. nat_lt row nets) rows.now) }
{
    let mut among = Vec::new(alloc);
    for &row in rows {
        if row < nets {
            among.push(row)?;
        }
    }
    Ok(among)
}

/// The levels of the nets of a netlist and of its processes by them, or a loop of nets: of a
/// netlist that has no fault, but perhaps a loop. It takes time and memory in proportion to
/// sensitivities and to what bodies look at.
pub fn net_order_of(alloc: Global, net: &Net, kinds: &[ProcessKind]) -> Result<NetOrder, NoMemory>
    requires kinds { AreKinds (core net.now) kinds.now }
    requires no_fault { AreFaultsButLoops (core net.now) [] }
    ensures { IfOk result (IsNetOrder (core net.now)) }
{
    let table = table_of(alloc, net, kinds)?;
    if table.rows.len() > MOST_ROWS {
        return Err(AllocError);
    }
    match order_by(alloc, Counting::Marked(&table.counts), &table.rows)? {
        LevelOrder::Leveled(levels) => {
            Ok(NetOrder::Leveled(levels_of(alloc, net, kinds, levels)?))
        }
        LevelOrder::Looped(rows) => Ok(NetOrder::Looped(nets_among(alloc, &rows, net.nets())?)),
    }
}
