//! The table of a netlist's nets: which rows feed which.

ghost use Rattle.std.specs.Prelude.{◌≡◌, ◌+◌, ◌<◌, ◌≤◌, ◌^◌, ◌++◌, ℕ, [], All, IfOk, OnOk, length};
ghost use Rattle.rtl_model.specs.simulation.Faults.{AreFaultsButLoops};
ghost use Rattle.rtl_net.specs.Core.{core};
ghost use Rattle.rtl_looks.specs.Denoting.{look_at, AreInOrder};
ghost use Rattle.rtl_net.specs.declared.process.Driver.{Driver};
ghost use Rattle.rtl_process_kinds.specs.KindViews.{AreKinds};
ghost use Rattle.rtl_check_nets.specs.Rows.{IsNetTable};
ghost use Rattle.rtl_check_nets.specs.Building.{rows_at, fed_by, counts_at, BeginsNets, AddsDriver, AddsDrivers, AddsHubs, AddsRegisters};
ghost use Rattle.rtl_check_nets.specs.Built.{IsBuilt};

use rtl_body_facts::{ProcessKind, assigned_nets};
use rtl_check_levels::Row;
use rtl_looks::{Hub, Hubs, Look, driver_looks};
use rtl_net::{Driver, Net, NoMemory, nets_meet_the_laws};
use rtl_process_kinds::{inner_reset, is_combinational, reset_branch};
use smallvec::SmallVec;
use std::alloc::Global;

/// Nets, and behind them hubs: of each those that feed it, and whether it counts as a level. Past
/// the end of `counts` nothing counts.
#[derive(Drop)]
pub struct NetTable {
    pub rows: Vec<Option<Row>>,
    pub counts: Vec<bool>,
}

/// Adds the row of a look, where so many rows are nets; a net that isn't there has none.
fn push_row(row: &mut Row, nets: usize, look: Look) -> Result<(), NoMemory>
    requires { All (λ r. r < 2 ^ 64) (rows_at nets look) }
    ensures { OnOk result (row.new.items ≡ row.old.items ++ rows_at nets look) }
{
    match look {
        Look::Net(net) => {
            if net < nets {
                row.push(net)?;
            }
        }
        Look::Hub(hub) => row.push(nets + hub)?,
    }
    Ok(())
}

/// What the driver at a place looks at.
fn look_of(looks: &[Option<Look>], place: usize) -> Option<Look>
    ensures { result ≡ look_at looks.now place }
{
    if place < looks.len() {
        looks[place]
    } else {
        None
    }
}

impl NetTable {
    /// So many nets, which nothing feeds.
    fn new(alloc: Global, nets: usize) -> Result<Self, NoMemory>
        ensures { IfOk result (BeginsNets nets) }
    {
        let mut rows = Vec::with_capacity(alloc, nets)?;
        for _net in 0..nets {
            rows.push(Some(SmallVec::new(alloc)))?;
        }
        Ok(NetTable {
            rows,
            counts: vec![in alloc; false; nets]?,
        })
    }

    /// A net that a combinational process drives by an entry with this look.
    fn add_driver(
        &mut self,
        alloc: Global,
        nets: usize,
        net: usize,
        look: Option<Look>,
    ) -> Result<(), NoMemory>
        requires rows { net < length self.old.rows.items }
        requires counts { net < length self.old.counts.items }
        requires look { All (λ r. r < 2 ^ 64) (fed_by nets look) }
        ensures { OnOk result (AddsDriver nets net look self.old self.new) }
    {
        let mut row = SmallVec::new(alloc);
        if let Some(look) = look {
            push_row(&mut row, nets, look)?;
        }
        self.rows[net] = Some(row);
        self.counts[net] = true;
        Ok(())
    }

    /// The nets that a combinational process drives.
    fn add_drivers(
        &mut self,
        alloc: Global,
        nets: usize,
        drives: &[Driver],
        looks: &[Option<Look>],
    ) -> Result<(), NoMemory>
        requires rows { All (λ (d : Driver). d.net < length self.old.rows.items) drives.now }
        requires counts { All (λ (d : Driver). d.net < length self.old.counts.items) drives.now }
        requires looks { All (λ look. All (λ r. r < 2 ^ 64) (fed_by nets look)) looks.now }
        ensures { OnOk result (AddsDrivers nets looks.now 0 drives.now self.old self.new) }
    {
        for place in 0..drives.len() {
            self.add_driver(alloc, nets, drives[place].net, look_of(looks, place))?;
        }
        Ok(())
    }

    /// Registers with these nets, which a reset with this net assigns.
    fn add_registers(
        &mut self,
        alloc: Global,
        nets: usize,
        registers: &[usize],
        reset: usize,
    ) -> Result<(), NoMemory>
        requires rows { All (λ n. n < length self.old.rows.items) registers.now }
        requires counts { All (λ n. n < length self.old.counts.items) registers.now }
        ensures { OnOk result (AddsRegisters nets reset registers.now self.old self.new) }
    {
        for &net in registers {
            self.add_driver(alloc, nets, net, Some(Look::Net(reset)))?;
        }
        Ok(())
    }

    /// The nets that a process drives and that may change behind others: all of a combinational
    /// process, and of a clocked one those that its reset assigns, if some process drives that.
    fn add_process(
        &mut self,
        alloc: Global,
        net: &Net,
        kinds: &[ProcessKind],
        process: usize,
        hubs: &mut Hubs,
    ) -> Result<(), NoMemory>
        requires kinds { AreKinds (core net.now) kinds.now }
        requires no_fault { AreFaultsButLoops (core net.now) [] }
        requires there { process < length kinds.now }
        requires built { IsBuilt (core net.now) hubs.old.hubs.items process self.old }
        ensures { OnOk result (IsBuilt (core net.now) hubs.new.hubs.items (process + 1) self.new) }
    {
        nets_meet_the_laws();
        net.is_elaborated();
        let nets = net.nets();
        let processes = net.processes();
        let drives = &processes[process].drives;
        if is_combinational(kinds, process) {
            let looks = driver_looks(&processes[process].body, hubs)?;
            return self.add_drivers(alloc, nets, drives, &looks);
        }
        let Some(reset) = inner_reset(net, process) else {
            return Ok(());
        };
        let branch = reset_branch(&processes[process].body);
        let registers = assigned_nets(alloc, drives, branch)?;
        self.add_registers(alloc, nets, &registers, reset)
    }

    /// The hubs, each fed by what its two looks are. A hub that nothing reads may look at a net
    /// that isn't there: that has no row.
    fn add_hubs(&mut self, alloc: Global, nets: usize, hubs: &[Hub]) -> Result<(), NoMemory>
        requires order { AreInOrder hubs.now }
        requires few { nets + length hubs.now ≤ 2 ^ 64 }
        ensures { OnOk result (AddsHubs nets hubs.now self.old self.new) }
    {
        for hub in hubs {
            let mut row = SmallVec::new(alloc);
            push_row(&mut row, nets, hub.left)?;
            push_row(&mut row, nets, hub.right)?;
            self.rows.push(Some(row))?;
        }
        Ok(())
    }
}

/// The table of a netlist's nets, each of which has one driver at most. It takes time and memory in
/// proportion to its nets and to what bodies look at.
pub fn table_of(alloc: Global, net: &Net, kinds: &[ProcessKind]) -> Result<NetTable, NoMemory>
    requires kinds { AreKinds (core net.now) kinds.now }
    requires no_fault { AreFaultsButLoops (core net.now) [] }
    ensures { IfOk result (λ t. IsNetTable (core net.now) t.rows.items (counts_at t)) }
{
    nets_meet_the_laws();
    net.is_elaborated();
    let mut hubs = Hubs::new(alloc);
    let mut table = NetTable::new(alloc, net.nets())?;
    for process in 0..kinds.len() {
        table.add_process(alloc, net, kinds, process, &mut hubs)?;
    }
    table.add_hubs(alloc, net.nets(), &hubs.hubs)?;
    Ok(table)
}
