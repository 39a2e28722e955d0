//! Levels of nets.

ghost use Rattle.std.specs.Prelude.{ℕ, ◌<◌, All, length, IfOk};
ghost use Rattle.rtl_model.specs.simulation.Accepted.{IsAccepted, IsByNets};
ghost use Rattle.rtl_model.specs.simulation.Levels.{AreLevels};
ghost use Rattle.rtl_kernel.specs.drivers.Transactions.{nets_of};
ghost use Rattle.rtl_net.specs.Core.{core};
ghost use Rattle.rtl_levels.specs.Scheduled.{GetLevel};
ghost use Rattle.rtl_levels.specs.Visits.{AreNetLevels};

use rtl_net::{Driver, Net};
use std::alloc::{AllocError, Global};

/// By the levels of the processes of an accepted netlist that is judged by processes those of its
/// nets: that of the combinational process that drives the net, and 0 of a net that none drives.
pub fn levels_of_nets(
    alloc: Global,
    net: &Net,
    levels: &[Option<u32>],
) -> Result<Vec<u32>, AllocError>
    requires accepted { IsAccepted (core net.now) }
    requires by_processes { IsByNets (core net.now) → ⊥ }
    requires levels { (greatest : ℕ) × AreLevels (core net.now) levels.now greatest }
    ensures { IfOk result (λ nets. AreNetLevels (core net.now) nets.items) }
{
    let processes = net.processes();
    let mut nets = vec![in alloc; 0; net.nets()]?;
    for process in 0..processes.len() {
        if let Some(level) = levels[process] {
            set_levels(processes[process].drives.as_slice(), level, &mut nets);
        }
    }
    Ok(nets)
}

/// Gives the nets of these drivers this level.
fn set_levels(drives: &[Driver], level: u32, nets: &mut Vec<u32>)
    requires { All (λ n. n < length nets.old.items) (nets_of drives.now) }
    ensures { GetLevel (nets_of drives.now) level nets.old.items nets.new.items }
{
    for driver in drives {
        nets[driver.net] = level;
    }
}
