//! The nets of drivers, in cuts.

ghost use Rattle.std.specs.Prelude.{◌≡◌, ◌<◌, All, length, IfOk};
ghost use Rattle.rtl_kernel.specs.drivers.Transactions.{all_targets, nets_of};
ghost use Rattle.rtl_net_groups.specs.Cuts.{AreCutsOf};
ghost use Rattle.rtl_net.specs.declared.process.Process.{Process};

use rtl_net::{Driver, Process};
use rtl_net_groups::{Cuts, Lists};
use std::alloc::{AllocError, Global};

/// The cuts of the drivers of these processes, whose nets are in these groups.
pub fn driver_cuts(
    alloc: Global,
    of_net: &[usize],
    processes: &[Process],
) -> Result<Cuts, AllocError>
    requires { All (λ (p : Process). All (λ n. n < length of_net.now) (nets_of p.drives.items)) processes.now }
    ensures { IfOk result (λ cuts. AreCutsOf of_net.now (all_targets processes.now) cuts) }
{
    let targets = target_lists(alloc, processes)?;
    Cuts::new(alloc, of_net, &targets)
}

/// The nets of the drivers of each process.
pub fn target_lists(alloc: Global, processes: &[Process]) -> Result<Lists<usize>, AllocError>
    ensures { IfOk result (λ targets. targets ≡ all_targets processes.now) }
{
    let mut targets = Lists::new(alloc)?;
    for process in processes {
        targets.push(&target_nets(alloc, &process.drives)?)?;
    }
    Ok(targets)
}

/// The nets of these drivers.
fn target_nets(alloc: Global, drives: &[Driver]) -> Result<Vec<usize>, AllocError>
    ensures { IfOk result (λ nets. nets.items ≡ nets_of drives.now) }
{
    let mut nets = Vec::with_capacity(alloc, drives.len())?;
    for driver in drives {
        nets.push(driver.net)?;
    }
    Ok(nets)
}
