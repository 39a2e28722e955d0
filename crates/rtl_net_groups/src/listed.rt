//! The processes for which the nets of each group are listed.

ghost use Rattle.std.specs.Prelude.{◌≡◌, ◌<◌, All, length, IfOk, OnOk};
ghost use Rattle.rtl_net_groups.specs.Groups.{AreRuns};
ghost use Rattle.rtl_net_groups.specs.Lists.{rows};
ghost use Rattle.rtl_net_groups.specs.steps.Listed.{IsListedIn, AreListedByFirst};

use crate::lists::Lists;
use crate::runs::Runs;
use std::alloc::{AllocError, Global};

/// For each group the processes for which its first net is listed.
pub fn listed_by_group(
    alloc: Global,
    runs: &Runs,
    nets_of: &Lists<usize>,
) -> Result<Lists<usize>, AllocError>
    requires runs { AreRuns runs.now.of_net.items runs.now.first.items }
    requires there { All (λ nets. All (λ n. n < length runs.now.of_net.items) nets) nets_of.now }
    ensures as_many { IfOk result (λ listed. length listed ≡ length runs.now.first.items) }
    ensures listed { IfOk result (λ listed. AreListedByFirst nets_of.now runs.now.first.items listed) }
{
    let mut by_group = Vec::with_capacity(alloc, runs.first.len())?;
    for _group in 0..runs.first.len() {
        by_group.push(Vec::new(alloc))?;
    }
    for process in 0..nets_of.count() {
        list_process(runs, process, nets_of.get(process), &mut by_group)?;
    }
    Lists::from_rows(alloc, &by_group)
}

/// Puts a process into the rows of the groups whose first nets are among these.
fn list_process(
    runs: &Runs,
    process: usize,
    nets: &[usize],
    by_group: &mut Vec<Vec<usize>>,
) -> Result<(), AllocError>
    requires runs { AreRuns runs.now.of_net.items runs.now.first.items }
    requires there { All (λ n. n < length runs.now.of_net.items) nets.now }
    requires as_many { length by_group.old.items ≡ length runs.now.first.items }
    ensures as_many { length by_group.new.items ≡ length by_group.old.items }
    ensures added { OnOk result (IsListedIn process nets.now runs.now.first.items (rows by_group.old.items)
        (rows by_group.new.items)) }
{
    for net in nets {
        let group = runs.of_net[*net];
        if runs.first[group] == *net {
            by_group[group].push(process)?;
        }
    }
    Ok(())
}
