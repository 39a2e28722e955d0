//! What a reset's branch assigns: what the body does while the reset holds and there is no edge.

ghost use Rattle.std.specs.Prelude.{◌≡◌, ◌+◌, ◌<◌, IfOk, length, map};
ghost use Rattle.rtl_model.specs.bodies.Types.{KeepsTypes};
ghost use Rattle.rtl_model.specs.nets.FlatNetlist.{element_starts};
ghost use Rattle.rtl_model.specs.nets.CoreNetlist.{part_effect};
ghost use Rattle.rtl_net.specs.Nets.{process_view, variable_view};
ghost use Rattle.rtl_eval.specs.Trees.{process_of};

use rtl_drives::Drives;
use rtl_eval::{Exec, Tree};
use rtl_net::{Net, NoMemory, Process, Variable};
use std::alloc::Global;

/// What all nets start with.
pub fn starting_codes(alloc: Global, net: &Net) -> Result<Vec<u8>, NoMemory>
    ensures { IfOk result (λ codes. codes.items ≡ net.now.starts) }
{
    let nets = net.nets();
    let mut codes = Vec::with_capacity(alloc, nets)?;
    for number in 0..nets {
        codes.push(net.start(number))?;
    }
    Ok(codes)
}

/// What the elements of these variables start each run with.
fn variable_starts(alloc: Global, variables: &[Variable]) -> Result<Vec<u8>, NoMemory>
    ensures { IfOk result (λ starts. starts.items ≡ element_starts (map variable_view variables.now)) }
{
    let mut starts = Vec::new(alloc);
    for variable in variables {
        starts.extend_from_slice(variable.starts.as_slice())?;
    }
    Ok(starts)
}

/// What a process's body does where the nets have these values and nothing changes.
pub fn entries_of(
    alloc: Global,
    process: &Process,
    body: &Tree<'_>,
    values: &[u8],
) -> Result<Drives, NoMemory>
    requires process { process_of body.now ≡ process_view process.now }
    requires all { length values.now ≡ length body.now.net.types }
    requires values { KeepsTypes body.now.net.types values.now }
    ensures { IfOk result (λ drives. drives.entries
        ≡ part_effect (process_view process.now) (process_view process.now).body values.now values.now) }
{
    let starts = variable_starts(alloc, &process.variables)?;
    let mut entries = Drives::new(alloc, process.drives.len(), &starts, body.room())?;
    body.run(values, values, &mut entries);
    Ok(entries)
}
