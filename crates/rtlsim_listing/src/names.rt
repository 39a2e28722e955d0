//! Names of what a verdict speaks of.

ghost use Rattle.std.specs.Prelude.{◌≡◌, IfOk};
ghost use Rattle.rtl_net.specs.Names as spec;
ghost use Rattle.rtlsim_listing.specs.CheckText as text;

use rtl_net::{Net, NoMemory};
use std::alloc::Global;

/// The name of a net, empty where there is no net of this number. It takes the memory of the name.
pub fn net_name(alloc: Global, net: &Net, number: usize) -> Result<Vec<u8>, NoMemory>
    ensures { IfOk result (λ name. name.items ≡ spec.net_name net.now number) }
{
    if number < net.nets() {
        return net.net_name(number);
    }
    Ok(Vec::new(alloc))
}

/// The name of a process, empty where there is no process of this number.
pub fn process_name(alloc: Global, net: &Net, number: usize) -> Result<Vec<u8>, NoMemory>
    ensures { IfOk result (λ name. name.items ≡ spec.process_name net.now number) }
{
    if number < net.processes().len() {
        return net.process_name(number);
    }
    Ok(Vec::new(alloc))
}

/// The name of the process whose driver a source is, or `idle` of a port's without one.
pub fn source_name(alloc: Global, net: &Net, process: Option<usize>) -> Result<Vec<u8>, NoMemory>
    ensures { IfOk result (λ name. name.items ≡ text.source_name net.now process) }
{
    match process {
        Some(process) => process_name(alloc, net, process),
        None => Ok(Vec::from_slice(alloc, b"idle")?),
    }
}
