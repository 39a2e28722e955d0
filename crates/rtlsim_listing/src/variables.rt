//! Elements of variables.

ghost use Rattle.std.specs.Prelude.{◌≡◌, length, Some, IfOk};
ghost use Rattle.rtl_net.specs.Elaborated.{width_of};
ghost use Rattle.rtlsim_listing.specs.CheckText.{element_name, variable_name};

use rtl_net::{Net, NoMemory, Variable};
use std::alloc::Global;

/// The name of a variable's element, empty where there is no such variable.
pub fn element_of(
    alloc: Global,
    net: &Net,
    process: usize,
    variable: usize,
    place: usize,
) -> Result<Vec<u8>, NoMemory>
    ensures { IfOk result (λ text. text.items ≡ variable_name net.now process variable place) }
{
    net.is_elaborated();
    let Some(process) = net.processes().get(process) else {
        return Ok(Vec::new(alloc));
    };
    let Some(variable) = process.variables.get(variable) else {
        return Ok(Vec::new(alloc));
    };
    element_name(alloc, variable, place)
}

/// The name of a variable's element, with its index where the variable is a vector or an integer.
fn element_name(alloc: Global, variable: &Variable, place: usize) -> Result<Vec<u8>, NoMemory>
    requires declared { length variable.now.starts.items ≡ width_of variable.now.kind }
    ensures { IfOk result (λ text. text.items ≡ element_name place (Some variable.now)) }
{
    let mut text = Vec::from_slice(alloc, &variable.name)?;
    if place < variable.starts.len() {
        variable
            .kind
            .push_index(place, variable.starts.len(), &mut text)?;
    }
    Ok(text)
}
