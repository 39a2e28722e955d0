//! Variables whose values would be kept from one run to the next.

ghost use Rattle.std.specs.Prelude.{◌≡◌, ◌<◌, ◌++◌, length, map, IfOk, OnOk};
ghost use Rattle.std.specs.List.{range_with_len};
ghost use Rattle.rtl_model.specs.simulation.Faults.{AreStored};
ghost use Rattle.rtl_net.specs.Core.{core};
ghost use Rattle.rtl_check.specs.Views.{fault_view};
ghost use Rattle.rtl_check.specs.Listing.{is_of_number, one_place, AddsFaults};
ghost use Rattle.rtl_check.specs.Places.{place_in, places_from, widths, added_if};

use crate::fault::CheckFault;
use rtl_net::{Net, NoMemory, Variable};
use rtl_stored::stored_elements;
use std::alloc::Global;

/// An element of a process's variables: the variable's number, and the element's place from the
/// left.
#[derive(Clone, Copy)]
pub struct VariableElement {
    pub variable: usize,
    pub place: usize,
}

/// Appends so many elements of a variable.
fn push_places(
    variable: usize,
    len: usize,
    places: &mut Vec<VariableElement>,
) -> Result<(), NoMemory>
    ensures { OnOk result (places.new.items ≡ places.old.items ++ map (place_in variable) (range_with_len 0 len)) }
{
    for place in 0..len {
        places.push(VariableElement { variable, place })?;
    }
    Ok(())
}

/// The elements of some variables, in order of their numbers.
fn places_of(alloc: Global, variables: &[Variable]) -> Result<Vec<VariableElement>, NoMemory>
    ensures { IfOk result (λ v. v.items ≡ places_from 0 (widths variables.now)) }
{
    let mut places = Vec::new(alloc);
    for (variable, declared) in variables.iter().enumerate() {
        push_places(variable, declared.starts.len(), &mut places)?;
    }
    Ok(places)
}

/// Appends the fault of an element, if it is stored.
fn push_stored(
    stored: bool,
    process: usize,
    at: VariableElement,
    faults: &mut Vec<CheckFault>,
) -> Result<(), NoMemory>
    ensures { OnOk result (faults.new.items ≡ faults.old.items
        ++ added_if stored (CheckFault.StoredVariable process at.variable at.place)) }
{
    if stored {
        faults.push(CheckFault::StoredVariable {
            process,
            variable: at.variable,
            place: at.place,
        })?;
    }
    Ok(())
}

/// Appends the faults of a process's variables.
fn stored_at(
    alloc: Global,
    net: &Net,
    process: usize,
    faults: &mut Vec<CheckFault>,
) -> Result<(), NoMemory>
    requires { process < length net.now.processes }
    ensures { OnOk result (AddsFaults (core net.now) (one_place 9 process) faults.old.items faults.new.items) }
{
    let processes = net.processes();
    let each = &processes[process];
    let places = places_of(alloc, &each.variables)?;
    let stored = stored_elements(alloc, &each.body, places.len())?;
    for element in 0..places.len() {
        push_stored(stored[element], process, places[element], faults)?;
    }
    Ok(())
}

/// Appends the faults of all processes' variables.
pub fn stored_variables(
    alloc: Global,
    net: &Net,
    faults: &mut Vec<CheckFault>,
) -> Result<(), NoMemory>
    ensures { OnOk result (AddsFaults (core net.now) (is_of_number 9) faults.old.items faults.new.items) }
{
    let processes = net.processes();
    for process in 0..processes.len() {
        stored_at(alloc, net, process, faults)?;
    }
    Ok(())
}

/// The variables of a netlist that are stored: all faults of that kind, in order, whatever other
/// faults there are. It takes time in proportion to the bodies and to the elements of variables,
/// and memory for the elements of one process's variables, and for the list.
pub fn stored(alloc: Global, net: &Net) -> Result<Vec<CheckFault>, NoMemory>
    ensures { IfOk result (λ faults. AreStored (core net.now) (map fault_view faults.items)) }
{
    let mut faults = Vec::new(alloc);
    stored_variables(alloc, net, &mut faults)?;
    Ok(faults)
}
