//! What nets start with: the resolution of what their sources hold (IEEE 1076-2008, 14.7.3).

ghost use Rattle.std.specs.Prelude.{◌≡◌, ℕ, ◌<◌, ◌++◌, List, [], length, map, slice_index, IfOk, OnOk};
ghost use Rattle.std.specs.List.{range_with_len};
ghost use Rattle.vhdl_values.specs.Scalar.{value_of_code};
ghost use Rattle.rtl_model.specs.nets.CoreNetlist.{core_resolve};
ghost use Rattle.vhdl_connect.specs.Held.{Holds, at_net, drivers_hold, processes_hold, idle_hold, items_at, start_with};

use rtl_net::{Driver, IdlePort, Process};
use smallvec::SmallVec;
use std::alloc::{AllocError, Global};
use vhdl_values::{Nine, resolve};

/// What the sources of each of so many nets hold: its drivers, by process and place, and behind
/// them its idle ports. It takes the memory of the table, in time proportional to nets, drivers and
/// idle ports.
pub fn held(
    alloc: Global,
    nets: usize,
    processes: &[Process],
    idle: &[IdlePort],
) -> Result<Vec<SmallVec<u8, 1>>, AllocError>
    ensures length { IfOk result (λ table. length table.items ≡ nets) }
    ensures each { IfOk result (λ table.
        Holds (λ n. processes_hold processes.now n ++ idle_hold idle.now n) table.items) }
{
    let mut table = nothing(alloc, nets)?;
    add_processes(&mut table, processes)?;
    add_idle(&mut table, idle)?;
    Ok(table)
}

/// No value for each of so many nets.
fn nothing(alloc: Global, nets: usize) -> Result<Vec<SmallVec<u8, 1>>, AllocError>
    ensures length { IfOk result (λ table. length table.items ≡ nets) }
    ensures none { IfOk result (λ table. Holds (λ n. []) table.items) }
{
    let mut table = Vec::new(alloc);
    for _ in 0..nets {
        table.push(SmallVec::new(alloc))?;
    }
    Ok(table)
}

/// Puts a value behind those of a net, where that is there.
fn add_value(table: &mut [SmallVec<u8, 1>], net: usize, value: u8) -> Result<(), AllocError>
    ensures { OnOk result ((f : ℕ → List ℕ) → Holds f table.old → Holds (λ n. f n ++ at_net net value n) table.new) }
{
    if net >= table.len() {
        return Ok(());
    }
    table[net].push(value)?;
    Ok(())
}

/// Puts what drivers start with behind the values of their nets.
fn add_drivers(table: &mut [SmallVec<u8, 1>], drives: &[Driver]) -> Result<(), AllocError>
    ensures { OnOk result ((f : ℕ → List ℕ) → Holds f table.old
        → Holds (λ n. f n ++ drivers_hold drives.now n) table.new) }
{
    for driver in drives {
        add_value(table, driver.net, driver.start)?;
    }
    Ok(())
}

/// The same of all drivers of processes.
fn add_processes(table: &mut [SmallVec<u8, 1>], processes: &[Process]) -> Result<(), AllocError>
    ensures { OnOk result ((f : ℕ → List ℕ) → Holds f table.old
        → Holds (λ n. f n ++ processes_hold processes.now n) table.new) }
{
    for process in processes {
        add_drivers(table, &process.drives)?;
    }
    Ok(())
}

/// Puts what idle ports hold behind the values of their nets.
fn add_idle(table: &mut [SmallVec<u8, 1>], idle: &[IdlePort]) -> Result<(), AllocError>
    ensures { OnOk result ((f : ℕ → List ℕ) → Holds f table.old → Holds (λ n. f n ++ idle_hold idle.now n) table.new) }
{
    for port in idle {
        add_value(table, port.net, port.start)?;
    }
    Ok(())
}

/// The resolution of values by their codes; one alone is passed on as it is. It takes the memory of
/// a list, where they are several.
fn resolved(alloc: Global, values: &[u8]) -> Result<u8, AllocError>
    requires { 0 < length values.now }
    ensures { IfOk result (λ v. v ≡ core_resolve values.now) }
{
    if values.len() == 1 {
        return Ok(values[0]);
    }
    let several = nine_values(alloc, values)?;
    Ok(resolve(&several).code())
}

/// Values of the nine by their codes. It takes the memory of the list.
fn nine_values(alloc: Global, codes: &[u8]) -> Result<Vec<Nine>, AllocError>
    ensures { IfOk result (λ v. v.items ≡ map value_of_code codes.now) }
{
    let mut values = Vec::new(alloc);
    for code in codes {
        values.push(nine_value(*code))?;
    }
    Ok(values)
}

/// The value with this code; `X` for what is none.
fn nine_value(code: u8) -> Nine
    ensures { result ≡ value_of_code code }
{
    match Nine::from_code(code) {
        Some(value) => value,
        None => Nine::X,
    }
}

/// What each net starts with: the resolution of what its sources hold, or where it has none its
/// default. It takes the memory of the list, and of one of a net's values.
pub fn starts(
    alloc: Global,
    defaults: &[u8],
    held: &[SmallVec<u8, 1>],
) -> Result<Vec<u8>, AllocError>
    requires { length held.now ≡ length defaults.now }
    ensures { IfOk result (λ v. v.items ≡
        map (λ n. start_with (slice_index defaults.now n) (items_at held.now n))
        (range_with_len 0 (length defaults.now))) }
{
    let mut starts = Vec::new(alloc);
    for net in 0..defaults.len() {
        let start = start(alloc, defaults[net], held[net].as_slice())?;
        starts.push(start)?;
    }
    Ok(starts)
}

/// What a net with this default starts with, where its sources hold these values.
fn start(alloc: Global, default: u8, values: &[u8]) -> Result<u8, AllocError>
    ensures { IfOk result (λ v. v ≡ start_with default values.now) }
{
    if values.is_empty() {
        return Ok(default);
    }
    resolved(alloc, values)
}
