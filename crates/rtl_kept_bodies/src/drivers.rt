//! The drivers of kept variables, and the nets that a process reads.

ghost use Rattle.std.specs.Prelude.{◌≡◌, ◌++◌, ◌+◌, ◌≤◌, All, length, map, OnOk};
ghost use Rattle.std.specs.List.{range_with_len};
ghost use Rattle.rtl_net.specs.Nets.{driver_view};
ghost use Rattle.rtl_kept_bodies.specs.declared.kept.Kept.{Kept};
ghost use Rattle.rtl_kept_bodies.specs.Steps.{IsWithin, drivers_of, all_drivers_of};

use crate::kept::Kept;
use rtl_net::Driver;
use std::alloc::AllocError;

/// Adds the drivers of a variable, whose elements start with their part of `starts`.
fn add_drivers(kept: Kept, starts: &[u8], drives: &mut Vec<Driver>) -> Result<(), AllocError>
    requires { IsWithin (length starts.now) kept }
    ensures { OnOk result (map driver_view drives.new.items
        ≡ map driver_view drives.old.items ++ drivers_of starts.now kept) }
{
    for k in 0..kept.len {
        drives.push(Driver {
            net: kept.net as usize + k as usize,
            start: starts[kept.element as usize + k as usize],
        })?;
    }
    Ok(())
}

/// The same of variables.
pub(crate) fn add_all_drivers(
    kept: &[Kept],
    starts: &[u8],
    drives: &mut Vec<Driver>,
) -> Result<(), AllocError>
    requires { All (λ (k : Kept). IsWithin (length starts.now) k) kept.now }
    ensures { OnOk result (map driver_view drives.new.items
        ≡ map driver_view drives.old.items ++ all_drivers_of starts.now kept.now) }
{
    for variable in kept {
        add_drivers(*variable, starts, drives)?;
    }
    Ok(())
}

/// Adds so many nets, from this one on.
pub(crate) fn add_nets(first: usize, many: usize, reads: &mut Vec<usize>) -> Result<(), AllocError>
    requires { first + many ≤ 1048576 }
    ensures { OnOk result (reads.new.items ≡ reads.old.items ++ range_with_len first many) }
{
    for k in 0..many {
        reads.push(first + k)?;
    }
    Ok(())
}
