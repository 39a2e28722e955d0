//! Processes whose drivers are one cut.

ghost use Rattle.std.specs.Prelude.{◌≡◌, length, map, IfOk};
ghost use Rattle.rtl_levels.specs.Scheduled.{whole_first};

use rtl_net_groups::{Cut, Cuts};
use std::alloc::{AllocError, Global};

/// Of each process whose drivers are one cut the first of their nets.
pub fn wholes_of(
    alloc: Global,
    cuts: &Cuts,
    processes: usize,
) -> Result<Vec<Option<usize>>, AllocError>
    requires { processes ≡ length cuts.now.cuts }
    ensures { IfOk result (λ wholes. wholes.items ≡ map whole_first cuts.now.cuts) }
{
    let mut wholes = Vec::with_capacity(alloc, processes)?;
    for process in 0..processes {
        wholes.push(whole_first(cuts.of(process)))?;
    }
    Ok(wholes)
}

/// The first net of these cuts, if they are one.
fn whole_first(cuts: &[Cut]) -> Option<usize>
    ensures { result ≡ whole_first cuts.now }
{
    if cuts.len() == 1 {
        Some(cuts[0].net)
    } else {
        None
    }
}
