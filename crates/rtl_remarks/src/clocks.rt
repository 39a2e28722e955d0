//! Clocks.

ghost use Rattle.std.specs.Prelude.{◌≡◌, ◌||◌, false, ℕ, IfOk};
ghost use Rattle.rtl_model.specs.bodies.Leaves.{event_of};
ghost use Rattle.rtl_body_facts.specs.Reading.{is_in};
ghost use Rattle.rtl_remarks.specs.Remarks as spec;
ghost use Rattle.rtl_remarks.specs.Tables.{AreThose};

use rtl_body_facts::sort_once;
use rtl_net::{Leaf, Net, NoMemory, Visit, walk_body};
use std::alloc::{AllocError, Global};

/// The nets of which an edge or another event was looked for so far.
#[derive(Drop)]
struct Events {
    nets: Vec<usize>,
    /// Whether memory for one was refused.
    refused: bool,
}

impl Visit for Events {
    ghost takes = { λ old leaf new. new.refused ≡ false
        → (old.refused ≡ false)
        × ((n : ℕ) → is_in n new.nets.items ≡ (is_in n old.nets.items || is_in n (event_of leaf))) };

    fn leaf(&mut self, leaf: Leaf<'_>) {
        if let Leaf::Event(net) = leaf {
            if self.nets.push(net as usize).is_err() {
                self.refused = true;
            }
        }
    }
}

/// The nets of which some process looks for an edge or another event, rising.
pub fn clocks_of(alloc: Global, net: &Net) -> Result<Vec<usize>, NoMemory>
    ensures { IfOk result (λ clocks. AreThose (spec.is_clock net.now) clocks.items) }
{
    let mut events = Events {
        nets: Vec::new(alloc),
        refused: false,
    };
    let processes = net.processes();
    for process in processes {
        walk_body(&process.body, &mut events);
    }
    let Events { mut nets, refused } = events;
    if refused {
        return Err(AllocError);
    }
    sort_once(&mut nets);
    Ok(nets)
}
