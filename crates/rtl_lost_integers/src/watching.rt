//! Integers that are looked at while a netlist is simulated.

ghost use Rattle.std.specs.Prelude.{◌≡◌, false, IfOk, IsOk};
ghost use Rattle.rtl_lost_integers.specs.Lost as spec;
ghost use Rattle.rtl_lost_integers.specs.Watching.{AreWatched, IsToldOf, nothing_seen};

use crate::integer::{Integer, integers_of, look};
use byte_streams::Watch;
use rtl_net::{Net, NoMemory};
use std::alloc::Global;

/// A signal, by its number, that is an integer and is lost at this time, in ns.
#[derive(Clone, Copy)]
pub struct LostInteger {
    pub time: u64,
    pub signal: usize,
}

/// The integers of a netlist, until one is lost; and the time until which what was told of them
/// last stands.
#[derive(Drop)]
pub struct Integers {
    integers: Vec<Integer>,
    since: u64,
    lost: Option<LostInteger>,
}

impl Integers {
    /// The integers of a netlist, where they are asked for; else none, of which none is lost. It
    /// takes memory for their digits, and none where they aren't asked for. A moment takes time for
    /// these, until one is lost.
    pub fn of(alloc: Global, net: &Net, asked: bool) -> Result<Integers, NoMemory>
        ensures watched { IfOk result (AreWatched asked net.now) }
        ensures unasked { asked ≡ false → IsOk result }
    {
        let integers = if asked {
            integers_of(alloc, net)?
        } else {
            Vec::new(alloc)
        };
        Ok(Integers {
            integers,
            since: 0,
            lost: None,
        })
    }

    /// The first that was lost.
    pub fn lost(&self) -> Option<LostInteger>
        ensures { result ≡ self.now.lost }
    {
        self.lost
    }
}

/// The integer that is this signal and is lost at this time, if there is one.
fn lost_at(time: u64, signal: Option<usize>) -> Option<LostInteger>
    ensures { result ≡ spec.lost_at time signal }
{
    let signal = signal?;
    Some(LostInteger { time, signal })
}

impl Watch for Integers {
    ghost told = { IsToldOf };

    ghost stuck = { λ start stands before now time watch. IsToldOf start stands watch };

    fn stood(&mut self, values: &[u8], until: u64) {
        if self.lost.is_some() {
            return;
        }
        self.lost = lost_at(self.since, look(&mut self.integers, values));
        self.since = until;
    }

    fn unsettled(&mut self, _before: &[u8], _now: &[u8], _time: u64) {}

    ghost nothing = { nothing_seen };
}
