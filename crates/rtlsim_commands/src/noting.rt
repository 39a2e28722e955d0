//! What is kept of a moment that doesn't settle.

ghost use Rattle.std.specs.Prelude.{◌≡◌, length, take};
ghost use Rattle.std.proofs.Common.{refl};
ghost use Rattle.rtl_simulation.specs.Simulated as spec;

use arrayvec::ArrayVec;
use byte_streams::Watch;

/// The numbers of nets that still change, in order: the first 17, which is one more than are named.
pub(crate) type Numbers = ArrayVec<usize, 17>;

/// Keeps which nets still change where a moment doesn't settle, and lets another watch look on.
#[derive(Drop)]
pub(crate) struct Noting<'a, V: Watch> {
    pub(crate) changing: Numbers,
    pub(crate) other: &'a mut V,
}

impl<V: Watch> Watch for Noting<'_, V> {
    ghost told = { λ start stands now. (now.other.ghost_name ≡ start.other.ghost_name)
        × V.told start.other.now stands now.other.now };

    ghost stuck = { λ start stands before now time watch. (watch.other.ghost_name ≡ start.other.ghost_name)
        × (watch.changing.items ≡ take 17 (spec.changing before now))
        × V.stuck start.other.now stands before now time watch.other.now };

    fn stood(&mut self, values: &[u8], until: u64) {
        self.other.stood(values, until);
    }

    fn unsettled(&mut self, before: &[u8], now: &[u8], time: u64) {
        self.changing = changing(before, now);
        self.other.unsettled(before, now, time);
    }

    ghost nothing = { λ watch. (refl, V.nothing watch.other.now) };
}

/// The nets whose values differ, 17 at most.
fn changing(before: &[u8], now: &[u8]) -> Numbers
    requires { length before.now ≡ length now.now }
    ensures { result.items ≡ take 17 (spec.changing before.now now.now) }
{
    let mut numbers = Numbers::new();
    for number in 0..now.len() {
        if before[number] != now[number] {
            let _is_kept = numbers.try_push(number);
        }
    }
    numbers
}
