//! Two watches at once.

ghost use Rattle.std.specs.Prelude.{◌≡◌};
ghost use Rattle.std.proofs.Common.{refl};

use byte_streams::Watch;

/// A watch that lets another one look on.
#[derive(Drop)]
pub struct Both<'a, W: Watch + Drop, V: Watch> {
    pub watch: W,
    pub other: &'a mut V,
}

impl<W: Watch + Drop, V: Watch> Watch for Both<'_, W, V> {
    ghost told = { λ start stands now. (now.other.ghost_name ≡ start.other.ghost_name)
        × W.told start.watch stands now.watch × V.told start.other.now stands now.other.now };

    ghost stuck = { λ start stands before now time watch. (watch.other.ghost_name ≡ start.other.ghost_name)
        × V.stuck start.other.now stands before now time watch.other.now };

    fn stood(&mut self, values: &[u8], until: u64) {
        self.watch.stood(values, until);
        self.other.stood(values, until);
    }

    fn unsettled(&mut self, before: &[u8], now: &[u8], time: u64) {
        self.watch.unsettled(before, now, time);
        self.other.unsettled(before, now, time);
    }

    ghost nothing = { λ watch. (refl, W.nothing watch.watch, V.nothing watch.other.now) };
}
