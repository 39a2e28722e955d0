//! Bodies that tell in which order they run.

ghost use Rattle.std.specs.Prelude.{◌≡◌, map, IfOk};

use rtl_drives::Drives;
use rtl_eval::Exec;
use std::alloc::{AllocError, Global};
use std::cell::Cell;

/// The form that the bodies of a netlist have.
#[derive(Clone, Copy)]
pub enum Bodies {
    Trees,
    Codes,
}

/// A body that keeps which run of all bodies its last one was, by a count that they share.
#[derive(Drop)]
pub struct Stamped<'a, E: Exec> {
    body: &'a E,
    count: &'a Cell<u32>,
    /// The number of the last run, of all runs of bodies from 1 on.
    pub stamp: Cell<u32>,
}

impl<'a, E: Exec> Exec for Stamped<'a, E> {
    ghost process = { λ b. E.process b.body.now };

    ghost types = { λ b. E.types b.body.now };

    ghost most = { λ b. E.most b.body.now };

    fn room(&self) -> usize {
        self.body.room()
    }

    fn run(&self, cur: &[u8], old: &[u8], out: &mut Drives) {
        let number = self.count.get().wrapping_add(1);
        self.count.set(number);
        self.stamp.set(number);
        self.body.run(cur, old, out);
    }
}

/// A body with a stamp for each body, none of which has run.
pub fn with_stamps<'a, E: Exec>(
    alloc: Global,
    bodies: &'a [E],
    count: &'a Cell<u32>,
) -> Result<Vec<Stamped<'a, E>>, AllocError>
    ensures { IfOk result (λ v. map (λ b. b.body.now) v.items ≡ bodies.now) }
{
    let mut stamped = Vec::with_capacity(alloc, bodies.len())?;
    for body in bodies {
        stamped.push(Stamped {
            body,
            count,
            stamp: Cell::new(0),
        })?;
    }
    Ok(stamped)
}
