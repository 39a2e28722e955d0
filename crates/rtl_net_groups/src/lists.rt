//! Lists in one row.

ghost use Rattle.std.specs.Prelude.{◌≡◌, ◌<◌, ◌++◌, ◌∷◌, [], length, slice_index_or, IfOk, OnOk, OnErr};
ghost use Rattle.rtl_net_groups.specs.Lists.{rows};

use drops::take_apart;
use std::alloc::{AllocError, Global};
use std::marker::Model;

/// Lists that stand one behind the other in one row: however many they are, they take two
/// allocations.
pub struct Lists<T> {
    /// Where each list starts, and behind that where the last one ends.
    starts: Vec<usize>,
    items: Vec<T>,
}

impl<T: Drop> Drop for Lists<T> {
    fn drop(self) {
        take_apart!(self: { starts, items });
    }
}

impl<T> Model for Lists<T> {
    ghost use Rattle.std.specs.Prelude.{List};

    ghost Value = { List (List T) };

    ghost use Rattle.std.specs.Prelude.{length};
    ghost use Rattle.rtl_net_groups.specs.Lists.{lists_of, EndAt};

    ghost view = { λ l. lists_of l.starts.items l.items.items };

    ghost invariant = { λ l. EndAt l.starts.items (length l.items.items) };
}

impl<T: Copy> Lists<T> {
    /// No list.
    pub fn new(alloc: Global) -> Result<Lists<T>, AllocError>
        ensures { IfOk result (λ l. l ≡ []) }
    {
        let mut starts = Vec::new(alloc);
        starts.push(0)?;
        Ok(Lists {
            starts,
            items: Vec::new(alloc),
        })
    }

    /// These lists.
    pub fn from_rows(alloc: Global, lists: &[Vec<T>]) -> Result<Lists<T>, AllocError>
        ensures { IfOk result (λ l. l ≡ rows lists.now) }
    {
        let mut all = Lists::new(alloc)?;
        for list in lists {
            all.push(list.as_slice())?;
        }
        Ok(all)
    }

    /// Puts a list behind the others.
    pub fn push(&mut self, list: &[T]) -> Result<(), AllocError>
        ensures ok { OnOk result (self.new ≡ self.old ++ list.now ∷ []) }
        ensures err { OnErr result (self.new ≡ self.old) }
    {
        self.starts.reserve(1)?;
        self.items.extend_from_slice(list)?;
        self.starts.push_reserved(self.items.len());
        Ok(())
    }

    /// How many lists there are.
    pub fn count(&self) -> usize
        ensures { result ≡ length self.now }
    {
        self.starts.len() - 1
    }

    /// The list at a place.
    pub fn get(&self, place: usize) -> &[T]
        requires { place < length self.now }
        ensures { result.now ≡ slice_index_or self.now place [] }
    {
        &self.items[self.starts[place]..self.starts[place + 1]]
    }
}
