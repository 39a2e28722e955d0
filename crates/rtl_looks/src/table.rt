//! What drivers, or elements of variables, look at, by their numbers.

ghost use Rattle.std.specs.Prelude.{◌≡◌, ◌==◌, if◌then◌else◌, IsTrue, IsSome, ℕ, [], map, replicate, IfOk, OnOk};
ghost use Rattle.rtl_looks.specs.Denoting.{look_at};
ghost use Rattle.rtl_looks.specs.Targets.{first_at, was_at};

use crate::hubs::Look;
use std::alloc::{AllocError, Global};

/// What each of some numbers looks at; one past the end looks at nothing.
#[derive(Drop)]
pub(crate) struct Table {
    pub(crate) looks: Vec<Option<Look>>,
    /// Where a change of each number was noted last, in some list of changes.
    noted: Vec<usize>,
}

/// A change of what a number looks at, by what it looked at before.
#[derive(Clone, Copy)]
pub(crate) struct Change {
    pub(crate) number: usize,
    pub(crate) before: Option<Look>,
}

/// The same look so many times.
pub(crate) fn repeated(
    alloc: Global,
    look: Option<Look>,
    many: usize,
) -> Result<Vec<Option<Look>>, AllocError>
    ensures { IfOk result (λ v. v.items ≡ replicate many look) }
{
    let mut looks = Vec::new(alloc);
    looks.resize(many, look)?;
    Ok(looks)
}

/// What a number looks at in a table.
pub(crate) fn at(looks: &[Option<Look>], number: usize) -> Option<Look>
    ensures { result ≡ look_at looks.now number }
{
    if number < looks.len() {
        looks[number]
    } else {
        None
    }
}

impl Table {
    /// Where no number looks at anything.
    pub(crate) fn new(alloc: Global) -> Self
        ensures { result.looks.items ≡ [] }
    {
        Table {
            looks: Vec::new(alloc),
            noted: Vec::new(alloc),
        }
    }

    /// What a number looks at.
    pub(crate) fn at(&self, number: usize) -> Option<Look>
        ensures { result ≡ look_at self.now.looks.items number }
    {
        at(&self.looks, number)
    }

    /// What each of these looks at.
    pub(crate) fn at_each(
        &self,
        alloc: Global,
        numbers: &[usize],
    ) -> Result<Vec<Option<Look>>, AllocError>
        ensures { IfOk result (λ v. v.items ≡ map (look_at self.now.looks.items) numbers.now) }
    {
        numbers.iter().map(|number| self.at(*number)).collect(alloc)
    }

    /// Makes a number look at this.
    pub(crate) fn set(&mut self, number: usize, look: Option<Look>) -> Result<(), AllocError>
        ensures { OnOk result ((k : ℕ) → look_at self.new.looks.items k
            ≡ (if number == k then look else look_at self.old.looks.items k)) }
    {
        while self.looks.len() <= number {
            self.looks.push(None)?;
        }
        self.looks[number] = look;
        Ok(())
    }

    /// Whether a change of a number stands among these where one was noted last. (It may stand
    /// elsewhere among them.)
    fn is_noted(&self, number: usize, changes: &[Change]) -> bool
        ensures { IsTrue result → IsSome (first_at changes.now number) }
    {
        if number >= self.noted.len() {
            return false;
        }
        let place = self.noted[number];
        place < changes.len() && changes[place].number == number
    }

    /// Says at which place a change of a number is noted.
    fn note(&mut self, number: usize, place: usize) -> Result<(), AllocError>
        ensures { OnOk result (self.new.looks.items ≡ self.old.looks.items) }
    {
        while self.noted.len() <= number {
            self.noted.push(0)?;
        }
        self.noted[number] = place;
        Ok(())
    }

    /// The same, which is noted as a change, unless it is seen that one is.
    pub(crate) fn put(
        &mut self,
        number: usize,
        look: Option<Look>,
        changes: &mut Vec<Change>,
    ) -> Result<(), AllocError>
        ensures put { OnOk result ((k : ℕ) → look_at self.new.looks.items k
            ≡ (if number == k then look else look_at self.old.looks.items k)) }
        ensures kept { OnOk result ((k : ℕ) → was_at changes.new.items self.new.looks.items k
            ≡ was_at changes.old.items self.old.looks.items k) }
    {
        if self.is_noted(number, changes) {
            return self.set(number, look);
        }
        let before = self.at(number);
        self.note(number, changes.len())?;
        changes.push(Change { number, before })?;
        self.set(number, look)
    }
}
