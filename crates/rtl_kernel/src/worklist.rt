//! Sets of numbers that are worked off: each call costs no more than what it touches.

ghost use Rattle.std.specs.Prelude.{◌≡◌, ◌<◌, false, [], length, replicate, true, All, Contains, IfOk};
ghost use Rattle.rtl_kernel.specs.worklists.Marked.{AreMarked};
ghost use Rattle.rtl_kernel.specs.worklists.Numbers.{IsWith};

use std::alloc::{AllocError, Global};
use std::marker::Model;

/// A set of numbers below a bound: a mark for each number, and a list of the marked ones. All
/// memory is taken by `new`.
#[derive(Drop)]
pub struct Worklist {
    marks: Vec<bool>,
    members: Vec<usize>,
}

impl Model for Worklist {
    ghost use Rattle.rtl_kernel.specs.worklists.Numbers.{Numbers};

    ghost Value = { Numbers };

    ghost use Rattle.rtl_kernel.specs.worklists.Marked.{numbers_of, IsMarked};

    ghost view = { numbers_of };

    ghost invariant = { IsMarked };
}

impl Worklist {
    /// The empty set of numbers below `bound`.
    pub fn new(alloc: Global, bound: usize) -> Result<Worklist, AllocError>
        ensures { IfOk result (λ w. w ≡ record { bound = bound; members = [] }) }
    {
        Ok(Worklist {
            marks: vec![in alloc; false; bound]?,
            members: Vec::with_capacity(alloc, bound)?,
        })
    }

    /// The numbers, in the order in which they came.
    pub fn members(&self) -> &[usize]
        ensures value { result.now ≡ self.now.members }
        ensures below { All (λ n. n < self.now.bound) result.now }
    {
        self.members.as_slice()
    }

    /// Puts a number in, unless it is there. Answers whether it wasn't.
    pub fn insert(&mut self, number: usize) -> bool
        requires { number < self.old.bound }
        ensures with { IsWith number self.old self.new }
        ensures first { result ≡ true → Contains self.old.members number → ⊥ }
        ensures there { result ≡ false → Contains self.old.members number }
    {
        if self.marks[number] {
            return false;
        }
        self.marks[number] = true;
        self.members.push_reserved(number);
        true
    }

    /// Takes all numbers out. It looks at those that are there and at no others.
    pub fn clear(&mut self)
        ensures { self.new ≡ record (self.old) { members = [] } }
    {
        unmark(&mut self.marks, &self.members);
        self.members.clear();
    }
}

/// Takes off the marks at these places, which are all that there are.
fn unmark(marks: &mut [bool], places: &[usize])
    requires { AreMarked marks.old places.now }
    ensures { marks.new ≡ replicate (length marks.old) false }
{
    for place in places {
        marks[*place] = false;
    }
}
