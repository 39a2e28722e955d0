//! Marks of nets that may have changed.

ghost use Rattle.std.specs.Prelude.{◌≡◌, ℕ, ◌+◌, ◌-◌, ◌*◌, ◌/◌, ◌%◌, ◌<◌, ◌≤◌};
ghost use Rattle.std.specs.Prelude.{◌⊎◌, Contains, true, false, length, slice_index, slice_index_or, replicate, IfOk};
ghost use Rattle.rtl_net_groups.specs.Touching.{IsLeft, AreLeft, KeepsLeft, MarksRun};
ghost use Rattle.rtl_net_groups.specs.Groups.{IsListed};

use crate::groups::Groups;
use crate::search::{has_mark, next_marked};
use std::alloc::{AllocError, Global};
use std::marker::Model;

/// How many nets a chunk has.
const CHUNK: usize = 256;

/// How many places share the marks of what is listed for groups: number p has place p modulo this.
pub const PLACES: usize = 1024;

/// For each chunk of nets a mark, which one of them gets where it may have changed. So what follows
/// a few changes needn't look at all nets. All memory is taken by `new`.
#[derive(Drop)]
pub struct Touched {
    nets: usize,
    marks: Vec<bool>,
}

impl Model for Touched {
    ghost use Rattle.rtl_net_groups.specs.Touching.{Chunks};

    ghost Value = { Chunks };

    ghost use Rattle.std.specs.Prelude.{◌≡◌, ◌+◌, ◌/◌, length};

    ghost view = { λ t. record { nets = t.nets; marks = t.marks.items } };

    ghost invariant = { λ t. length t.marks.items ≡ t.nets / 256 + 1 };
}

impl Touched {
    /// No marks, of so many nets.
    pub fn new(alloc: Global, nets: usize) -> Result<Touched, AllocError>
        ensures nets { IfOk result (λ t. t.nets ≡ nets) }
        ensures none { IfOk result AreLeft }
    {
        Ok(Touched {
            nets,
            marks: vec![in alloc; false; nets / CHUNK + 1]?,
        })
    }

    /// Takes all marks off.
    pub fn forget(&mut self)
        ensures nets { self.new.nets ≡ self.old.nets }
        ensures none { AreLeft self.new }
    {
        unmark(&mut self.marks);
    }

    /// Marks the chunks of the nets from one on and before an end.
    #[inline(always)]
    pub fn mark_run(&mut self, first: usize, end: usize)
        requires { end ≤ self.old.nets }
        ensures { MarksRun first end self.old self.new }
    {
        if first < end {
            mark_each(&mut self.marks, first / CHUNK, (end - 1) / CHUNK);
        }
    }

    /// Whether no chunk of the nets from one on and before an end is marked.
    pub fn are_left(&self, first: usize, end: usize) -> bool
        requires some { first < end }
        requires within { end ≤ self.now.nets }
        ensures left { result ≡ true → (n : ℕ) → first ≤ n → n < end → IsLeft self.now n }
        ensures marked { result ≡ false → (k : ℕ) × (first / 256 ≤ k) × (k ≤ (end - 1) / 256)
            × (slice_index_or self.now.marks k false ≡ true) }
    {
        !has_mark(&self.marks[first / CHUNK..(end - 1) / CHUNK + 1])
    }

    /// Makes values those of others, from which they differ in marked chunks at most. It looks at
    /// no others.
    pub fn bring(&self, from: &[u8], to: &mut [u8])
        requires from { length from.now ≡ self.now.nets }
        requires to { length to.old ≡ self.now.nets }
        requires left { KeepsLeft self.now to.old from.now }
        ensures { to.new ≡ from.now }
    {
        let mut chunk = next_marked(&self.marks, 0);
        while chunk < self.marks.len() {
            let first = chunk * CHUNK;
            bring_run(to, from, first, (from.len() - first).min(CHUNK));
            chunk = next_marked(&self.marks, chunk + 1);
        }
    }

    /// Marks the places of what is listed for nets whose values differ. It looks at the nets of
    /// marked chunks alone. A place that isn't there counts as marked.
    pub fn mark_listed(&self, groups: &Groups, old: &[u8], new: &[u8], marks: &mut [bool])
        requires groups { length groups.now.of_net ≡ self.now.nets }
        requires old { length old.now ≡ self.now.nets }
        requires new { length new.now ≡ self.now.nets }
        requires left { KeepsLeft self.now old.now new.now }
        ensures { (p n : ℕ) → n < self.now.nets → IsListed groups.now p n
            → slice_index_or marks.new (p % 1024) true ≡ false
            → slice_index old.now n ≡ slice_index new.now n }
    {
        let mut chunk = next_marked(&self.marks, 0);
        while chunk < self.marks.len() {
            let first = chunk * CHUNK;
            mark_others(groups, first, self.nets.min(first + CHUNK), old, new, marks);
            chunk = next_marked(&self.marks, chunk + 1);
        }
    }
}

/// Marks the places of what is listed for nets from one on and before an end whose values differ.
fn mark_others(
    groups: &Groups,
    first: usize,
    end: usize,
    old: &[u8],
    new: &[u8],
    marks: &mut [bool],
)
    requires groups { end ≤ length groups.now.of_net }
    requires old { end ≤ length old.now }
    requires new { end ≤ length new.now }
    ensures marked { (p n : ℕ) → first ≤ n → n < end → IsListed groups.now p n
        → slice_index_or marks.new (p % 1024) true ≡ false
        → slice_index old.now n ≡ slice_index new.now n }
    ensures kept { (k : ℕ) → slice_index_or marks.old k true ≡ true → slice_index_or marks.new k true ≡ true }
{
    for net in first..end {
        if old[net] != new[net] {
            mark_all(marks, groups.listed(groups.of_net()[net]));
        }
    }
}

/// Takes all marks off.
fn unmark(marks: &mut [bool])
    ensures { marks.new ≡ replicate (length marks.old) false }
{
    marks.fill(false);
}

/// Marks the places from one to another, which mostly are one.
#[inline(always)]
fn mark_each(marks: &mut [bool], first: usize, last: usize)
    requires order { first ≤ last }
    requires there { last < length marks.old }
    ensures there { (k : ℕ) → first ≤ k → k ≤ last → slice_index_or marks.new k false ≡ true }
    ensures others { (k : ℕ) → (k < first) ⊎ (last < k)
        → slice_index_or marks.new k false ≡ slice_index_or marks.old k false }
{
    marks[last] = true;
    for place in first..last {
        marks[place] = true;
    }
}

/// Marks the places of these numbers, as far as they are there.
fn mark_all(marks: &mut [bool], numbers: &[usize])
    ensures marked { (p : ℕ) → Contains numbers.now p → slice_index_or marks.new (p % 1024) true ≡ true }
    ensures kept { (k : ℕ) → slice_index_or marks.old k true ≡ true → slice_index_or marks.new k true ≡ true }
{
    for number in numbers {
        let place = *number % PLACES;
        if place < marks.len() {
            marks[place] = true;
        }
    }
}

/// Makes so many values from a place on those of others.
fn bring_run(to: &mut [u8], from: &[u8], first: usize, len: usize)
    requires from { first + len ≤ length from.now }
    requires as_many { length to.old ≡ length from.now }
    ensures there { (n : ℕ) → first ≤ n → n < first + len → slice_index to.new n ≡ slice_index from.now n }
    ensures others { (n : ℕ) → (n < first) ⊎ (first + len ≤ n) → slice_index to.new n ≡ slice_index to.old n }
{
    let end = first + len;
    to[first..end].copy_from_slice(&from[first..end]);
}
