//! The search for levels: a row gets its level as soon as all that feed it have theirs.

ghost use Rattle.std.specs.Prelude.{◌≡◌, ℕ, ◌<◌, ◌≤◌, ◌^◌, [], All, length, None, Some, IsSome, IfOk, OnOk, IfSome, IfNone};
ghost use Rattle.rtl_check_levels.specs.declared.counting.Counting.{Counting};
ghost use Rattle.rtl_check_levels.specs.Feeding.{IsClosed, IsIn, feeders_of};
ghost use Rattle.rtl_check_levels.specs.Levels.{level_of};
ghost use Rattle.rtl_check_levels.specs.Finding.{IsFinding, IsAmong, Grows, IsRanked, AreReleased, Waits};

use crate::counting::Counting;
use crate::highest::{first_open, highest_of};
use crate::table::Row;
use std::alloc::{AllocError, Global};
use std::mem;

/// A row that waits for another, and the one that began to wait for the same before it.
#[derive(Clone, Copy)]
pub struct Wait {
    pub row: usize,
    /// How many waits there are up to that one; 0 where there is none.
    pub before: usize,
}

/// What is found so far.
#[derive(Drop)]
pub struct Finding {
    /// The level of each row that has one.
    pub levels: Vec<Option<u32>>,
    /// Of each row that has a level the lowest that is seen of those that feed it at the greatest
    /// level.
    pub from: Vec<Option<usize>>,
    /// The greatest level.
    pub greatest: u32,
    /// Whoever has waited, in order of time.
    pub waits: Vec<Wait>,
    /// For each row without a level how many waits there are up to the last of those for it; 0
    /// where none waits.
    pub last: Vec<usize>,
    /// Of those that feed a row, how many from the first on are known to have levels.
    pub passed: Vec<usize>,
    /// The rows whose level was found since those that waited for them were looked at.
    pub ready: Vec<usize>,
}

impl Finding {
    /// Nothing is found yet.
    fn new(alloc: Global, table: &[Option<Row>]) -> Result<Self, AllocError>
        ensures sound { (counting : Counting) → IfOk result (λ f. IsFinding counting table.now f) }
        ensures none_ready { IfOk result (λ f. f.ready.items ≡ []) }
    {
        Ok(Finding {
            levels: vec![in alloc; None; table.len()]?,
            from: vec![in alloc; None; table.len()]?,
            greatest: 0,
            waits: Vec::new(alloc),
            last: vec![in alloc; 0; table.len()]?,
            passed: vec![in alloc; 0; table.len()]?,
            ready: Vec::new(alloc),
        })
    }

    /// Gives row q its level, all that feed it having theirs.
    fn settle(
        &mut self,
        counting: Counting<'_>,
        table: &[Option<Row>],
        q: usize,
        feeders: &[usize],
    ) -> Result<(), AllocError>
        requires sound { IsFinding counting table.now self.old }
        requires closed { IsClosed table.now }
        requires few { length table.now < 2 ^ 32 }
        requires inside { IsIn table.now q }
        requires feeders { feeders.now ≡ feeders_of table.now q }
        requires unsettled { level_of self.old.levels.items q ≡ None }
        requires each { All (λ p. IsSome (level_of self.old.levels.items p)) feeders.now }
        ensures sound { OnOk result (IsFinding counting.entry table.now self.new) }
        ensures grows { OnOk result (Grows self.old self.new) }
        ensures settled { OnOk result (IsSome (level_of self.new.levels.items q)) }
    {
        let below = highest_of(feeders, counting, &self.levels, &self.from);
        let level = below.level + counting.as_level(q);
        self.levels[q] = Some(level);
        self.from[q] = below.row;
        self.greatest = self.greatest.max(level);
        self.ready.push(q)?;
        Ok(())
    }

    /// Gives row q its level if all that feed it have theirs, else lets it wait for the first
    /// that hasn't.
    fn place(
        &mut self,
        counting: Counting<'_>,
        table: &[Option<Row>],
        q: usize,
    ) -> Result<(), AllocError>
        requires sound { IsFinding counting table.now self.old }
        requires closed { IsClosed table.now }
        requires few { length table.now < 2 ^ 32 }
        requires there { q < length table.now }
        ensures sound { OnOk result (IsFinding counting.entry table.now self.new) }
        ensures grows { OnOk result (Grows self.old self.new) }
        ensures placed { OnOk result (IsRanked table.now self.new q) }
    {
        let Some(feeders) = &table[q] else {
            return Ok(());
        };
        if self.levels[q].is_some() {
            return Ok(());
        }
        let feeders = feeders.as_slice();
        let at = first_open(feeders, &self.levels, self.passed[q]);
        self.passed[q] = at;
        if at == feeders.len() {
            return self.settle(counting, table, q, feeders);
        }
        self.wait(q, feeders[at])?;
        Ok(())
    }

    /// Lets row q wait for row p.
    fn wait(&mut self, q: usize, p: usize) -> Result<(), AllocError>
        requires { p < length self.old.last.items }
        ensures { OnOk result (Waits q p self.old self.new) }
    {
        let before = self.last[p];
        self.waits.push(Wait { row: q, before })?;
        self.last[p] = self.waits.len();
        Ok(())
    }

    /// Places each of those that began to wait for the same row, up to the last of them: so many
    /// waits there are up to it.
    fn place_all(
        &mut self,
        counting: Counting<'_>,
        table: &[Option<Row>],
        last: usize,
    ) -> Result<(), AllocError>
        requires sound { IsFinding counting table.now self.old }
        requires closed { IsClosed table.now }
        requires few { length table.now < 2 ^ 32 }
        requires there { last ≤ length self.old.waits.items }
        ensures sound { OnOk result (IsFinding counting.entry table.now self.new) }
        ensures grows { OnOk result (Grows self.old self.new) }
        ensures placed { OnOk result ((q : ℕ) → IsAmong self.old.waits.items last q → IsRanked table.now self.new q) }
    {
        let mut at = last;
        while at > 0 {
            let wait = self.waits[at - 1];
            self.place(counting, table, wait.row)?;
            at = wait.before;
        }
        Ok(())
    }

    /// Takes those that wait for a row that is ready, by how many waits there are up to the last of
    /// them; none where no row is ready.
    fn release(&mut self, counting: Counting<'_>, table: &[Option<Row>]) -> Option<usize>
        requires sound { IsFinding counting table.now self.old }
        ensures sound { IsFinding counting.entry table.now self.new }
        ensures done { IfNone result ((self.new.ready.items ≡ []) × (self.new.levels ≡ self.old.levels)
            × (self.new.waits ≡ self.old.waits) × (self.new.last ≡ self.old.last)) }
        ensures released { IfSome result (AreReleased self.old self.new) }
    {
        let p = self.ready.pop()?;
        Some(mem::replace(&mut self.last[p], 0))
    }

    /// Places all that wait for rows that are ready, until none is.
    fn place_waiting(
        &mut self,
        counting: Counting<'_>,
        table: &[Option<Row>],
    ) -> Result<(), AllocError>
        requires sound { IsFinding counting table.now self.old }
        requires closed { IsClosed table.now }
        requires few { length table.now < 2 ^ 32 }
        ensures sound { OnOk result (IsFinding counting.entry table.now self.new) }
        ensures done { OnOk result (self.new.ready.items ≡ []) }
        ensures ranked { OnOk result ((q : ℕ) → IsRanked table.now self.old q → IsRanked table.now self.new q) }
    {
        while let Some(last) = self.release(counting, table) {
            self.place_all(counting, table, last)?;
        }
        Ok(())
    }
}

/// Gives each row its level that has one; the others wait. A row that is behind those that feed it
/// never waits, since each level that is found goes on at once to those that wait for it.
pub fn find(
    alloc: Global,
    counting: Counting<'_>,
    table: &[Option<Row>],
) -> Result<Finding, AllocError>
    requires closed { IsClosed table.now }
    requires few { length table.now < 2 ^ 32 }
    ensures sound { IfOk result (λ f. IsFinding counting.entry table.now f) }
    ensures done { IfOk result (λ f. f.ready.items ≡ []) }
    ensures placed { IfOk result (λ f. (q : ℕ) → IsRanked table.now f q) }
{
    let mut finding = Finding::new(alloc, table)?;
    for q in 0..table.len() {
        finding.place(counting, table, q)?;
        finding.place_waiting(counting, table)?;
    }
    Ok(finding)
}
