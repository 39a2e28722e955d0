//! What targets look at behind the branches of an if, or the alternatives of a case: its parts.

ghost use Rattle.std.specs.Prelude.{◌≡◌, ◌<◌, ◌+◌, ℕ, None, IfOk, OnOk};
ghost use Rattle.std.specs.BTreeMap.{get};
ghost use Rattle.std.specs.Ordering.{nat_cmp};
ghost use Rattle.rtl_looks.specs.Parts as s;
ghost use Rattle.rtl_looks.specs.Parts.{Overs, TakesEnd, Takes, Finishes, Taken, Finished, end_at};

use crate::changes::Changes;
use crate::env::Env;
use crate::hubs::{Hubs, Look};
use crate::table::{Change, Table};
use std::alloc::{AllocError, Global};
use std::collections::BTreeMap;

/// What a target looks at behind any of the first parts, up to the last one that assigns it.
#[derive(Clone, Copy)]
pub(crate) struct End {
    pub(crate) look: Option<Look>,
    /// How many parts these are.
    pub(crate) parts: usize,
    /// Whether one of these parts doesn't assign it.
    pub(crate) skipped: bool,
}

impl End {
    /// Whether one of so many parts doesn't assign it.
    fn skips(self, parts: usize) -> bool
        ensures { result ≡ s.skips self parts }
    {
        self.skipped || self.parts < parts
    }

    /// What it looks at behind any of so many parts, where this is what it looked at before.
    fn over(
        self,
        parts: usize,
        before: Option<Look>,
        hubs: &mut Hubs,
    ) -> Result<Option<Look>, AllocError>
        ensures { IfOk result (λ look. Overs hubs.old.hubs.items hubs.new.hubs.items self parts before look) }
    {
        if self.skips(parts) {
            hubs.join(self.look, before)
        } else {
            Ok(self.look)
        }
    }
}

/// The ends of the numbers that some part assigns.
type EndOf = BTreeMap<usize, End>;

/// What the targets look at behind the parts so far.
#[derive(Drop)]
pub(crate) struct Ends {
    /// How many parts these are.
    pub(crate) parts: usize,
    pub(crate) drivers: EndOf,
    pub(crate) elements: EndOf,
}

impl Ends {
    /// Behind no part.
    pub(crate) fn new(alloc: Global) -> Self
        ensures parts { result.parts ≡ 0 }
        ensures drivers { (k : ℕ) → get nat_cmp result.drivers k ≡ None }
        ensures elements { (k : ℕ) → get nat_cmp result.elements k ≡ None }
    {
        Ends {
            parts: 0,
            drivers: BTreeMap::new(alloc),
            elements: BTreeMap::new(alloc),
        }
    }

    /// Takes one more part, which made these changes: they are taken back.
    pub(crate) fn take(
        &mut self,
        changes: &mut Changes,
        env: &mut Env,
        hubs: &mut Hubs,
    ) -> Result<(), AllocError>
        requires { self.old.parts < usize.MAX }
        ensures { OnOk result (Taken hubs.old.hubs.items hubs.new.hubs.items env.old env.new
            changes.old self.old self.new) }
    {
        take_each(
            &mut changes.drivers,
            self.parts,
            &mut env.drivers,
            &mut self.drivers,
            hubs,
        )?;
        take_each(
            &mut changes.elements,
            self.parts,
            &mut env.elements,
            &mut self.elements,
            hubs,
        )?;
        self.parts += 1;
        Ok(())
    }

    /// Takes one more part, which changes nothing.
    pub(crate) fn skip(&mut self)
        requires { self.old.parts < usize.MAX }
        ensures { self.new ≡ record self.old { parts = self.old.parts + 1 } }
    {
        self.parts += 1;
    }

    /// Each target looks at what it does behind any of the parts.
    pub(crate) fn finish(
        &mut self,
        env: &mut Env,
        hubs: &mut Hubs,
        changes: &mut Changes,
    ) -> Result<(), AllocError>
        ensures { OnOk result (Finished hubs.old.hubs.items hubs.new.hubs.items env.old env.new
            changes.old changes.new self.old) }
    {
        finish_each(
            &mut self.drivers,
            self.parts,
            &mut env.drivers,
            hubs,
            &mut changes.drivers,
        )?;
        finish_each(
            &mut self.elements,
            self.parts,
            &mut env.elements,
            hubs,
            &mut changes.elements,
        )
    }
}

/// The end of a number; one that no part assigns is behind none.
fn end_at(ends: &EndOf, number: usize) -> End
    ensures { result ≡ end_at ends.now number }
{
    match ends.get(&number) {
        None => End {
            look: None,
            parts: 0,
            skipped: false,
        },
        Some(end) => *end,
    }
}

/// Takes what a number looks at behind one more part, unless it is taken.
fn take_end(
    ends: &mut EndOf,
    number: usize,
    parts: usize,
    look: Option<Look>,
    hubs: &mut Hubs,
) -> Result<(), AllocError>
    requires { parts < usize.MAX }
    ensures { OnOk result (TakesEnd hubs.old.hubs.items hubs.new.hubs.items number parts look ends.old ends.new) }
{
    let end = end_at(ends, number);
    if end.parts > parts {
        return Ok(());
    }
    let look = hubs.join(end.look, look)?;
    let end = End {
        look,
        parts: parts + 1,
        skipped: end.skips(parts),
    };
    ends.insert(number, end)?;
    Ok(())
}

/// Takes the ends of one more part's changes, and takes these back, from the last.
fn take_each(
    changes: &mut Vec<Change>,
    parts: usize,
    table: &mut Table,
    ends: &mut EndOf,
    hubs: &mut Hubs,
) -> Result<(), AllocError>
    requires { parts < usize.MAX }
    ensures { OnOk result (Takes hubs.old.hubs.items hubs.new.hubs.items parts
        table.old.looks.items table.new.looks.items changes.old.items ends.old ends.new) }
{
    while let Some(change) = changes.pop() {
        let look = table.at(change.number);
        take_end(ends, change.number, parts, look, hubs)?;
        table.set(change.number, change.before)?;
    }
    Ok(())
}

/// Each number looks at what it does behind any of so many parts.
fn finish_each(
    ends: &mut EndOf,
    parts: usize,
    table: &mut Table,
    hubs: &mut Hubs,
    changes: &mut Vec<Change>,
) -> Result<(), AllocError>
    ensures { OnOk result (Finishes hubs.old.hubs.items hubs.new.hubs.items parts
        table.old.looks.items table.new.looks.items changes.old.items changes.new.items ends.old) }
{
    while let Some((number, end)) = ends.pop_first() {
        let look = end.over(parts, table.at(number), hubs)?;
        table.put(number, look, changes)?;
    }
    Ok(())
}
