//! Regions, in which no name is declared twice (IEEE 1076-2008, 12.1). Look-ups and declarations
//! don't walk lists.

ghost use Rattle.std.specs.Prelude.{◌≡◌, ◌≢◌, ◌≤◌, ◌<◌, ◌+◌, ◌-◌, ◌^◌, ◌∷◌, [], map, IfOk, OnOk, IfErr};
ghost use Rattle.indexmap.specs.IndexMap.{index_map_len};
ghost use Rattle.vhdl_names_declarations.specs.Entered.{ident, more};
ghost use Rattle.vhdl_names_declarations.specs.Settled.{settled_entry, settled_from, settled_between, finished};
ghost use Rattle.vhdl_names_declarations.specs.Counts.{AreSmall};
ghost use Rattle.vhdl_names_rules.specs.Gives.{Gives};
ghost use Rattle.vhdl_names_rules.specs.Visibility as visibility;
ghost use Rattle.vhdl_names_rules.specs.Visibility.{all_declared, names_of};
ghost use Rattle.vhdl_tree.specs.View.{ident_view};
ghost use Rattle.vhdl_names_sight.specs.Views.{meaning_view, entry_of, region_view};
ghost use Rattle.vhdl_names_rules.specs.declared.fault.NameFault.TheVariants.{NoMemory};
ghost use Rattle.vhdl_names_rules.specs.problems.Broken.{Tells};
ghost use Rattle.vhdl_names_rules.specs.problems.Declarations.{standing_twice};

use crate::class::ObjectClass;
use crate::counts::{Counts, region_is_small};
use std::alloc::{AllocError, Global};
use vhdl_names_rules::{DeclaredRange, NameFault, NameProblem};
use vhdl_names_sight::{Entry, Meaning, Region, names_are_apart};
use vhdl_tree::{Direction, Identifier};

/// One more declaration of a name at byte `at`, which is refused as Twice where the region has the
/// name. It takes the memory of the name and its entry.
pub fn declare_entry(
    alloc: Global,
    region: &mut Region,
    name: &[u8],
    at: usize,
    entry: Entry,
) -> Result<(), NameFault>
    ensures given { Gives (λ _. region_view region.new)
        (more (region_view region.old) (entry_of name.now entry ∷ [])) result }
    ensures told { IfErr result (Tells (standing_twice (region_view region.old) (ident at name.now ∷ []))) }
    ensures kept { IfErr result (λ f. f ≢ NoMemory → region_view region.new ≡ region_view region.old) }
{
    names_are_apart(region);
    if region.contains_key(name) {
        return Err(NameProblem::Twice.at(at));
    }
    let key = Vec::from_slice(alloc, name)?;
    region.insert(key, entry)?;
    Ok(())
}

/// One more declaration of a name at byte `at`, with no range.
pub fn declare_name(
    alloc: Global,
    region: &mut Region,
    name: &[u8],
    at: usize,
    meaning: Meaning,
) -> Result<(), NameFault>
    ensures given { Gives (λ _. region_view region.new)
        (more (region_view region.old) (visibility.declare name.now (meaning_view meaning) ∷ [])) result }
    ensures told { IfErr result (Tells (standing_twice (region_view region.old) (ident at name.now ∷ []))) }
    ensures kept { IfErr result (λ f. f ≢ NoMemory → region_view region.new ≡ region_view region.old) }
{
    declare_entry(alloc, region, name, at, meaning.entry())
}

/// One more declaration, which is refused as Twice where the region has its name. It takes the
/// memory of the name and its entry.
pub fn declare(
    alloc: Global,
    region: &mut Region,
    name: &Identifier,
    meaning: Meaning,
) -> Result<(), NameFault>
    ensures given { Gives (λ _. region_view region.new)
        (more (region_view region.old) (visibility.declare name.now.text.items (meaning_view meaning) ∷ [])) result }
    ensures told { IfErr result (Tells (standing_twice (region_view region.old) (ident_view name.now ∷ []))) }
    ensures kept { IfErr result (λ f. f ≢ NoMemory → region_view region.new ≡ region_view region.old) }
{
    declare_name(alloc, region, &name.text, name.at, meaning)
}

/// Names of one declaration, which hide outer ones and mean nothing yet. It takes the memory of the
/// names and their entries.
pub fn hide(alloc: Global, region: &mut Region, names: &[Identifier]) -> Result<(), NameFault>
    ensures given { Gives (λ _. region_view region.new)
        (more (region_view region.old) (all_declared visibility.unfinished (names_of (map ident_view names.now))))
        result }
    ensures told { IfErr result (Tells (standing_twice (region_view region.old) (map ident_view names.now))) }
{
    names_are_apart(region);
    for name in names {
        declare(alloc, region, name, Meaning::Unfinished)?;
    }
    names_are_apart(region);
    Ok(())
}

/// How the names of one declaration stand in a region: their class, the direction of the range that
/// each has, if it has one, and whether they are globally static alone.
#[derive(Drop)]
pub struct Settled {
    pub class: ObjectClass,
    pub direction: Option<Direction>,
    pub is_global: bool,
}

impl Settled {
    /// The entry of a name, which has so many of the same declaration before it, behind these.
    fn entry(&self, alloc: Global, counts: Counts, before: usize) -> Result<Entry, AllocError>
        requires before { before < 2 ^ 63 }
        requires counts { AreSmall counts (2 ^ 64 - before) }
        ensures { IfOk result (λ e. (n : visibility.Name) → entry_of n e ≡ settled_entry n self.now counts before) }
    {
        let range = match self.direction {
            None => None,
            Some(direction) => Some(DeclaredRange {
                number: counts.ranges + before,
                direction,
            }),
        };
        Ok(Entry {
            meaning: self
                .class
                .meaning(alloc, counts.next(&self.class) + before)?,
            range,
            is_global: self.is_global,
        })
    }
}

/// The names from one place to another are of one declaration, numbered on from these counts. It
/// takes the memory of constants' literals.
pub fn settle_between(
    alloc: Global,
    region: &mut Region,
    first: usize,
    last: usize,
    counts: Counts,
    settled: &Settled,
) -> Result<(), AllocError>
    requires places { first ≤ last }
    requires last { last ≤ index_map_len region.old }
    requires counts { AreSmall counts (2 ^ 63 + first) }
    ensures { OnOk result (region_view region.new ≡
        settled_between settled.now counts first last (region_view region.old)) }
{
    region_is_small(region);
    for place in first..last {
        region[place] = settled.entry(alloc, counts, place - first)?;
    }
    Ok(())
}

/// The names from a place on are of one declaration.
pub fn settle(
    alloc: Global,
    region: &mut Region,
    first: usize,
    counts: Counts,
    settled: &Settled,
) -> Result<(), AllocError>
    requires place { first ≤ index_map_len region.old }
    requires counts { AreSmall counts (2 ^ 63 + first) }
    ensures { OnOk result (region_view region.new ≡ settled_from settled.now counts first (region_view region.old)) }
{
    let last = region.len();
    settle_between(alloc, region, first, last, counts, settled)
}

/// The last name of a region, which stood unfinished, is what this entry says.
pub fn finish(region: &mut Region, place: usize, entry: Entry)
    requires { place < index_map_len region.old }
    ensures { region_view region.new ≡ finished entry place (region_view region.old) }
{
    region[place] = entry;
}
