//! The values of the nets.

ghost use Rattle.std.specs.Prelude.{◌≡◌, ◌+◌, ◌<◌, ◌≤◌, ℕ, true, false, length, slice_set, All, IfOk};
ghost use Rattle.rtl_net_groups.specs.Groups.{AreRuns};
ghost use Rattle.rtl_model.specs.basics.Valuations.{has_event};
ghost use Rattle.rtl_kernel.specs.kernel.Simulation.{changes_of};
ghost use Rattle.rtl_kernel.specs.values.TwoValues.{AreChanged, CoverEvents, HasEventIn, HasWritten, group_of};

use crate::worklist::Worklist;
use rtl_net_groups::{Groups, are_other, replace};
use std::alloc::{AllocError, Global};
use std::marker::Model;
use vhdl_values::Nine;

/// The nets' values before the last update and now, as codes, with the groups whose nets may differ
/// in the two: so what a cycle costs here goes by the groups of the nets that it changes. All
/// memory is taken by `new`.
#[derive(Drop)]
pub struct Values {
    groups: Groups,
    before: Vec<u8>,
    current: Vec<u8>,
    changed: Worklist,
    /// Whether each of the groups has been given values once, so that one of its nets has an event.
    once: bool,
}

/// Groups among whose nets are all that have an event.
#[derive(Clone, Copy)]
pub struct Changed<'a> {
    pub groups: &'a [usize],
    /// Whether each of the groups has a net with an event for sure.
    pub are_sure: bool,
}

impl Model for Values {
    ghost use Rattle.rtl_kernel.specs.values.TwoValues.{TwoValues};

    ghost Value = { TwoValues };

    ghost use Rattle.rtl_kernel.specs.values.Differing.{two_of, IsCovered};

    ghost view = { two_of };

    ghost invariant = { IsCovered };
}

impl Values {
    /// These values, before and now, of nets in these groups.
    pub fn new(alloc: Global, groups: Groups, start: &[u8]) -> Result<Values, AllocError>
        requires runs { AreRuns groups.of_net groups.first }
        requires each_group { length groups.listed ≡ length groups.first }
        requires each_net { length groups.of_net ≡ length start.now }
        ensures { IfOk result (λ v. v ≡ record { groups = groups; before = start.now; current = start.now }) }
    {
        let before = Vec::from_slice(alloc, start)?;
        let current = Vec::from_slice(alloc, start)?;
        let changed = Worklist::new(alloc, groups.count())?;
        Ok(Values {
            groups,
            before,
            current,
            changed,
            once: true,
        })
    }

    /// The groups of the nets.
    pub fn groups(&self) -> &Groups
        ensures value { result.now ≡ self.now.groups }
        ensures runs { AreRuns result.now.of_net result.now.first }
        ensures each_group { length result.now.listed ≡ length result.now.first }
        ensures each_net { length result.now.of_net ≡ length self.now.current }
    {
        &self.groups
    }

    /// The values before the last update.
    pub fn before(&self) -> &[u8]
        ensures value { result.now ≡ self.now.before }
        ensures as_many { length result.now ≡ length self.now.current }
    {
        self.before.as_slice()
    }

    /// The values now.
    pub fn now(&self) -> &[u8]
        ensures { result.now ≡ self.now.current }
    {
        self.current.as_slice()
    }

    /// Groups among whose nets are all that have an event.
    pub fn changed(&self) -> Changed
        ensures covers { CoverEvents self.now result.groups.now }
        ensures sure { result.are_sure ≡ true → All (HasEventIn self.now) result.groups.now }
    {
        Changed {
            groups: self.changed.members(),
            are_sure: self.once,
        }
    }

    /// Whether a net of a group has an event, which may be known for sure.
    pub fn has_event(&self, group: usize, is_sure: bool) -> bool
        requires group { group < length self.now.groups.listed }
        requires sure { is_sure ≡ true → HasEventIn self.now group }
        ensures yes { result ≡ true → HasEventIn self.now group }
        ensures no { result ≡ false → (n : ℕ) → n < length self.now.groups.of_net → group_of self.now n ≡ group
            → has_event self.now.before self.now.current n ≡ true → ⊥ }
    {
        if is_sure {
            return true;
        }
        let first = self.groups.first(group);
        let end = self.groups.end(group);
        are_other(&self.before[first..end], &self.current[first..end])
    }

    /// Begins an update: the values before are those of now, so that no net has an event.
    pub fn begin(&mut self)
        ensures { self.new ≡ record (self.old) { before = self.old.current } }
    {
        bring_up(
            &mut self.before,
            &self.current,
            &self.groups,
            self.changed.members(),
        );
        self.changed.clear();
        self.once = true;
    }

    /// Gives nets values now, one after the other.
    pub fn set_all(&mut self, changes: &[(usize, Nine)])
        requires { All (λ c. c.0 < length self.old.current) changes.now }
        ensures groups { self.new.groups ≡ self.old.groups }
        ensures before { self.new.before ≡ self.old.before }
        ensures current { AreChanged (changes_of changes.now) self.old.current self.new.current }
    {
        for (net, value) in changes {
            self.set(*net, value.code());
        }
    }

    /// Gives a net a value now.
    pub fn set(&mut self, net: usize, value: u8)
        requires { net < length self.old.current }
        ensures { self.new ≡ record (self.old) { current = slice_set self.old.current net value } }
    {
        if self.current[net] != value {
            self.current[net] = value;
            self.changed.insert(self.groups.of_net()[net]);
            self.once = false;
        }
    }

    /// Gives the nets from one on, all in this group, these values now.
    #[inline(always)]
    pub fn set_run(&mut self, group: usize, first: usize, values: &[u8])
        requires group { group < length self.old.groups.listed }
        requires there { first + length values.now ≤ length self.old.current }
        requires together { (k : ℕ) → k < length values.now → group_of self.old (first + k) ≡ group }
        ensures { HasWritten first values.now self.old self.new }
    {
        if replace(&mut self.current, first, values) {
            if !self.changed.insert(group) {
                self.once = false;
            }
        }
    }
}

/// Makes the values before those of now, where only nets of these groups may differ.
fn bring_up(before: &mut [u8], current: &[u8], groups: &Groups, changed: &[usize])
    requires as_many { length before.old ≡ length current.now }
    requires runs { AreRuns groups.now.of_net groups.now.first }
    requires each_group { length groups.now.listed ≡ length groups.now.first }
    requires each_net { length groups.now.of_net ≡ length current.now }
    requires covers { CoverEvents (record { groups = groups.now; before = before.old; current = current.now })
        changed.now }
    ensures { before.new ≡ current.now }
{
    for group in changed {
        let first = groups.first(*group);
        let end = groups.end(*group);
        let _differ = replace(before, first, &current[first..end]);
    }
}
