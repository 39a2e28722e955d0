//! Where concurrent statements stand.

ghost use Rattle.std.specs.Prelude.{◌≡◌};
ghost use Rattle.vhdl_names_rules.specs.units.Bytes.{process_bytes};
ghost use Rattle.vhdl_names_trees.specs.views.Integers.{range_view};
ghost use Rattle.vhdl_names_trees.specs.views.Tests.{static_test_view};
ghost use Rattle.vhdl_names_units.specs.views.Concurrent as analysed;
ghost use Rattle.vhdl_names_units.specs.views.Declarations.{all_ports_view};
ghost use Rattle.vhdl_names_units.specs.views.Units.{entity_view};
ghost use Rattle.vhdl_expand_rules.specs.Declarations as declarations;
ghost use Rattle.vhdl_expand_rules.specs.Expansion as definition;
ghost use Rattle.vhdl_expand_rules.specs.Integers as integers;
ghost use Rattle.vhdl_expand_rules.specs.views.Decisions.{turns_view};
ghost use Rattle.vhdl_expand_rules.specs.views.Integers.{Computes, Makes};
ghost use Rattle.vhdl_expand_operands.specs.Results.{Charges, Expands};
ghost use Rattle.vhdl_expand_bodies.specs.Sites.{IsSite, site_view};
ghost use Rattle.vhdl_expand_tree.specs.Costs.{charged, process_costs};
ghost use Rattle.vhdl_expand_tree.specs.Views.{budget_view, process_view};
ghost use Rattle.vhdl_expand_declarations.specs.Associations.{associated};
ghost use Rattle.vhdl_expand.specs.Spots.{spot_view, within};
ghost use Rattle.vhdl_expand_declarations.specs.Views.{declared_view};

use crate::processes::process;
use std::alloc::Global;
use vhdl_expand_bodies::Site;
use vhdl_expand_declarations::{InstanceObjects, associations, interface};
use vhdl_expand_rules::{ElabFault, Turns};
use vhdl_expand_tree::{Budget, Process};
use vhdl_names_trees::{StaticRange, StaticTest};
use vhdl_names_units as analysed;
use vhdl_names_units::Entity;

/// Where concurrent statements stand: what their instance declares, the values of the parameters of
/// the generates round them, and the labels of these, each with a dot behind it. One stands on the
/// stack for each of these generates, so it is small.
#[derive(Clone, Copy)]
pub(crate) struct Spot<'a> {
    pub declared: &'a InstanceObjects,
    pub generates: &'a [i32],
    pub prefix: &'a [u8],
}

impl Spot<'_> {
    /// This within generates whose parameters have these values, and whose labels are these.
    pub(crate) fn within<'b>(&'b self, generates: &'b [i32], prefix: &'b [u8]) -> Spot<'b>
        ensures spot { spot_view result ≡ within (spot_view self.now) generates.now prefix.now }
    {
        Spot {
            declared: self.declared,
            generates,
            prefix,
        }
    }

    /// What is known here.
    fn site(&self) -> Site<'_>
        ensures placed { IsSite result }
        ensures seen { site_view result ≡ (spot_view self.now).site }
    {
        self.declared.site(self.generates)
    }

    /// The turns of a for generate with this range, at most 4,096; a fault is StaticError or
    /// TooMany.
    #[inline(never)]
    pub(crate) fn turns(&self, range: &StaticRange, at: usize) -> Result<Turns, ElabFault>
        ensures { Makes turns_view (integers.turns (spot_view self.now).site.integers at
            (range_view range.now)) result }
    {
        let site = self.site();
        let turns = site.integers.turns(range, at);
        site.end();
        turns
    }

    /// Whether the condition of an if generate holds; a fault is StaticError.
    #[inline(never)]
    pub(crate) fn decision(&self, test: &StaticTest) -> Result<bool, ElabFault>
        ensures { Computes (integers.decision (spot_view self.now).site.integers (static_test_view test.now)) result }
    {
        let site = self.site();
        let holds = site.integers.decision(test);
        site.end();
        holds
    }

    /// A process that stands here, as `process` makes it.
    #[inline(never)]
    pub(crate) fn process(
        &self,
        alloc: Global,
        written: &analysed::Process,
        left: &mut Budget,
    ) -> Result<Process, ElabFault>
        ensures { Charges (process_bytes (analysed.process_view written.now))
            (λ made. (process_view made, budget_view left.new))
            (charged (budget_view left.old) process_costs
            (definition.process (spot_view self.now) (analysed.process_view written.now))) result }
    {
        process(
            alloc,
            self.declared,
            self.generates,
            self.prefix,
            written,
            left,
        )
    }

    /// What is known of an instance that stands here, as `interface` makes it.
    #[inline(never)]
    pub(crate) fn interface(
        &self,
        alloc: Global,
        written: &analysed::Instance,
        unit: &Entity,
    ) -> Result<InstanceObjects, ElabFault>
        ensures { Expands declared_view
            (declarations.interface (spot_view self.now).site (analysed.instance_view written.now).generics
            (entity_view unit.now)) result }
    {
        let site = self.site();
        let declared = interface(alloc, &site, &written.generics, unit);
        site.end();
        declared
    }

    /// Associates the ports of an instance that stands here, as `associations` does.
    #[inline(never)]
    pub(crate) fn associations(
        &self,
        alloc: Global,
        written: &analysed::Instance,
        unit: &Entity,
        declared: &mut InstanceObjects,
    ) -> Result<(), ElabFault>
        ensures { Expands (λ _. declared_view declared.new)
            (associated (spot_view self.now).site written.now.label.at (all_ports_view unit.now.ports)
            (analysed.instance_view written.now).ports (declared_view declared.old)) result }
    {
        let site = self.site();
        let at = written.label.at;
        let joined = associations(alloc, &site, unit, &written.ports, declared, at);
        site.end();
        joined
    }
}
