//! Concurrent statements, and the instances that they make (IEEE 1076-2008, clause 11).
//!
//! In each of 31 instances that stand in one another 63 generates may stand in one another, so a
//! generate keeps little on the stack: the statements in it are gone through in the frame of its
//! turn or branch, and what is known there and the labels are made in calls that end before it is
//! entered.

ghost use Rattle.std.specs.Prelude.{◌++◌, [], ◌∷◌, map, Ok};
ghost use Rattle.vhdl_names_rules.specs.units.Units.{generate_for, generate_if};
ghost use Rattle.vhdl_names_rules.specs.units.Bytes.{process_bytes, instance_bytes, concurrent_bytes, concurrents_bytes, units_bytes};
ghost use Rattle.vhdl_names_trees.specs.views.Integers.{range_view};
ghost use Rattle.vhdl_names_trees.specs.views.Tests.{static_test_view};
ghost use Rattle.vhdl_names_units.specs.views.Concurrent as units;
ghost use Rattle.vhdl_names_units.specs.views.Units.{entity_view};
ghost use Rattle.vhdl_expand_rules.specs.Expansion.{in_turn, in_branch, instance_of};
ghost use Rattle.vhdl_expand_operands.specs.Results.{Expands, Charges};
ghost use Rattle.vhdl_expand_tree.specs.Costs.{charged, instance_costs};
ghost use Rattle.vhdl_expand_tree.specs.Views.{instance_view, budget_view};
ghost use Rattle.vhdl_expand.specs.Making as made;
ghost use Rattle.vhdl_expand.specs.Making.{TurnsFit, adding, nothing_yet, progress_view};
ghost use Rattle.vhdl_expand.specs.Spots.{spot_view};
ghost use Rattle.vhdl_expand.specs.Turning.{TellsTurns};
ghost use Rattle.vhdl_expand_declarations.specs.Views.{declared_view};
ghost use Rattle.vhdl_expand.specs.Walks.{units_of, IsAmong};

use crate::nets::charge_own_nets;
use crate::prefix::{branch_prefix, labelled, turn_prefix};
use crate::progress::TreeProgress;
use crate::spot::Spot;
use std::alloc::Global;
use vhdl_expand_declarations::{InstanceObjects, declarations};
use vhdl_expand_rules::{ElabFault, ElabProblem};
use vhdl_expand_tree::{Budget, Instance, InstancePart};
use vhdl_names_trees::{StaticRange, StaticTest};
use vhdl_names_units as analysed;
use vhdl_names_units::{Concurrent, Entity, Generate, Scheme};

/// The units in which instances are made, of which so many may be nested from here on.
#[derive(Clone, Copy)]
pub(crate) struct Walk<'a> {
    pub alloc: Global,
    pub units: &'a [Entity],
    pub levels: u32,
}

impl Walk<'_> {
    /// Concurrent statements in order, behind what is made so far.
    #[cycle(concurrent)]
    #[inline(always)]
    fn concurrents(
        &self,
        spot: &Spot,
        list: &[Concurrent],
        so_far: &mut TreeProgress,
    ) -> Result<(), ElabFault>
        requires fits { TurnsFit so_far.old }
        ensures { Charges (concurrents_bytes (units.concurrents_of (map units.concurrent_view list.now))
            ++ units_bytes (units_of self.now)) (λ _. progress_view so_far.new) (adding (progress_view so_far.old)
            (made.concurrents (units_of self.now) self.now.levels (spot_view spot.now)
            (units.concurrents_of (map units.concurrent_view list.now)))) result }
    {
        for item in list {
            self.concurrent(spot, item, so_far)?;
        }
        Ok(())
    }

    /// A concurrent statement, behind what is made so far.
    #[cycle(concurrent)]
    #[inline(always)]
    fn concurrent(
        &self,
        spot: &Spot,
        item: &Concurrent,
        so_far: &mut TreeProgress,
    ) -> Result<(), ElabFault>
        requires fits { TurnsFit so_far.old }
        ensures { Charges (concurrent_bytes (units.concurrent_view item.now) ++ units_bytes (units_of self.now))
            (λ _. progress_view so_far.new) (adding (progress_view so_far.old)
            (made.concurrent (units_of self.now) self.now.levels (spot_view spot.now) (units.concurrent_view item.now)))
            result }
    {
        match item {
            Concurrent::Process(written) => self.add_process(spot, written, so_far),
            Concurrent::Instance(written) => self.add_instance(spot, written, so_far),
            Concurrent::Generate(written) => self.generate(spot, written, so_far),
        }
    }

    /// A process, behind what is made so far.
    fn add_process(
        &self,
        spot: &Spot,
        written: &analysed::Process,
        so_far: &mut TreeProgress,
    ) -> Result<(), ElabFault>
        ensures { Charges (process_bytes (units.process_view written.now)) (λ _. progress_view so_far.new)
            (adding (progress_view so_far.old)
            (made.process (units_of self.now) self.now.levels (spot_view spot.now) (units.process_view written.now)))
            result }
    {
        let made = spot.process(self.alloc, written, &mut so_far.left)?;
        so_far.parts.push(InstancePart::Process(made))?;
        Ok(())
    }

    /// An instance (11.7), behind what is made so far.
    #[cycle(concurrent)]
    fn add_instance(
        &self,
        spot: &Spot,
        written: &analysed::Instance,
        so_far: &mut TreeProgress,
    ) -> Result<(), ElabFault>
        ensures { Charges (instance_bytes (units.instance_view written.now) ++ units_bytes (units_of self.now))
            (λ _. progress_view so_far.new) (adding (progress_view so_far.old)
            (made.instance (units_of self.now) self.now.levels (spot_view spot.now) (units.instance_view written.now)))
            result }
    {
        let at = written.label.at;
        let Some(unit) = self.units.get(written.unit) else {
            return Err(ElabProblem::NoTop.at(at));
        };
        let mut declared = spot.interface(self.alloc, written, unit)?;
        spot.associations(self.alloc, written, unit, &mut declared)?;
        let instance = self.instance(unit, declared, at, &mut so_far.left)?;
        let label = labelled(self.alloc, spot.prefix, &written.label.text)?;
        so_far
            .parts
            .push(InstancePart::Instance { label, instance })?;
        Ok(())
    }

    /// An instance of a unit whose generics and ports are declared; a fault that stands nowhere
    /// else stands at byte `at`.
    #[cycle(concurrent)]
    pub(crate) fn instance(
        &self,
        unit: &Entity,
        mut declared: InstanceObjects,
        at: usize,
        left: &mut Budget,
    ) -> Result<Instance, ElabFault>
        requires among { IsAmong (units_of self.now) (entity_view unit.now) }
        ensures { Charges (at ∷ (map (λ o. o.at) (declared_view declared).objects ++ units_bytes (units_of self.now)))
            (λ i. (instance_view i, budget_view left.new)) (charged (budget_view left.old) instance_costs
            (instance_of (units_of self.now) self.now.levels at (entity_view unit.now) (declared_view declared)))
            result }
    {
        if self.levels == 0 {
            return Err(ElabProblem::TooDeep.at(at));
        }
        let Some(architecture) = &unit.architecture else {
            return Err(ElabProblem::NoTop.at(at));
        };
        left.charge_instance(at)?;
        declarations(self.alloc, &mut declared, &architecture.declarations)?;
        charge_own_nets(&declared.objects, left)?;
        let below = Walk {
            alloc: self.alloc,
            units: self.units,
            levels: self.levels - 1,
        };
        let made = below.body(&declared, &architecture.statements, *left)?;
        *left = made.left;
        Ok(Instance {
            objects: declared.objects,
            turns: made.turns,
            parts: made.parts,
        })
    }

    /// The concurrent statements of an architecture with these declarations.
    #[cycle(concurrent)]
    fn body(
        &self,
        declared: &InstanceObjects,
        list: &[Concurrent],
        left: Budget,
    ) -> Result<TreeProgress, ElabFault>
        ensures { Charges (concurrents_bytes (units.concurrents_of (map units.concurrent_view list.now))
            ++ units_bytes (units_of self.now)) progress_view (adding (nothing_yet (budget_view left))
            (made.concurrents (units_of self.now) self.now.levels
            (record { site = (declared_view declared.now).site; prefix = [] })
            (units.concurrents_of (map units.concurrent_view list.now)))) result }
    {
        let mut made = TreeProgress {
            parts: Vec::new(self.alloc),
            turns: 0,
            left,
        };
        let spot = Spot {
            declared,
            generates: &[],
            prefix: &[],
        };
        self.concurrents(&spot, list, &mut made)?;
        Ok(made)
    }

    /// A generate (11.9), behind what is made so far.
    #[cycle(concurrent)]
    #[inline(always)]
    fn generate(
        &self,
        spot: &Spot,
        written: &Generate,
        so_far: &mut TreeProgress,
    ) -> Result<(), ElabFault>
        requires fits { TurnsFit so_far.old }
        ensures { Charges (written.now.at
            ∷ (concurrents_bytes (units.concurrents_of (units.concurrents_view written.now.statements))
            ++ units_bytes (units_of self.now))) (λ _. progress_view so_far.new) (adding (progress_view so_far.old)
            (made.concurrent (units_of self.now) self.now.levels (spot_view spot.now)
            (units.generated written.now.label.text.items written.now.at
            (units.concurrents_of (units.concurrents_view written.now.statements)) written.now.scheme))) result }
    {
        match &written.scheme {
            Scheme::For(range) => self.turns(spot, written, range, so_far),
            Scheme::If(test) => self.branch(spot, written, test, so_far),
        }
    }

    /// The turns of a for generate, behind what is made so far. What is refused of its range by
    /// itself is told, whatever the budget has left.
    #[cycle(concurrent)]
    fn turns(
        &self,
        spot: &Spot,
        written: &Generate,
        range: &StaticRange,
        so_far: &mut TreeProgress,
    ) -> Result<(), ElabFault>
        requires fits { TurnsFit so_far.old }
        ensures given { Charges (written.now.at
            ∷ (concurrents_bytes (units.concurrents_of (units.concurrents_view written.now.statements))
            ++ units_bytes (units_of self.now))) (λ _. progress_view so_far.new) (adding (progress_view so_far.old)
            (made.concurrent (units_of self.now) self.now.levels (spot_view spot.now)
            (generate_for written.now.at written.now.label.text.items (range_view range.now)
            (units.concurrents_of (units.concurrents_view written.now.statements))))) result }
        ensures turned { TellsTurns (spot_view spot.now).site.integers written.now.at (range_view range.now) result }
    {
        let turns = spot.turns(range, written.at)?;
        so_far.add_turns(turns.count, written.at)?;
        for turn in 0..turns.count {
            let value = turns.parameter(turn);
            self.turn(spot, written, value, so_far)?;
        }
        Ok(())
    }

    /// A turn of a for generate, whose parameter has this value, behind what is made so far.
    #[cycle(concurrent)]
    fn turn(
        &self,
        spot: &Spot,
        written: &Generate,
        parameter: i32,
        so_far: &mut TreeProgress,
    ) -> Result<(), ElabFault>
        requires fits { TurnsFit so_far.old }
        ensures { Charges (concurrents_bytes (units.concurrents_of (units.concurrents_view written.now.statements))
            ++ units_bytes (units_of self.now)) (λ _. progress_view so_far.new) (adding (progress_view so_far.old)
            (made.concurrents (units_of self.now) self.now.levels
            (in_turn (spot_view spot.now) written.now.label.text.items parameter)
            (units.concurrents_of (units.concurrents_view written.now.statements)))) result }
    {
        let mut generates = spot.generates.to_vec(self.alloc)?;
        generates.push(parameter)?;
        let prefix = turn_prefix(self.alloc, spot.prefix, &written.label.text, parameter)?;
        let inner = (&*spot).within(&generates, &prefix);
        self.concurrents(&inner, &written.statements, so_far)
    }

    /// An if generate, behind what is made so far.
    #[cycle(concurrent)]
    fn branch(
        &self,
        spot: &Spot,
        written: &Generate,
        test: &StaticTest,
        so_far: &mut TreeProgress,
    ) -> Result<(), ElabFault>
        requires fits { TurnsFit so_far.old }
        ensures { Charges (concurrents_bytes (units.concurrents_of (units.concurrents_view written.now.statements))
            ++ units_bytes (units_of self.now)) (λ _. progress_view so_far.new) (adding (progress_view so_far.old)
            (made.concurrent (units_of self.now) self.now.levels (spot_view spot.now)
            (generate_if written.now.at written.now.label.text.items (static_test_view test.now)
            (units.concurrents_of (units.concurrents_view written.now.statements))))) result }
    {
        if !spot.decision(test)? {
            return Ok(());
        }
        let prefix = branch_prefix(self.alloc, spot.prefix, &written.label.text)?;
        let inner = (&*spot).within(spot.generates, &prefix);
        self.concurrents(&inner, &written.statements, so_far)
    }
}
