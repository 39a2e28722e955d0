//! The nets, as an update of their drivers goes on.

ghost use Rattle.std.specs.Prelude.{◌≡◌, ◌+◌, ◌<◌, ◌≤◌, ℕ, List, All, Contains, length, IfOk};
ghost use Rattle.rtl_model.specs.nets.FlatNetlist.{flat_sources};
ghost use Rattle.rtl_model.specs.simulation.Netlist as core;
ghost use Rattle.rtl_net.specs.Nets.{flat};
ghost use Rattle.rtl_net_groups.specs.Cuts.{IsCut};
ghost use Rattle.rtl_net_groups.specs.Written.{IsWritten};
ghost use Rattle.rtl_kernel.specs.drivers.Brought.{Brings, begun};
ghost use Rattle.rtl_kernel.specs.drivers.DriverCuts.{IsCutThere};
ghost use Rattle.rtl_kernel.specs.drivers.Resolved.{NotedAreResolved};
ghost use Rattle.rtl_kernel.specs.drivers.Rows.{rows, IsSourceThere};
ghost use Rattle.rtl_kernel.specs.kernel.Given.{AreFirst, AreGiven};
ghost use Rattle.rtl_kernel.specs.kernel.Simulation.{changes_of};

use crate::starts::first_codes;
use crate::update::resolve_groups;
use crate::values::Values;
use crate::wakes::{alone_groups, wake_groups};
use crate::worklist::Worklist;
use rtl_net::Net;
use rtl_net_groups::{Cut, replace};
use std::alloc::{AllocError, Global};
use std::marker::Model;
use vhdl_values::Nine;

/// The nets of a netlist: their values, and the groups whose nets an update is to resolve. All
/// memory is taken by `new`.
#[derive(Drop)]
pub struct Nets<'a> {
    wiring: &'a Net,
    /// For each group whether its nets have one source each.
    alone: Vec<bool>,
    values: Values,
    noted: Worklist,
}

impl<'a> Model for Nets<'a> {
    ghost use Rattle.rtl_kernel.specs.drivers.Brought.{NotedNets, AreNoted};
    ghost use Rattle.rtl_net.specs.contracts.process.Process as process_contract;
    ghost use Rattle.std.specs.Coded.{codes};

    ghost Value = { NotedNets };

    ghost coded = { Prim.hlevel (codes, process_contract.the_row.coded) };

    ghost view = { λ n. record { net = n.wiring.now; values = n.values; noted = n.noted.members } };

    ghost invariant = { λ n. AreNoted n.wiring.now n.alone.items n.values n.noted };
}

impl<'a> Nets<'a> {
    /// A netlist's nets at the start, where its inputs have these values.
    pub fn new(alloc: Global, wiring: &'a Net, initial: &[Nine]) -> Result<Nets<'a>, AllocError>
        requires { length initial.now ≡ length wiring.now.inputs }
        ensures { IfOk result (AreFirst wiring.now initial.now) }
    {
        wiring.is_elaborated();
        let codes = first_codes(alloc, wiring, initial)?;
        let groups = wake_groups(alloc, wiring)?;
        let alone = alone_groups(alloc, wiring, &groups)?;
        let noted = Worklist::new(alloc, groups.count())?;
        let values = Values::new(alloc, groups, &codes)?;
        Ok(Nets {
            wiring,
            alone,
            values,
            noted,
        })
    }

    /// The nets' values.
    pub fn values(&self) -> &Values
        ensures value { result.now ≡ self.now.values }
        ensures grouped { length result.now.groups.of_net ≡ length self.now.net.types }
    {
        &self.values
    }

    /// Begins an update.
    pub fn begin(&mut self)
        ensures { self.new ≡ begun self.old }
    {
        self.values.begin();
    }

    /// Begins an update in which nets get these values, one after the other.
    pub fn give(&mut self, changes: &[(usize, Nine)])
        requires { All (λ c. c.0 < length self.old.net.types) changes.now }
        ensures { AreGiven (changes_of changes.now) self.old self.new }
    {
        self.values.begin();
        self.values.set_all(changes);
    }

    /// The drivers of a cut, from `place` on, get these values. Where each is its net's one source
    /// the nets get them too; else their group is noted, if a value is new.
    #[inline(always)]
    pub fn take(&mut self, cut: Cut, place: usize, assigned: &[u8], values: &mut [u8])
        requires cut { IsCutThere self.old.net self.old.values.groups cut }
        requires from { cut.place ≤ place }
        requires to { place + length assigned.now ≤ cut.place + cut.len }
        requires drivers { place + length assigned.now ≤ length values.old }
        ensures written { IsWritten place assigned.now values.old values.new }
        ensures brings { (targets : List ℕ) → IsCut self.old.values.groups.of_net targets cut
            → Brings targets values.old values.new self.old self.new }
    {
        // That their number is a `usize` keeps the sum below from wrapping.
        let _nets = self.wiring.nets();
        let net = cut.net + (place - cut.place);
        if self.alone[cut.group] {
            let _differ = replace(values, place, assigned);
            self.values.set_run(cut.group, net, assigned);
        } else if replace(values, place, assigned) {
            self.noted.insert(cut.group);
        }
    }

    /// Gives the nets of the groups that are noted the resolution of their sources.
    pub fn resolve(&mut self, drivers: &[Vec<u8>])
        requires { (n : ℕ) (source : core.Source) → Contains (flat_sources (flat self.old.net) n) source
            → IsSourceThere (rows drivers.now) source }
        ensures { NotedAreResolved (rows drivers.now) self.old self.new }
    {
        resolve_groups(self.noted.members(), self.wiring, drivers, &mut self.values);
        self.noted.clear();
    }
}
