//! Drivers and their transactions.

ghost use Rattle.std.specs.Prelude.{◌≡◌, ◌+◌, ◌<◌, ◌≤◌, ℕ, length, map, not, slice_index_or, IfOk, IsSome, None};
ghost use Rattle.std.specs.List.{list_any};
ghost use Rattle.std.specs.Option.{is_some};
ghost use Rattle.rtl_model.specs.bodies.Types.{KeepsTypes};
ghost use Rattle.rtl_model.specs.nets.CoreNetlist.{part_effect};
ghost use Rattle.rtl_model.specs.simulation.Cycle.{driver_values, all_driver_values};
ghost use Rattle.rtl_eval.specs.Runs.{IsOf};
ghost use Rattle.rtl_kernel.specs.drivers.Brought.{Brings, BringsAll};
ghost use Rattle.rtl_kernel.specs.drivers.DriverCuts.{AreCutsThere, AreDriverCuts};
ghost use Rattle.rtl_kernel.specs.drivers.Rows.{rows};
ghost use Rattle.rtl_kernel.specs.drivers.Starts.{AreFresh, start_row};
ghost use Rattle.rtl_kernel.specs.drivers.Tracked.{AreTracked};
ghost use Rattle.rtl_kernel.specs.drivers.Transactions.{HasRunOf, HaveEntries, IsActive, IsRow};
ghost use Rattle.rtl_kernel.specs.drivers.Transactions.{no_outcome, pending_of, targets_of, without_entries};
ghost use Rattle.rtl_kernel.specs.drivers.Updates.{TakesEntries, IsTaken};

use crate::nets::Nets;
use crate::starts::{fresh_outcomes, start_rows};
use crate::worklist::Worklist;
use rtl_drives::{Drives, Span};
use rtl_eval::Exec;
use rtl_net::Process;
use rtl_net_groups::{Cut, Cuts};
use std::alloc::{AllocError, Global};
use std::marker::Model;

/// The drivers' values and transactions: a row for each process, with the processes that have an
/// active driver, so that an update looks at the drivers that are active and at no others. All
/// memory is taken by `new`.
#[derive(Drop)]
pub struct Drivers {
    drivers: Vec<Vec<u8>>,
    outcomes: Vec<Drives>,
    active: Worklist,
}

impl Model for Drivers {
    ghost use Rattle.rtl_kernel.specs.drivers.Transactions.{Transactions};

    ghost Value = { Transactions };

    ghost use Rattle.rtl_kernel.specs.drivers.Tracked.{AreTracked, transactions_of};

    ghost view = { transactions_of };

    ghost invariant = { λ d. AreTracked (transactions_of d) d.active };
}

impl Drivers {
    /// The drivers of these processes, each with the value that it starts with, and none active.
    /// Each process has the room that the run of its body wants.
    pub fn new<E: Exec>(
        alloc: Global,
        processes: &[Process],
        bodies: &[E],
    ) -> Result<Drivers, AllocError>
        requires as_many { length bodies.now ≡ length processes.now }
        ensures drivers { IfOk result (λ d. d.drivers ≡ map start_row processes.now) }
        ensures outcomes { IfOk result (λ d. AreFresh E.most processes.now bodies.now d.outcomes) }
    {
        let drivers = start_rows(alloc, processes)?;
        let outcomes = fresh_outcomes(alloc, processes, bodies)?;
        let active = Worklist::new(alloc, processes.len())?;
        Ok(Drivers {
            drivers,
            outcomes,
            active,
        })
    }

    /// The drivers' values.
    pub fn values(&self) -> &[Vec<u8>]
        ensures { rows result.now ≡ self.now.drivers }
    {
        self.drivers.as_slice()
    }

    /// Whether no driver is active.
    pub fn is_quiet(&self) -> bool
        ensures { result ≡ not (list_any (list_any is_some) (pending_of self.now.outcomes)) }
    {
        self.active.members().is_empty()
    }

    /// How many values the run of a process may lay aside.
    pub fn room(&self, process: usize) -> usize
        requires { process < length self.now.outcomes }
        ensures { result ≡ (slice_index_or self.now.outcomes process no_outcome).room }
    {
        self.outcomes[process].room()
    }

    /// Every transaction becomes its driver's value. Nets with one source get the new values of
    /// their drivers at once, and the groups of the other nets of drivers whose values change are
    /// noted.
    pub fn update(&mut self, cuts: &Cuts, nets: &mut Nets)
        requires entries { HaveEntries nets.old.net.processes self.old.outcomes }
        requires cuts { AreDriverCuts nets.old.net nets.old.values.groups cuts.now }
        ensures drivers { self.new.drivers ≡ all_driver_values (pending_of self.old.outcomes) self.old.drivers }
        ensures outcomes { self.new.outcomes ≡ map without_entries self.old.outcomes }
        ensures brings { BringsAll nets.old.net.processes self.old.drivers self.new.drivers nets.old nets.new }
    {
        update_rows(
            &self.active,
            cuts,
            &mut self.outcomes,
            &mut self.drivers,
            nets,
        );
        self.active.clear();
    }

    /// Runs the body of a process that has no active driver; what it assigns becomes its
    /// transactions.
    pub fn run<E: Exec>(&mut self, process: usize, body: &E, current: &[u8], before: &[u8])
        requires there { process < length self.old.outcomes }
        requires quiet { IsActive (pending_of self.old.outcomes) process → ⊥ }
        requires now_all { length current.now ≡ length (E.types body.now) }
        requires before_all { length before.now ≡ length (E.types body.now) }
        requires now { KeepsTypes (E.types body.now) current.now }
        requires before { KeepsTypes (E.types body.now) before.now }
        requires own { IsOf (E.process body.now) (slice_index_or self.old.outcomes process no_outcome) }
        requires room { E.most body.now ≤ (slice_index_or self.old.outcomes process no_outcome).room }
        ensures drivers { self.new.drivers ≡ self.old.drivers }
        ensures ran { HasRunOf (part_effect (E.process body.now) (E.process body.now).body before.now current.now)
            process self.old.outcomes self.new.outcomes }
    {
        body.run(current, before, &mut self.outcomes[process]);
        if !self.outcomes[process].assigned().is_empty() {
            self.active.insert(process);
        }
    }
}

/// Takes over the transactions of these processes.
fn update_rows(
    active: &Worklist,
    cuts: &Cuts,
    outcomes: &mut Vec<Drives>,
    drivers: &mut Vec<Vec<u8>>,
    nets: &mut Nets,
)
    requires tracked { AreTracked (record { drivers = rows drivers.old.items; outcomes = outcomes.old.items })
        active.now }
    requires entries { HaveEntries nets.old.net.processes outcomes.old.items }
    requires cuts { AreDriverCuts nets.old.net nets.old.values.groups cuts.now }
    ensures drivers { rows drivers.new.items
        ≡ all_driver_values (pending_of outcomes.old.items) (rows drivers.old.items) }
    ensures outcomes { outcomes.new.items ≡ map without_entries outcomes.old.items }
    ensures brings { BringsAll nets.old.net.processes (rows drivers.old.items) (rows drivers.new.items)
        nets.old nets.new }
{
    for process in active.members() {
        let outcome = &mut outcomes[*process];
        let values = &mut drivers[*process];
        update_process(*process, cuts, outcome, values, nets);
        outcome.clear();
    }
}

/// Takes over the transactions of one process. If its drivers are one cut, nothing is looked up for
/// a place.
fn update_process(process: usize, cuts: &Cuts, outcome: &Drives, values: &mut [u8], nets: &mut Nets)
    requires row { IsRow nets.old.net.processes process outcome.now.entries values.old }
    requires cuts { AreDriverCuts nets.old.net nets.old.values.groups cuts.now }
    ensures values { values.new ≡ driver_values outcome.now.entries values.old }
    ensures brings { Brings (targets_of nets.old.net.processes process) values.old values.new nets.old nets.new }
{
    let own = cuts.of(process);
    let numbers = cuts.numbers(process);
    for span in outcome.assigned() {
        if own.len() == 1 {
            let assigned = outcome.values(*span);
            nets.take(own[0], span.first, assigned, values);
        } else {
            let row = OwnCuts {
                process,
                cuts: own,
                numbers,
            };
            update_span(row, outcome, *span, values, nets);
        }
    }
}

/// A process and its drivers' cuts.
#[derive(Clone, Copy)]
struct OwnCuts<'a> {
    process: usize,
    cuts: &'a [Cut],
    /// For each place the number of its cut.
    numbers: &'a [usize],
}

/// Takes over the transactions of one process at the places of a span, each of which has one, cut
/// by cut.
#[inline(always)]
fn update_span(own: OwnCuts, outcome: &Drives, span: Span, values: &mut [u8], nets: &mut Nets)
    requires row { IsRow nets.old.net.processes own.process outcome.now.entries values.old }
    requires within { span.first + span.len ≤ length outcome.now.entries }
    requires all { (k : ℕ) → k < span.len → IsSome (slice_index_or outcome.now.entries (span.first + k) None) }
    requires cuts { AreCutsThere nets.old.net nets.old.values.groups (targets_of nets.old.net.processes own.process)
        own.cuts.now own.numbers.now }
    ensures takes { TakesEntries (targets_of nets.old.net.processes own.entry.process) outcome.now.entries
        values.old nets.old values.new nets.new }
    ensures taken { (k : ℕ) → k < span.len → IsTaken outcome.now.entries values.new (span.first + k) }
{
    let end = span.first + span.len;
    let mut first = span.first;
    while first < end {
        let cut = own.cuts[own.numbers[first]];
        let beyond = end.min(cut.place + cut.len);
        let assigned = outcome.values(Span {
            first,
            len: beyond - first,
        });
        nets.take(cut, first, assigned, values);
        first = beyond;
    }
}
