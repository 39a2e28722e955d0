//! What a run assigns.

ghost use Rattle.std.specs.Prelude.{◌≡◌, ℕ, ◌+◌, ◌<◌, ◌≤◌, [], length, replicate, slice_index, slice_set, true, IfOk, Some, None, IsSome};
ghost use Rattle.rtl_drives.specs.Spans.{places_of, written};
ghost use Rattle.rtl_drives.specs.Tracked.{entry, AreAssigned, LieWithin};

mod stacks;

use crate::making::{Copied, Maker};
use crate::marks::Marks;
use crate::spans::Span;
use std::alloc::{AllocError, Global};
use std::marker::Model;
use vhdl_values::Vec9;

/// What a run of one process leaves: an entry for each of its drivers, which is the value that the
/// run assigns, if it assigns one. The places that have an entry are kept in a list of spans, so
/// that whoever takes the entries need not look at all places, and finds those of a vector one
/// after another. The process's variables stand here too, one store, which is set back at each run;
/// and what a run lays aside while it evaluates expressions.
///
/// All memory is taken by `new`.
#[derive(Drop)]
pub struct Drives {
    marks: Marks,
    values: Vec<u8>,
    assigned: Vec<Span>,
    starts: Vec<u8>,
    variables: Vec<u8>,
    room: usize,
    laid: Vec<Vec9>,
    bits: Vec<u8>,
}

impl Model for Drives {
    ghost use Rattle.rtl_drives.specs.Outcomes.{Outcome};

    ghost Value = { Outcome };

    ghost use Rattle.rtl_drives.specs.Tracked.{outcome_of, IsTracked};

    ghost view = { outcome_of };

    ghost invariant = { IsTracked };
}

impl Drives {
    /// No entry, for a process with so many drivers, the elements of whose variables start with
    /// these codes, and `room` for so many vectors and so many single values that a run may lay
    /// aside.
    pub fn new(
        alloc: Global,
        drivers: usize,
        starts: &[u8],
        room: usize,
    ) -> Result<Drives, AllocError>
        ensures { IfOk result (λ d. d ≡ record {
          entries = replicate drivers None;
          starts = starts.now;
          variables = starts.now;
          room = room;
          laid = [];
          bits = [];
        }) }
    {
        Ok(Drives {
            marks: Marks::new(alloc, drivers)?,
            values: vec![in alloc; 0; drivers]?,
            assigned: Vec::with_capacity(alloc, drivers)?,
            starts: Vec::from_slice(alloc, starts)?,
            variables: Vec::from_slice(alloc, starts)?,
            room,
            laid: Vec::with_capacity(alloc, room)?,
            bits: Vec::with_capacity(alloc, room)?,
        })
    }

    /// How many drivers the process has.
    #[tactic(auto, using(crate::proofs::Assigned::as_many_entries))]
    pub fn drivers(&self) -> usize
        ensures { result ≡ length self.now.entries }
    {
        self.marks.len()
    }

    /// How many vectors, and how many single values, a run may lay aside.
    pub fn room(&self) -> usize
        ensures { result ≡ self.now.room }
    {
        self.room
    }

    /// The entry of the driver at a place.
    #[tactic(auto, using(crate::proofs::Assigned::as_many_entries))]
    pub fn get(&self, place: usize) -> Option<u8>
        requires { place < length self.now.entries }
        ensures { result ≡ entry self.now.entries place }
    {
        if self.marks.has(place) {
            Some(self.values[place])
        } else {
            None
        }
    }

    /// The values at the places of a span: where a place has an entry, it is the value there.
    #[tactic(auto, using(crate::proofs::Assigned::as_many_entries))]
    pub fn values(&self, span: Span) -> &[u8]
        requires { span.first + span.len ≤ length self.now.entries }
        ensures as_many { length result.now ≡ span.len }
        ensures entries { (k : ℕ) → k < span.len → IsSome (entry self.now.entries (span.first + k))
            → entry self.now.entries (span.first + k) ≡ Some (slice_index result.now k) }
    {
        &self.values[span.first..span.first + span.len]
    }

    /// The places that have an entry, each once, in the order in which they were first assigned.
    #[tactic(auto, using(crate::proofs::Assigned::as_many_entries))]
    pub fn assigned(&self) -> &[Span]
        ensures places { AreAssigned self.now.entries (places_of result.now) }
        ensures within { LieWithin (length self.now.entries) result.now }
        ensures few { length result.now ≤ length (places_of result.now) }
    {
        self.assigned.as_slice()
    }

    /// Gives the driver at a place an entry, in place of the one that it has.
    #[tactic(auto, using(crate::proofs::Assigned::as_many_entries))]
    pub fn set(&mut self, place: usize, value: u8)
        requires { place < length self.old.entries }
        ensures { self.new ≡ record (self.old) { entries = slice_set self.old.entries place (Some value) } }
    {
        let alone = Span {
            first: place,
            len: 1,
        };
        if self.assigned.is_empty() && self.are_free(alone) {
            self.set_free(alone, &Copied { codes: &[value] });
        } else {
            self.set_beside(place, value);
        }
    }

    /// The same where drivers may have entries.
    #[tactic(auto, using(crate::proofs::Assigned::as_many_entries))]
    fn set_beside(&mut self, place: usize, value: u8)
        requires { place < length self.old.entries }
        ensures { self.new ≡ record (self.old) { entries = slice_set self.old.entries place (Some value) } }
    {
        if !self.marks.has(place) {
            self.marks.set(place);
            self.assigned.push_reserved(Span {
                first: place,
                len: 1,
            });
        }
        self.values[place] = value;
    }

    /// Gives the drivers at the places from `first` on these entries, in place of those that they
    /// have.
    #[tactic(auto, using(crate::proofs::Assigned::as_many_entries))]
    pub fn set_span(&mut self, first: usize, values: &[u8])
        requires there { (k : ℕ) → k < length values.now → first + k < length self.old.entries }
        ensures { self.new ≡ record (self.old) { entries = written first values.now self.old.entries } }
    {
        if values.is_empty() {
            return;
        }
        let _drivers = self.drivers();
        let span = Span {
            first,
            len: values.len(),
        };
        if self.are_free(span) {
            self.set_free(span, &Copied { codes: values });
        } else {
            self.set_each(first, values);
        }
    }

    /// Whether no driver at the places of a span has an entry.
    #[tactic(auto, using(crate::proofs::Assigned::as_many_entries))]
    pub fn are_free(&mut self, span: Span) -> bool
        requires { span.first + span.len ≤ length self.old.entries }
        ensures stay { self.new ≡ self.old }
        ensures free { result ≡ true → (k : ℕ) → k < span.len → entry self.old.entries (span.first + k) ≡ None }
    {
        if self.assigned.is_empty() {
            return true;
        }
        self.marks.are_free(span.first, span.len)
    }

    /// Gives the drivers at the places of a span, none of which has an entry, the codes that are
    /// made.
    #[tactic(auto, using(crate::proofs::Assigned::as_many_entries))]
    pub fn set_free<M: Maker>(&mut self, span: Span, maker: &M)
        requires some { 0 < span.len }
        requires many { length (M.made maker.now) ≡ span.len }
        requires there { span.first + span.len ≤ length self.old.entries }
        requires free { (k : ℕ) → k < span.len → entry self.old.entries (span.first + k) ≡ None }
        ensures { self.new ≡ record (self.old) { entries = written span.first (M.made maker.now) self.old.entries } }
    {
        let _drivers = self.drivers();
        let end = span.first + span.len;
        let are_first = self.assigned.is_empty();
        self.marks.fill(span.first, span.len, are_first);
        maker.make(&mut self.values[span.first..end]);
        self.assigned.push_reserved(span);
    }

    /// Gives the drivers at the places from `first` on these entries, one by one.
    #[tactic(auto, using(crate::proofs::Assigned::as_many_entries))]
    fn set_each(&mut self, first: usize, values: &[u8])
        requires there { (k : ℕ) → k < length values.now → first + k < length self.old.entries }
        ensures { self.new ≡ record (self.old) { entries = written first values.now self.old.entries } }
    {
        let _drivers = self.drivers();
        for at in 0..values.len() {
            self.set(first + at, values[at]);
        }
    }

    /// Takes all entries off. It looks at those that are there and at no others.
    pub fn clear(&mut self)
        ensures { self.new ≡ record (self.old) { entries = replicate (length self.old.entries) None } }
    {
        self.marks.take_off(&self.assigned);
        self.assigned.clear();
    }

    /// Makes ready for a run: no entry is left, the variables have their initial values, and
    /// nothing is laid aside.
    pub fn reset(&mut self)
        ensures { self.new ≡ record (self.old) {
          entries = replicate (length self.old.entries) None;
          variables = self.old.starts;
          laid = [];
          bits = [];
        } }
    {
        self.clear();
        if !self.starts.is_empty() {
            self.variables.copy_from_slice(&self.starts);
        }
        self.laid.clear();
        self.bits.clear();
    }

    /// The codes that the elements of the process's variables have.
    pub fn variables(&self) -> &[u8]
        ensures { result.now ≡ self.now.variables }
    {
        self.variables.as_slice()
    }

    /// Gives an element of a variable a value.
    pub fn set_variable(&mut self, element: usize, value: u8)
        requires { element < length self.old.variables }
        ensures { self.new ≡ record (self.old) { variables = slice_set self.old.variables element value } }
    {
        self.variables[element] = value;
    }
}
