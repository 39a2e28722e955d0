//! Expectations that are compared while a netlist is simulated.

ghost use Rattle.std.specs.Prelude.{◌≡◌, ◌+◌, ◌<◌, ◌≤◌, ◌∷◌, ◌++◌, List, length, option_map, option_to_list, slice_get, vec_len, Some};
ghost use Rattle.byte_streams.specs.Stands.{Stand};
ghost use Rattle.rtl_expect.specs.Expected as said;
ghost use Rattle.rtl_expect.specs.Differences.{Difference, difference_in, differences};
ghost use Rattle.rtl_expect.specs.Watching.{expected_by, AreRead, AreTold, HasSeen, IsToldOf, Keeps, fresh_has_seen, next_is_before};

use crate::difference::{FirstDifferences, MOST_TOLD};
use crate::expectation::Expectation;
use crate::faults::ExpectFault;
use crate::literals::Literals;
use crate::reading::read_lines;
use byte_streams::Watch;
use rtl_net::Net;
use std::alloc::Global;

/// What is expected of the signals of a netlist, in order of time and of lines; how many of these
/// have been compared, and the first that don't hold.
#[derive(Drop)]
pub struct Expectations {
    list: Vec<Expectation>,
    next: usize,
    found: FirstDifferences,
}

impl Expectations {
    /// Reads a file of expected values of a netlist's signals. It takes memory for each line, for
    /// what differs of the first of them, and for each letter of the full names of the netlist's
    /// signals, in a table of which a line's name is found by its hash. It takes time that goes by
    /// these letters, and by the lines, times the logarithm of their number where they don't stand
    /// in order of time; for a literal's name also the time that it takes to find it.
    ///
    /// # Errors
    ///
    /// The first bad line's fault, by the line's number from 1; `NoMemory` where a growth was
    /// refused.
    pub fn read<L: Literals>(
        alloc: Global,
        net: &Net,
        literals: &L,
        text: &[u8],
    ) -> Result<Expectations, ExpectFault>
        ensures { AreRead (L.positions literals.now) net.now text.now result }
    {
        let list = read_lines(alloc, net, literals, text)?;
        let told = Vec::with_capacity(alloc, MOST_TOLD)?;
        Ok(Expectations {
            list,
            next: 0,
            found: FirstDifferences { told, more: 0 },
        })
    }

    /// The first expectations that don't hold, once all that stands was told, if there is one. It
    /// takes no memory.
    pub fn differences(mut self) -> Option<FirstDifferences>
        ensures { (es : List said.Expectation) (stands : List Stand) → HasSeen es stands self
            → AreTold result (differences stands es) }
    {
        while self.next < self.list.len() {
            self.compare(None);
        }
        if self.found.told.is_empty() {
            return None;
        }
        Some(self.found)
    }

    /// Compares the next expectation with these values, or with none.
    fn compare(&mut self, values: Option<&[u8]>)
        requires there { self.old.next < vec_len self.old.list }
        ensures list { expected_by self.new ≡ expected_by self.old }
        ensures next { self.new.next ≡ self.old.next + 1 }
        ensures kept { (e : said.Expectation) → slice_get (expected_by self.old) self.old.next ≡ Some e
            → (all : List Difference) → length all ≤ self.old.next → Keeps self.old.found all
            → Keeps self.new.found (all ++ option_to_list (difference_in e (option_map (λ v. v.now) values.entry))) }
    {
        if let Some(difference) = self.list[self.next].difference_in(values) {
            self.found.keep(difference);
        }
        self.next += 1;
    }

    /// Whether the next expectation is of a time before this one.
    fn is_before(&self, until: u64) -> bool
        ensures { result ≡ next_is_before self.now until }
    {
        match self.list.get(self.next) {
            None => false,
            Some(next) => next.time < until,
        }
    }
}

impl Watch for Expectations {
    ghost told = { IsToldOf };

    ghost stuck = { λ start stands before now time watch. IsToldOf start stands watch };

    fn stood(&mut self, values: &[u8], until: u64) {
        while self.is_before(until) {
            self.compare(Some(values));
        }
    }

    fn unsettled(&mut self, _before: &[u8], _now: &[u8], _time: u64) {}

    ghost nothing = { fresh_has_seen };
}
