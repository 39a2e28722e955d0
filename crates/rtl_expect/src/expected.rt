//! What is expected of a signal at a time.

ghost use Rattle.std.specs.Prelude.{◌≡◌, ◌≤◌, length, map, option_map};
ghost use Rattle.rtl_expect.specs.Differences.{found_at};
ghost use Rattle.rtl_expect.specs.Differences as spec;
ghost use Rattle.rtl_expect.specs.Watching.{expectation_view, difference_view};

use crate::difference::{Codes, Difference, WantedCodes};
use crate::expectation::Expectation;
use arrayvec::ArrayVec;

/// What is expected of a net: the code of a value, or any.
#[derive(Clone, Copy)]
pub(crate) struct Wanted {
    pub(crate) net: usize,
    pub(crate) code: Option<u64>,
}

impl Wanted {
    /// The code that the net has among these.
    fn found(&self, values: &[u8]) -> u8
        ensures { result ≡ found_at values.now self.now }
    {
        values.get(self.net).copied().unwrap_or(0)
    }

    /// Whether the net has what is expected.
    fn is_met(&self, values: &[u8]) -> bool
        ensures { result ≡ spec.is_met values.now self.now }
    {
        match self.code {
            None => true,
            Some(code) => u64::from(self.found(values)) == code,
        }
    }
}

impl Expectation {
    /// What differs where the nets have these values, if anything does. Where none stand, nothing
    /// holds.
    pub(crate) fn difference_in(&self, values: Option<&[u8]>) -> Option<Difference>
        ensures { option_map difference_view result
            ≡ spec.difference_in (expectation_view self.now) (option_map (λ v. v.now) values.entry) }
    {
        let Some(values) = values else {
            return Some(self.differs(None));
        };
        if are_met(&self.wanted, values) {
            return None;
        }
        Some(self.differs(Some(found_codes(&self.wanted, values))))
    }

    /// What differs where this was found.
    fn differs(&self, found: Option<Codes>) -> Difference
        ensures { difference_view result ≡ spec.differs (expectation_view self.now) (option_map (λ c. c.items) found) }
    {
        Difference {
            line: self.line,
            time: self.time,
            signal: self.signal,
            wanted: wanted_codes(&self.wanted),
            found,
        }
    }
}

/// Whether all have what is expected.
fn are_met(wanted: &[Wanted], values: &[u8]) -> bool
    ensures { result ≡ spec.are_met values.now wanted.now }
{
    for one in wanted {
        if !one.is_met(values) {
            return false;
        }
    }
    true
}

/// The codes that are wanted.
fn wanted_codes(wanted: &[Wanted]) -> WantedCodes
    requires { length wanted.now ≤ 64 }
    ensures { result.items ≡ map (λ w. w.code) wanted.now }
{
    let mut codes = ArrayVec::new();
    for one in wanted {
        codes.push(one.code);
    }
    codes
}

/// The code of each of these nets.
fn found_codes(wanted: &[Wanted], values: &[u8]) -> Codes
    requires { length wanted.now ≤ 64 }
    ensures { result.items ≡ map (found_at values.now) wanted.now }
{
    let mut codes = ArrayVec::new();
    for one in wanted {
        codes.push(one.found(values));
    }
    codes
}
