//! Numbers of a stimulus.

ghost use Rattle.std.specs.Prelude.{◌≡◌, ◌≤◌, option_map};
ghost use Rattle.rtl_stim_lines.specs.Forms as forms;
ghost use Rattle.rtl_stim_lines.specs.Bounded.{bounded, time_in_line};

use crate::faults::StimFault;
use fault_rules::StimRule;

/// The latest time of a stimulus, in ns.
pub const LATEST: u64 = 1_000_000_000_000_000;

/// A time, in ns.
#[derive(Clone, Copy)]
pub enum Time {
    At(u64),
    TooLarge,
}

/// The time that a word of digits spells.
pub fn time_of(word: &[u8]) -> Option<Time>
    ensures { result ≡ option_map bounded (forms.number_of word.now) }
{
    if word.is_empty() {
        return None;
    }
    let mut time = 0;
    for byte in word {
        let b'0'..=b'9' = *byte else {
            return None;
        };
        if time <= LATEST {
            time = 10 * time + u64::from(byte - b'0');
        }
    }
    if time <= LATEST {
        Some(Time::At(time))
    } else {
        Some(Time::TooLarge)
    }
}

impl Time {
    /// The time, which the line of this number has.
    pub fn within(self, line: usize) -> Result<u64, StimFault>
        ensures { result ≡ time_in_line line self }
    {
        match self {
            Time::At(time) => Ok(time),
            Time::TooLarge => Err(StimFault::in_line(StimRule::TimeTooLarge, line)),
        }
    }
}
