//! What a call gives.

ghost use Rattle.byte_streams.specs.Written.{IsIntact};

use crate::text::Text;
use byte_streams::Sink;
use drops::take_apart;
use std::alloc::Global;

/// The status of a call, what went to its two outputs, and what showed how far a run was.
pub struct Answer {
    pub status: u8,
    pub out: Text,
    pub err: Text,
    pub progress: Text,
}

/// Written out, since many functions let answers go.
impl Drop for Answer {
    fn drop(self) {
        take_apart!(self: { status, out, err, progress });
    }
}

impl Answer {
    /// Status 0, and nothing written or shown.
    pub fn new(alloc: Global) -> Answer
        ensures out { IsIntact (⟦<Text as Sink>⟧.state result.out) }
        ensures err { IsIntact (⟦<Text as Sink>⟧.state result.err) }
    {
        Answer {
            status: 0,
            out: Text::new(alloc),
            err: Text::new(alloc),
            progress: Text::new(alloc),
        }
    }

    /// Whether it is that of these, whatever is shown.
    pub fn is(&self, status: u8, out: &[u8], err: &[u8]) -> bool {
        self.status == status && self.out.as_bytes() == out && self.err.as_bytes() == err
    }

    /// Whether this is shown.
    pub fn shows(&self, progress: &[u8]) -> bool {
        self.progress.as_bytes() == progress
    }
}
