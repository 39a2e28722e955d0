//! How far a simulation has come.

ghost use Rattle.std.specs.Prelude.{◌≡◌, ◌+◌, ◌<◌, length, if◌then◌else◌};
ghost use Rattle.rtl_net_groups.specs.Touching.{KeepsLeft};

use rtl_net_groups::Touched;

/// How far a simulation has come: the time of the last moment so far, the values of the nets then,
/// the last time that was printed, and how many moments there were.
#[derive(Drop)]
pub(crate) struct Progress {
    pub(crate) now: u64,
    pub(crate) shown: Vec<u8>,
    pub(crate) printed: u64,
    pub(crate) moments: u64,
}

impl Progress {
    /// Adds a moment at this time, with these values, which differ from those before in marked
    /// chunks at most; something was printed, or nothing.
    pub(crate) fn add(&mut self, time: u64, touched: &Touched, values: &[u8], is_printed: bool)
        requires as_many { length values.now ≡ length self.old.shown.items }
        requires nets { touched.now.nets ≡ length values.now }
        requires left { KeepsLeft touched.now self.old.shown.items values.now }
        requires room { self.old.moments < 18446744073709551615 }
        ensures now { self.new.now ≡ time }
        ensures shown { self.new.shown.items ≡ values.now }
        ensures printed { self.new.printed ≡ (if is_printed then time else self.old.printed) }
        ensures moments { self.new.moments ≡ self.old.moments + 1 }
    {
        self.now = time;
        touched.bring(values, &mut self.shown);
        if is_printed {
            self.printed = time;
        }
        self.moments += 1;
    }
}
