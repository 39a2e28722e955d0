//! What a trace shows of a netlist.

ghost use Rattle.std.specs.Prelude.{◌≡◌, [], map};
ghost use Rattle.rtl_net.specs.Nets.{signal_view};
ghost use Rattle.rtl_net.specs.Showing.{AreShown};

use crate::net::Net;
use crate::signal::Signal;

/// A netlist, and signals that are shown of it, in order of its scopes: all of its own, or some of
/// them.
#[derive(Clone, Copy)]
pub struct Shown<'a> {
    pub net: &'a Net,
    pub signals: &'a [Signal],
    pub ghost fits: { AreShown net.now (map signal_view signals.now) },
}

impl Net {
    /// All its signals.
    pub fn shown(&self) -> Shown<'_>
        ensures net { result.net.now ≡ self.now }
        ensures signals { map signal_view result.signals.now ≡ self.now.signals }
    {
        self.is_elaborated();
        Shown {
            net: self,
            signals: self.signals(),
        }
    }

    /// None of them.
    pub fn unshown(&self) -> Shown<'_>
        ensures net { result.net.now ≡ self.now }
        ensures signals { map signal_view result.signals.now ≡ [] }
    {
        Shown {
            net: self,
            signals: &[],
        }
    }
}
