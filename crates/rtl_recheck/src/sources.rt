//! Whether each net has one source at most.

ghost use Rattle.std.specs.Prelude.{◌↔◌, ◌<◌, length, IsTrue};
ghost use Rattle.rtl_net.specs.Core.{core};
ghost use Rattle.rtl_recheck.specs.Kept.{HasOneSource, HaveOneSource};

use rtl_net::Net;

/// Whether a net has one source at most.
fn has_one_source(net: &Net, number: usize) -> bool
    requires { number < length net.now.types }
    ensures { IsTrue result ↔ HasOneSource (core net.now) number }
{
    net.sources(number).len() < 2
}

/// Whether each net has one source at most.
pub fn have_one_source(net: &Net) -> bool
    ensures { IsTrue result ↔ HaveOneSource (core net.now) }
{
    for number in 0..net.nets() {
        if !has_one_source(net, number) {
            return false;
        }
    }
    true
}
