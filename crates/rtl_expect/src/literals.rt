//! The literals of enumerations.

ghost use Rattle.std.specs.Prelude.{◌≡◌, option_map};
ghost use Rattle.rtl_net.specs.Nets.{signal_view};
ghost use Rattle.rtl_expect.specs.Expected.{Positions};
ghost use Rattle.rtl_expect.specs.Telling.{LiteralNames};

use rtl_net::Signal;

/// What is known of the literals of a signal's type.
pub trait Literals {
    ghost positions: { Self → Positions };

    ghost names: { Self → LiteralNames };

    /// The position of the literal with a name, in letters of either case.
    fn position(&self, signal: &Signal, name: &[u8]) -> Option<u64>
        ensures { result ≡ positions self.now (signal_view signal.now) name.now };

    /// The name of the literal at a position.
    fn name(&self, signal: &Signal, position: u64) -> Option<&[u8]>
        ensures { option_map (λ name. name.now) result ≡ names self.now (signal_view signal.now) position };
}
