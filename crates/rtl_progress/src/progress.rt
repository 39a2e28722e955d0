//! The watch that shows how far a simulation is.

ghost use Rattle.std.specs.Prelude.{◌≡◌};
ghost use Rattle.std.proofs.Common.{refl};
ghost use Rattle.byte_streams.specs.Written.{Goes};
ghost use Rattle.rtl_progress.specs.Shown.{hundredths, text_of_hundredths, text_of_end, HasShown, nothing_shown};

use byte_streams::{Sink, Watch, push_number, push_text};

/// Shows how many hundredths of the time till the stop are simulated, each time that there are
/// more: a line that replaces the one before it. What the sink doesn't take is left out.
pub struct Progress<'a, G: Sink> {
    sink: &'a mut G,
    stop: u64,
    shown: u64,
}

impl<'a, G: Sink> Progress<'a, G> {
    /// Nothing is shown of a simulation until this stop, in ns.
    pub fn new(sink: &'a mut G, stop: u64) -> Progress<'a, G>
        ensures same_reference { result.sink.ghost_name ≡ sink.entry.ghost_name }
        ensures sink { result.sink.now ≡ sink.old }
        ensures stop { result.stop ≡ stop }
        ensures shown { result.shown ≡ 0 }
    {
        Progress {
            sink,
            stop,
            shown: 0,
        }
    }

    /// Ends the line in which something was shown, if something was.
    pub fn end(self)
        ensures { Goes (G.state self.entry.sink.now) (G.state self.exit.0.now) (text_of_end self.entry.shown) }
    {
        let Progress {
            sink,
            stop: _stop,
            shown,
        } = self;
        if shown > 0 {
            push_text(sink, b"\n");
        }
    }
}

impl<G: Sink> Watch for Progress<'_, G> {
    ghost told = { λ start stands now. (now.sink.ghost_name ≡ start.sink.ghost_name)
        × HasShown start.stop start.shown (G.state start.sink.now) stands now.stop now.shown (G.state now.sink.now) };

    ghost stuck = { λ start stands before now time watch. (watch.sink.ghost_name ≡ start.sink.ghost_name)
        × HasShown start.stop start.shown (G.state start.sink.now) stands watch.stop watch.shown
        (G.state watch.sink.now) };

    fn stood(&mut self, _values: &[u8], until: u64) {
        let now = hundredths(self.stop, until);
        if self.shown < now {
            show(self.sink, now);
            self.shown = now;
        }
    }

    fn unsettled(&mut self, _before: &[u8], _now: &[u8], _time: u64) {}

    ghost nothing = { λ watch. (refl, nothing_shown watch.stop watch.shown (G.state watch.sink.now)) };
}

/// How many hundredths of the time till the stop lie before this time: all where the stop is at 0.
fn hundredths(stop: u64, until: u64) -> u64
    ensures { result ≡ hundredths stop until }
{
    if stop == 0 {
        return 100;
    }
    (u128::from(until.min(stop)) * 100 / u128::from(stop)) as u64
}

/// Shows so many hundredths, in place of what stands in the line.
fn show<G: Sink>(sink: &mut G, hundredths: u64)
    ensures { Goes (G.state sink.old) (G.state sink.new) (text_of_hundredths hundredths) }
{
    push_text(sink, b"\r");
    push_number(sink, hundredths);
    push_text(sink, b" %");
}
