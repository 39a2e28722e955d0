//! Watches.

ghost use Rattle.std.specs.Prelude.{◌≡◌, ℕ, List, [], ◌∷◌, ◌++◌, length, ⊤};
ghost use Rattle.byte_streams.specs.Stands.{Stand};

/// Is told what the nets of a simulation settle to, in order of time.
pub trait Watch {
    // What it may be once it was told these, by what it was before.
    ghost told: { Self → (stands : List Stand) → Self → Type 0 };

    // What it may be once it was told these, and then of a moment at this time that doesn't settle.
    ghost stuck: { Self → (stands : List Stand) → (before now : List ℕ) → (time : ℕ) → Self → Type 0 };

    /// The nets have these values until before this time, in ns, from where those told before them
    /// stood until.
    fn stood(&mut self, values: &[u8], until: u64)
        ensures { (start : Self) (stands : List Stand) → told start stands self.old
            → told start (stands ++ record { values = values.now; until = until } ∷ []) self.new };

    /// The moment at this time, in ns, doesn't settle: the nets had the first values before the
    /// last delta cycle allowed, and have the second ones after it. Nothing is told behind this.
    fn unsettled(&mut self, before: &[u8], now: &[u8], time: u64)
        requires as_many { length before.now ≡ length now.now }
        ensures { (start : Self) (stands : List Stand) → told start stands self.old
            → stuck start stands before.now now.now time self.new };

    // It was told nothing before it is told something.
    ghost nothing: { (watch : Self) → told watch [] watch };
}

/// Looks at nothing.
#[derive(Clone, Copy)]
pub struct Unwatched;

impl Watch for Unwatched {
    ghost told = { λ start stands now. ⊤ };

    ghost stuck = { λ start stands before now time watch. ⊤ };

    fn stood(&mut self, _values: &[u8], _until: u64) {}

    fn unsettled(&mut self, _before: &[u8], _now: &[u8], _time: u64) {}

    ghost nothing = { λ watch. tt };
}
