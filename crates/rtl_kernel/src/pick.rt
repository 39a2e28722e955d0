//! The order in which a cycle's processes run.

ghost use Rattle.std.specs.Prelude.{◌≡◌, ◌+◌, ◌<◌, ℕ, ⊤};

/// A choice of the process that runs next.
pub trait Pick {
    // What the picker may answer where it is asked for one of so many, and what it is from then on.
    // A picker that leaves this out says nothing of its answers.
    ghost picks: { Self → (count place : ℕ) → Self → Type 0 } = { λ old count place new. ⊤ };

    /// The place, in order of number, of the process that runs next among those that are to run and
    /// haven't yet, of which there are `count`.
    fn pick(&mut self, count: usize) -> usize
        requires { 0 < count }
        ensures below { result < count }
        ensures picked { picks self.old count result self.new };
}

/// The processes run in order of number.
#[derive(Clone, Copy)]
pub struct Forward;

impl Pick for Forward {
    ghost picks = { λ old count place new. place ≡ 0 };

    fn pick(&mut self, _count: usize) -> usize {
        0
    }
}

/// The processes run in the reverse of the order of number.
#[derive(Clone, Copy)]
pub struct Reverse;

impl Pick for Reverse {
    ghost picks = { λ old count place new. place + 1 ≡ count };

    fn pick(&mut self, count: usize) -> usize {
        count - 1
    }
}
