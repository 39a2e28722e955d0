//! Agendas.

ghost use Rattle.std.specs.Prelude.{◌≡◌, [], ◌∷◌, OnOk, OnErr, IfSome, IfNone};
ghost use Rattle.rtl_agenda.specs.Agenda.{AgendaState, IsAfter, IsOrderly, LeavesAlone, changes_at, with_change};

use std::alloc::AllocError;
use vhdl_values::Nine;

/// A net's number, and the value that it gets.
pub type Change = (usize, Nine);

/// A growth was refused.
pub type NoMemory = AllocError;

/// Pending changes of nets by their times, in ns. The least time comes first, with its changes in
/// the order in which they were pushed.
pub trait Agenda {
    // The changes that wait by their times, the time taken last and its changes.
    ghost state: { Self → AgendaState };

    /// Puts a change last among those of its time, which is after the time taken last. No change of
    /// its net waits for that time.
    ///
    /// It may take memory. Where that is refused, nothing is changed.
    fn push(&mut self, time: u64, change: Change) -> Result<(), NoMemory>
        requires later { IsAfter (state self.old).last time }
        requires once { LeavesAlone (changes_at (state self.old).waiting time) change.0 }
        ensures ok { OnOk result (state self.new ≡ record (state self.old) {
          waiting = with_change (state self.old).waiting time change;
        }) }
        ensures refused { OnErr result (state self.new ≡ state self.old) };

    /// Takes the least time off, and its changes, which `changes` gives from then on. Where no time
    /// waits, the answer is `None`, and nothing is changed. It takes no memory.
    fn next(&mut self) -> Option<u64>
        ensures least { IfSome result (λ time.
            (state self.old).waiting ≡ (time, (state self.new).taken) ∷ (state self.new).waiting) }
        ensures last { IfSome result (λ time. (state self.new).last ≡ Some time) }
        ensures empty { IfNone result ((state self.old).waiting ≡ []) }
        ensures unchanged { IfNone result (state self.new ≡ state self.old) };

    /// The changes of the time taken last, in the order in which they were pushed; none before the
    /// first time is taken. It takes no memory.
    fn changes(&self) -> &[Change]
        ensures { result.now ≡ (state self.now).taken };

    // In every agenda times rise, from after the time taken last, and each has a change, at most
    // one of each net.
    ghost orderly: { (a : Self) → IsOrderly (state a) };
}
