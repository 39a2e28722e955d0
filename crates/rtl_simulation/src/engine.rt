//! What computes what moments settle to.

ghost use Rattle.std.specs.Prelude.{◌≡◌, ℕ, suc, List, length, OnOk, MatchResult};
ghost use Rattle.rtl_net_groups.specs.Touching.{Chunks, KeepsLeft};
ghost use Rattle.rtl_simulation.specs.Engines.{CourseView, Follows, IsStuck, Shows, TellsStuck};

use crate::summary::RunFault;
use byte_streams::Watch;
use rtl_net_groups::Touched;
use vhdl_values::Nine;

/// Computes what the moments of a simulation settle to, one after another.
pub trait Engine {
    // The first moment is to settle.
    ghost has_begun: { Self → CourseView → Type 0 };

    // This moment has settled.
    ghost is_at: { Self → CourseView → (m : ℕ) → Type 0 };

    // The nets' values, and the chunks of those that the last step may have changed.
    ghost valuation: { Self → List ℕ };

    ghost chunks: { Self → Chunks };

    /// The values of all nets at this moment, as codes, by the nets' numbers.
    fn values(&self) -> &[u8]
        ensures value { result.now ≡ valuation self.now }
        ensures shows { (r : CourseView) (m : ℕ) → is_at self.now r m → Shows r m result.now };

    /// The chunks of nets that the last step may have changed.
    fn touched(&self) -> &Touched
        ensures value { result.now ≡ chunks self.now }
        ensures nets { (r : CourseView) (m : ℕ) → is_at self.now r m
            → length (valuation self.now) ≡ length r.net.types → result.now.nets ≡ length r.net.types };

    /// Lets the first moment settle. The watch is told where it doesn't.
    fn start<V: Watch>(&mut self, watch: &mut V) -> Result<(), RunFault>
        requires { (r : CourseView) × has_begun self.old r }
        ensures starts { (r : CourseView) → has_begun self.old r
            → MatchResult result (λ _. is_at self.new r 0)
            (IsStuck r 0 0 (TellsStuck V.told V.stuck watch.old watch.new 0)) }
        ensures watch_stays { OnOk result (watch.new ≡ watch.old) };

    /// Lets the next moment settle, at this time, at which inputs get new values. The watch is told
    /// where it doesn't.
    fn step<V: Watch>(
        &mut self,
        time: u64,
        changes: &[(usize, Nine)],
        watch: &mut V,
    ) -> Result<(), RunFault>
        requires { (r : CourseView) × (m : ℕ) × is_at self.old r m
            × Follows r m time changes.now (valuation self.old) }
        ensures steps { (r : CourseView) (m : ℕ) → is_at self.old r m
            → Follows r m time changes.now (valuation self.old)
            → MatchResult result (λ _. is_at self.new r (suc m))
            (IsStuck r (suc m) time (TellsStuck V.told V.stuck watch.old watch.new time)) }
        ensures left { OnOk result
            (KeepsLeft (chunks self.new) (valuation self.old) (valuation self.new)) }
        ensures watch_stays { OnOk result (watch.new ≡ watch.old) };
}
