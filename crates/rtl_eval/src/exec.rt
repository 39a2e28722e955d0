//! What runs a body.

ghost use Rattle.std.specs.Prelude.{◌≡◌, ℕ, ◌≤◌, List, length};
ghost use Rattle.rtl_model.specs.bodies.Types.{ElementType, KeepsTypes};
ghost use Rattle.rtl_model.specs.nets.FlatNetlist.{FlatProcess};
ghost use Rattle.rtl_model.specs.nets.CoreNetlist.{part_effect};
ghost use Rattle.rtl_eval.specs.Runs.{IsOf, Leaves};

use rtl_drives::Drives;

/// The body of one process, as something that runs.
pub trait Exec {
    // The process, and the types of the nets that it stands among.
    ghost process: { Self → FlatProcess };

    ghost types: { Self → List ElementType };

    // How many values a run lays aside at most.
    ghost most: { Self → ℕ };

    /// How many values a run lays aside at most.
    fn room(&self) -> usize
        ensures { result ≡ most self.now };

    /// Runs the body once (IEEE 1076-2008, 14.7.5.3), with the nets' values now, `cur`, and before
    /// the last update, `old`: codes, by the nets' numbers. What `out` held is replaced by the
    /// body's effect, and by nothing else. It takes no memory.
    fn run(&self, cur: &[u8], old: &[u8], out: &mut Drives)
        requires now_all { length cur.now ≡ length (types self.now) }
        requires before_all { length old.now ≡ length (types self.now) }
        requires now { KeepsTypes (types self.now) cur.now }
        requires before { KeepsTypes (types self.now) old.now }
        requires own { IsOf (process self.now) out.old }
        requires room { most self.now ≤ out.old.room }
        ensures { Leaves (part_effect (process self.now) (process self.now).body old.now cur.now) out.old out.new };
}
