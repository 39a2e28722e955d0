//! What is made of an instance so far.

ghost use Rattle.std.specs.Prelude.{[], ◌∷◌, Ok};
ghost use Rattle.vhdl_expand_operands.specs.Results.{Charges};
ghost use Rattle.vhdl_expand.specs.Making.{TurnsFit, progress_view, adding, made_turns};

use vhdl_expand_rules::ElabFault;
use vhdl_expand_tree::{Budget, InstancePart};

/// What is made of an instance so far: its parts, in order of the text, and how many turns its
/// generates have; and what is left of the limits.
#[derive(Drop)]
pub(crate) struct TreeProgress {
    pub parts: Vec<InstancePart>,
    pub turns: u32,
    pub left: Budget,
}

impl TreeProgress {
    /// Counts turns of a generate, whose range starts at byte `at`; a fault is TooMany there.
    pub(crate) fn add_turns(&mut self, count: u32, at: usize) -> Result<(), ElabFault>
        requires fits { TurnsFit self.old }
        ensures { Charges (at ∷ []) (λ _. progress_view self.new)
            (adding (progress_view self.old) (Ok (made_turns count))) result }
    {
        self.left.charge_turns(count as usize, at)?;
        self.turns += count;
        Ok(())
    }
}
