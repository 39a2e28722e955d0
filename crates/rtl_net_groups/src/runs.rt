//! Groups as runs of nets.

ghost use Rattle.std.specs.Prelude.{◌≡◌, ◌+◌, ◌<◌, length, IfOk, OnOk};
ghost use Rattle.rtl_net_groups.specs.steps.Marks.{IsMarked};
ghost use Rattle.rtl_net_groups.specs.steps.Numbered.{IsNumbered};

use std::alloc::{AllocError, Global};

/// Of each net its group, and of each group its first net.
#[derive(Drop)]
pub struct Runs {
    pub of_net: Vec<usize>,
    pub first: Vec<usize>,
}

impl Runs {
    /// The groups of nets of which these are marked as beginning one.
    pub fn new(alloc: Global, begins: &[bool]) -> Result<Runs, AllocError>
        requires first { IsMarked begins.now 0 }
        ensures as_many { IfOk result (λ runs. length runs.of_net.items ≡ length begins.now) }
        ensures numbered { IfOk result (λ runs. IsNumbered begins.now runs.of_net.items runs.first.items) }
    {
        let mut runs = Runs {
            of_net: Vec::with_capacity(alloc, begins.len())?,
            first: Vec::new(alloc),
        };
        for net in 0..begins.len() {
            runs.push(begins, net)?;
        }
        Ok(runs)
    }

    /// Puts a net behind those before it: into a group of its own, if it begins one, else into
    /// theirs.
    fn push(&mut self, begins: &[bool], net: usize) -> Result<(), AllocError>
        requires next { length self.old.of_net.items ≡ net }
        requires there { net < length begins.now }
        requires first { IsMarked begins.now 0 }
        requires numbered { IsNumbered begins.now self.old.of_net.items self.old.first.items }
        ensures as_many { OnOk result (length self.new.of_net.items ≡ length self.old.of_net.items + 1) }
        ensures numbered { OnOk result (IsNumbered begins.now self.new.of_net.items self.new.first.items) }
    {
        if begins[net] {
            let group = self.first.len();
            self.first.push(net)?;
            self.of_net.push(group)?;
            Ok(())
        } else {
            let group = self.first.len() - 1;
            self.of_net.push(group)?;
            Ok(())
        }
    }
}
