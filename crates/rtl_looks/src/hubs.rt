//! Hubs: what is looked at, kept once for all that look at the same.

ghost use Rattle.std.specs.Prelude.{◌≡◌, [], IfOk};
ghost use Rattle.rtl_looks.specs.Evaluating.{Joins, JoinsAll};

use crate::table::at;
use std::alloc::{AllocError, Global};

/// What something looks at.
#[derive(Clone, Copy, PartialEq)]
pub enum Look {
    Net(usize),
    /// All that stands behind a hub, by its number.
    Hub(usize),
}

/// It looks at all that its two looks do: nets, or hubs before it.
#[derive(Clone, Copy)]
pub struct Hub {
    pub left: Look,
    pub right: Look,
}

/// Hubs, numbered in order. What looks at nothing needs none, nor does what looks at one net.
#[derive(Drop)]
pub struct Hubs {
    alloc: Global,
    pub hubs: Vec<Hub>,
}

impl Hubs {
    /// No hubs. It takes no memory.
    pub fn new(alloc: Global) -> Self
        ensures { result.hubs.items ≡ [] }
    {
        Hubs {
            alloc,
            hubs: Vec::new(alloc),
        }
    }

    pub(crate) fn alloc(&self) -> Global {
        self.alloc
    }

    /// What looks at all that two looks do: one of them where the other is none or the same, or a
    /// new hub.
    pub(crate) fn join(
        &mut self,
        left: Option<Look>,
        right: Option<Look>,
    ) -> Result<Option<Look>, AllocError>
        ensures { IfOk result (λ look. Joins self.old.hubs.items self.new.hubs.items left right look) }
    {
        match (left, right) {
            (None, _) => Ok(right),
            (_, None) => Ok(left),
            (Some(left), Some(right)) => {
                if left == right {
                    return Ok(Some(left));
                }
                let number = self.hubs.len();
                self.hubs.push(Hub { left, right })?;
                Ok(Some(Look::Hub(number)))
            }
        }
    }

    /// What looks at all that these looks do.
    pub(crate) fn join_all(&mut self, looks: &[Option<Look>]) -> Result<Option<Look>, AllocError>
        ensures { IfOk result (λ look. JoinsAll self.old.hubs.items self.new.hubs.items looks.now look) }
    {
        let mut all = None;
        for place in 0..looks.len() {
            all = self.join(all, at(looks, place))?;
        }
        Ok(all)
    }
}
