//! The values of the nets, and what their changes mark.

ghost use Rattle.std.specs.Prelude.{◌≡◌, ◌<◌, length, map, slice_set, IfOk};
ghost use Rattle.rtl_levels.specs.States.{Advances, GetValues, HaveReaders, StandTogether};

use crate::marks::{mark, mark_readers, readers_of};
use crate::order::Visit;
use rtl_net_groups::{Groups, Touched, replace};
use std::alloc::{AllocError, Global};

/// The values of all nets, as codes, with marks of the visits that are to be made, by rank, and of
/// the chunks of the nets that the last step, or the one under way, may have changed.
#[derive(Drop)]
pub struct State {
    pub values: Vec<u8>,
    pub dirty: Vec<bool>,
    pub touched: Touched,
}

impl State {
    /// These values, where each process's first visit is to be made.
    pub fn new(alloc: Global, values: Vec<u8>, visits: &[Visit]) -> Result<State, AllocError>
        ensures values { IfOk result (λ s. s.values.items ≡ values.items) }
        ensures first_dirty { IfOk result (λ s. s.dirty.items ≡ map (λ visit. visit.first) visits.now) }
        ensures each_chunk { IfOk result (λ s. s.touched.nets ≡ length values.items) }
    {
        let mut dirty = Vec::with_capacity(alloc, visits.len())?;
        for visit in visits {
            dirty.push(visit.first)?;
        }
        let touched = Touched::new(alloc, values.len())?;
        Ok(State {
            values,
            dirty,
            touched,
        })
    }

    /// Gives a net a value and marks its chunk; if the value is new, marks the net's readers too.
    #[inline(always)]
    pub fn set(&mut self, readers: &Groups, net: usize, value: u8)
        requires there { net < length self.old.values.items }
        requires have_readers { HaveReaders readers.now self.old }
        ensures value { self.new.values.items ≡ slice_set self.old.values.items net value }
        ensures advances { Advances readers.now (λ n. n ≡ net) self.old self.new }
    {
        mark_readers(readers, &self.values, net, value, &mut self.dirty);
        self.values[net] = value;
        self.touched.mark_run(net, net + 1);
    }

    /// Gives nets that stand one behind the other in one group these values. If one of these is
    /// new, marks the nets' readers and their chunks.
    #[inline(always)]
    fn set_here(&mut self, readers: &Groups, first: usize, given: &[u8])
        requires { StandTogether readers.now first (length given.now) self.old }
        ensures { GetValues readers.now first given.now self.old self.new }
    {
        if replace(&mut self.values, first, given) {
            mark(&mut self.dirty, readers_of(readers, first));
            self.touched.mark_run(first, first + given.len());
        }
    }

    /// The same by a call.
    #[inline(never)]
    pub fn set_run(&mut self, readers: &Groups, first: usize, given: &[u8])
        requires { StandTogether readers.now first (length given.now) self.old }
        ensures { GetValues readers.now first given.now self.old self.new }
    {
        self.set_here(readers, first, given);
    }

    /// The same, without a call where there are at most 32.
    #[inline(always)]
    pub fn set_short(&mut self, readers: &Groups, first: usize, given: &[u8])
        requires { StandTogether readers.now first (length given.now) self.old }
        ensures { GetValues readers.now first given.now self.old self.new }
    {
        if given.len() > 32 {
            self.set_run(readers, first, given);
        } else {
            self.set_here(readers, first, given);
        }
    }
}
