//! A picker that keeps what it was asked.

use crate::texts::push_count;
use byte_streams::{Sink, push_text};
use rtl_kernel::{Forward, Pick, Reverse};

/// Which of the processes that are to run is run next.
#[derive(Clone, Copy)]
pub enum Order {
    Forward,
    Reverse,
    /// The first, where it is told among how many it was.
    First,
}

/// Takes the processes in an order, and keeps among how many each was, where that is told.
#[derive(Drop)]
pub struct Asked {
    pub order: Order,
    pub counts: Vec<usize>,
}

impl Asked {
    /// Tells among how many processes one was to be taken each time.
    pub fn tell<S: Sink>(&self, out: &mut S) {
        for count in &self.counts {
            push_count(out, "  asked for one of ", *count as u64);
            push_text(out, b"\n");
        }
    }
}

impl Pick for Asked {
    fn pick(&mut self, count: usize) -> usize {
        match self.order {
            Order::Forward => Forward.pick(count),
            Order::Reverse => Reverse.pick(count),
            Order::First => {
                let _kept = self.counts.push(count).is_ok();
                0
            }
        }
    }
}
