//! What stands for the elements of an instance in the flat netlist (IEEE 1076-2008, 14.7.2).

ghost use Rattle.std.specs.Prelude.{◌≡◌, map, slice_index, IsTrue, IfOk, OnOk};
ghost use Rattle.std.specs.List.{range_with_len};
ghost use Rattle.rtl_net.specs.Indices.{numbers};

use rtl_net::Indices;
use smallvec::SmallVec;
use std::alloc::{AllocError, Global};

/// The nets of an instance's elements, and the elements that a process of it has drivers for,
/// rising.
#[derive(Clone, Copy)]
pub struct Connection<'a> {
    pub alloc: Global,
    pub nets: &'a [u32],
    pub drives: &'a [usize],
}

impl Connection<'_> {
    /// The net of an element.
    pub fn net(&self, element: usize) -> u32
        ensures { result ≡ slice_index self.now.nets.now element }
    {
        match self.nets.get(element) {
            Some(net) => *net,
            None => 0,
        }
    }

    /// Whether the nets of neighbouring elements stand one after another from this one on.
    fn are_neighbours(&self, net: u32, first: u32, len: u32) -> bool
        ensures { IsTrue result → map (slice_index self.now.nets.now) (range_with_len first len) ≡
            range_with_len net len }
    {
        for k in 0..len {
            let found = self.net(first as usize + k as usize) as usize;
            let next = net as usize + k as usize;
            if found != next {
                return false;
            }
        }
        true
    }

    /// The nets of neighbouring elements. It takes the memory of a list of them, where they don't
    /// stand one after another.
    fn nets_of_run(&self, first: u32, len: u32) -> Result<Indices, AllocError>
        ensures { IfOk result (λ nets. numbers nets ≡ map (slice_index self.now.nets.now) (range_with_len first len)) }
    {
        let net = self.net(first as usize);
        if self.are_neighbours(net, first, len) {
            return Ok(Indices::Run { first: net, len });
        }
        let mut nets = SmallVec::new(self.alloc);
        for k in 0..len {
            nets.push(self.net(first as usize + k as usize))?;
        }
        Ok(Indices::List(nets))
    }

    /// The nets of listed elements. It takes the memory of the list.
    fn nets_of_list(&self, elements: &[u32]) -> Result<Indices, AllocError>
        ensures { IfOk result (λ nets. numbers nets ≡ map (slice_index self.now.nets.now) elements.now) }
    {
        let mut nets = SmallVec::new(self.alloc);
        for element in elements {
            nets.push(self.net(*element as usize))?;
        }
        Ok(Indices::List(nets))
    }

    /// The nets of elements. It takes the memory of a list of them, where they don't stand one
    /// after another.
    pub fn nets_of(&self, elements: &Indices) -> Result<Indices, AllocError>
        ensures { IfOk result (λ nets. numbers nets ≡ map (slice_index self.now.nets.now) (numbers elements.now)) }
    {
        match elements {
            Indices::Run { first, len } => self.nets_of_run(*first, *len),
            Indices::List(listed) => self.nets_of_list(listed.as_slice()),
        }
    }
}
