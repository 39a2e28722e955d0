//! The drivers of a process, by their places among those that it has (IEEE 1076-2008, 14.7.2).

ghost use Rattle.std.specs.Prelude.{◌≡◌, map, All, Contains, IfOk};
ghost use Rattle.rtl_net.specs.Indices.{numbers};
ghost use Rattle.vhdl_elab_rules.specs.Bodies.{place_in};
ghost use Rattle.vhdl_connect_processes.specs.Connected.{IsRising};

use crate::connection::Connection;
use rtl_net::Indices;
use smallvec::SmallVec;
use std::alloc::AllocError;

impl Connection<'_> {
    /// The place of the driver of an element that has one. It is not above the element's number.
    fn place(&self, element: u32) -> u32
        requires { IsRising self.now.drives.now }
        ensures { Contains self.now.drives.now element → result ≡ place_in self.now.drives.now element }
    {
        match self.drives.binary_search(&(element as usize)) {
            Ok(place) => place as u32,
            Err(_) => 0,
        }
    }

    /// The places of the drivers of listed elements, which have one each. It takes the memory of
    /// the list.
    fn places_of_list(&self, elements: &[u32]) -> Result<Indices, AllocError>
        requires rising { IsRising self.now.drives.now }
        requires driven { All (Contains self.now.drives.now) elements.now }
        ensures { IfOk result (λ places. numbers places ≡ map (place_in self.now.drives.now) elements.now) }
    {
        let mut places = SmallVec::new(self.alloc);
        for element in elements {
            places.push(self.place(*element))?;
        }
        Ok(Indices::List(places))
    }

    /// The places of the drivers of elements, which have one each: those of neighbours stand one
    /// after another. It takes the memory of a list of them, where the elements are listed, and the
    /// time of a search among the drivers, then for each.
    pub fn places_of(&self, elements: &Indices) -> Result<Indices, AllocError>
        requires rising { IsRising self.now.drives.now }
        requires driven { All (Contains self.now.drives.now) (numbers elements.now) }
        ensures { IfOk result (λ places. numbers places ≡ map (place_in self.now.drives.now) (numbers elements.now)) }
    {
        match elements {
            Indices::Run { first, len } => Ok(Indices::Run {
                first: self.place(*first),
                len: *len,
            }),
            Indices::List(listed) => self.places_of_list(listed.as_slice()),
        }
    }
}
