//! Numbers of nets, of a process's drivers, or of its variable elements.

ghost use Rattle.std.specs.Prelude.{◌≡◌, ◌<◌, length, slice_index};
ghost use Rattle.rtl_net.specs.Indices.{numbers};

use drops::take_apart;
use smallvec::SmallVec;

/// Numbers from the left, as the elements of a name have them: mostly one after another, and else a
/// list.
pub enum Indices {
    /// So many numbers, each one above the one before it.
    Run { first: u32, len: u32 },
    /// Any numbers.
    List(SmallVec<u32, 4>),
}

impl Drop for Indices {
    fn drop(self) {
        take_apart!(self: Run { first, len } | List(_));
    }
}

impl Indices {
    /// How many numbers these are.
    pub fn len(&self) -> usize
        ensures { result ≡ length (numbers self.now) }
    {
        match self {
            Indices::Run { len, .. } => *len as usize,
            Indices::List(listed) => listed.as_slice().len(),
        }
    }

    /// The number at this place.
    pub fn at(&self, place: usize) -> usize
        requires { place < length (numbers self.now) }
        ensures { result ≡ slice_index (numbers self.now) place }
    {
        match self {
            Indices::Run { first, len } => {
                let first = *first as usize;
                let _len = *len;
                first + place
            }
            Indices::List(listed) => listed.as_slice()[place] as usize,
        }
    }
}
