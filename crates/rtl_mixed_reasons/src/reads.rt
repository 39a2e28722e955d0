//! The first net that a value reads.

ghost use Rattle.std.specs.Prelude.{◌≡◌};
ghost use Rattle.std.specs.Option.{option_or};
ghost use Rattle.rtl_model.specs.bodies.Leaves.{read_of};
ghost use Rattle.rtl_model.specs.bodies.Reads.{value_reads};
ghost use Rattle.rtl_net.specs.Bodies.{value_view};
ghost use Rattle.rtl_net.specs.Indices.{numbers};
ghost use Rattle.rtl_net.specs.Visits.{leaf_view};
ghost use Rattle.rtl_mixed_reasons.specs.Reasons.{head_of};

use rtl_net::{Indices, Leaf, Value, Visit, walk_value};

/// The first of some numbers.
pub(crate) fn first_number(indices: &Indices) -> Option<usize>
    ensures { result ≡ head_of (numbers indices.now) }
{
    match indices {
        Indices::Run { first, len } => {
            if *len == 0 {
                return None;
            }
            Some(*first as usize)
        }
        Indices::List(listed) => match listed.as_slice() {
            [] => None,
            [number, ..] => Some(*number as usize),
        },
    }
}

/// The first net that a leaf reads.
fn first_of(leaf: Leaf<'_>) -> Option<usize>
    ensures { result ≡ head_of (read_of (leaf_view leaf.entry)) }
{
    match leaf {
        Leaf::Nets(nets) => first_number(nets),
        Leaf::Net(net) => Some(net as usize),
        Leaf::Event(net) => Some(net as usize),
        Leaf::Elements(_) => None,
        Leaf::Element(_) => None,
    }
}

/// The first net that was read so far.
#[derive(Clone, Copy)]
struct First {
    net: Option<usize>,
}

impl Visit for First {
    ghost takes = { λ old leaf new. new.net ≡ option_or old.net (head_of (read_of leaf)) };

    fn leaf(&mut self, leaf: Leaf<'_>) {
        if self.net.is_none() {
            self.net = first_of(leaf);
        }
    }
}

/// The first net that a value reads.
pub(crate) fn first_read(value: &Value) -> Option<usize>
    ensures { result ≡ head_of (value_reads (value_view value.now)) }
{
    let mut found = First { net: None };
    walk_value(value, &mut found);
    found.net
}
