//! Trees.

ghost use Rattle.std.specs.Prelude.{◌≡◌, IfOk};
ghost use Rattle.rtl_eval.specs.Trees.{process_of, processes_of};

use crate::exec::Exec;
use crate::seen::Valuations;
use crate::statements::run_all;
use rtl_drives::Drives;
use rtl_net::Net;
use std::alloc::{AllocError, Global};
use std::marker::Model;

/// The body of one process of a netlist, as something that runs: it goes over the statements and
/// expressions as the netlist has them.
#[derive(Drop)]
pub struct Tree<'a> {
    net: &'a Net,
    number: usize,
}

impl<'a> Model for Tree<'a> {
    ghost use Rattle.rtl_eval.specs.Trees.{ProcessOf};
    ghost use Rattle.rtl_net.specs.contracts.process.Process as process_contract;
    ghost use Rattle.std.specs.Coded.{codes};

    ghost Value = { ProcessOf };

    ghost coded = { Prim.hlevel (codes, process_contract.the_row.coded) };

    ghost use Rattle.rtl_eval.specs.Kept.{IsBodyThere};

    ghost view = { λ t. record { net = t.net.now; number = t.number } };

    ghost invariant = { λ t. IsBodyThere (record { net = t.net.now; number = t.number }) };
}

impl<'a> Exec for Tree<'a> {
    ghost process = { process_of };

    ghost types = { λ p. p.net.types };

    ghost most = { λ p. 0 };

    fn room(&self) -> usize {
        0
    }

    fn run(&self, cur: &[u8], old: &[u8], out: &mut Drives) {
        out.reset();
        let nets = Valuations {
            current: cur,
            previous: old,
        };
        run_all(&self.net.processes()[self.number].body, nets, out);
    }
}

/// The bodies of a netlist's processes, in the processes' order. It takes the memory of a list.
pub fn trees(alloc: Global, net: &Net) -> Result<Vec<Tree<'_>>, AllocError>
    ensures { IfOk result (λ trees. trees.items ≡ processes_of net.now) }
{
    net.is_elaborated();
    let mut trees = Vec::new(alloc);
    for number in 0..net.processes().len() {
        trees.push(Tree { net, number })?;
    }
    Ok(trees)
}
