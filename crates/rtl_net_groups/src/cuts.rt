//! Cuts of drivers.

ghost use Rattle.std.specs.Prelude.{◌≡◌, ◌<◌, ◌++◌, ◌∷◌, [], All, length, replicate, slice_index_or, IfOk, OnOk};
ghost use Rattle.rtl_net_groups.specs.Cuts.{AreCuts, AreCutsOf};
ghost use Rattle.rtl_net_groups.specs.steps.Cutting.{IsRun};

use crate::lists::Lists;
use std::alloc::{AllocError, Global};
use std::marker::Model;

/// So many places of a process's drivers from `place` on, whose nets are those from `net` on, all
/// in one group.
#[derive(Clone, Copy)]
pub struct Cut {
    pub place: usize,
    pub net: usize,
    pub len: usize,
    pub group: usize,
}

/// The cuts of each process's drivers.
#[derive(Drop)]
pub struct Cuts {
    cuts: Lists<Cut>,
    numbers: Lists<usize>,
}

impl Model for Cuts {
    ghost use Rattle.rtl_net_groups.specs.Cuts.{Cutting};

    ghost Value = { Cutting };

    ghost use Rattle.std.specs.Prelude.{◌≡◌, length};

    ghost view = { λ c. record { cuts = c.cuts; numbers = c.numbers } };

    ghost invariant = { λ c. length c.numbers ≡ length c.cuts };
}

impl Cuts {
    /// The cuts of processes whose drivers have these nets, in these groups. It takes time in
    /// proportion to the drivers.
    pub fn new(alloc: Global, of_net: &[usize], targets: &Lists<usize>) -> Result<Cuts, AllocError>
        requires { All (λ nets. All (λ n. n < length of_net.now) nets) targets.now }
        ensures { IfOk result (λ cuts. AreCutsOf of_net.now targets.now cuts) }
    {
        let mut cuts = Lists::new(alloc)?;
        let mut numbers = Lists::new(alloc)?;
        for process in 0..targets.count() {
            let row = CutRow::new(alloc, of_net, targets.get(process))?;
            cuts.push(&row.cuts)?;
            numbers.push(&row.numbers)?;
        }
        Ok(Cuts { cuts, numbers })
    }

    /// The cuts of a process, in order of their places.
    pub fn of(&self, process: usize) -> &[Cut]
        requires { process < length self.now.cuts }
        ensures { result.now ≡ slice_index_or self.now.cuts process [] }
    {
        self.cuts.get(process)
    }

    /// For each place of a process the number of its cut.
    pub fn numbers(&self, process: usize) -> &[usize]
        requires { process < length self.now.cuts }
        ensures { result.now ≡ slice_index_or self.now.numbers process [] }
    {
        self.numbers.get(process)
    }
}

/// The cuts of one process, and for each place the number of its cut.
#[derive(Drop)]
struct CutRow {
    cuts: Vec<Cut>,
    numbers: Vec<usize>,
}

impl CutRow {
    /// The cuts of a process whose drivers have these nets.
    fn new(alloc: Global, of_net: &[usize], targets: &[usize]) -> Result<CutRow, AllocError>
        requires { All (λ n. n < length of_net.now) targets.now }
        ensures { IfOk result (λ row. AreCuts of_net.now targets.now row.cuts.items row.numbers.items) }
    {
        let mut row = CutRow {
            cuts: Vec::new(alloc),
            numbers: Vec::with_capacity(alloc, targets.len())?,
        };
        let mut place = 0;
        while place < targets.len() {
            let len = run_from(of_net, targets, place);
            let net = targets[place];
            row.push(Cut {
                place,
                net,
                len,
                group: of_net[net],
            })?;
            place += len;
        }
        Ok(row)
    }

    /// Puts a cut behind those of the places before it.
    fn push(&mut self, cut: Cut) -> Result<(), AllocError>
        ensures cuts { OnOk result (self.new.cuts.items ≡ self.old.cuts.items ++ cut ∷ []) }
        ensures numbers { OnOk result (self.new.numbers.items ≡ self.old.numbers.items
            ++ replicate cut.len (length self.old.cuts.items)) }
    {
        let number = self.cuts.len();
        self.cuts.push(cut)?;
        for _place in 0..cut.len {
            self.numbers.push(number)?;
        }
        Ok(())
    }
}

/// How many places from this one on have nets that stand one behind the other in one group.
fn run_from(of_net: &[usize], targets: &[usize], place: usize) -> usize
    requires there { place < length targets.now }
    requires nets { All (λ n. n < length of_net.now) targets.now }
    ensures { IsRun of_net.now targets.now place result }
{
    let net = targets[place];
    for at in 1..targets.len() - place {
        if targets[place + at] != net + at || of_net[net + at] != of_net[net] {
            return at;
        }
    }
    targets.len() - place
}
