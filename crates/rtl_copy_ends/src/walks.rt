//! Walks down copies, from all nets.

ghost use Rattle.std.specs.Prelude.{◌≡◌, ◌<◌, ◌*◌, ◌^◌, All, IfOk, true, length};
ghost use Rattle.rtl_copy_ends.specs.Ends as spec;
ghost use Rattle.rtl_copy_ends.specs.Inside.{seen_by};
ghost use Rattle.rtl_copy_ends.specs.Steps.{AreSteps, AreWalks, next, place_of, standing_at};

use crate::inside::inside_nets;
use crate::processes::all_kinds;
use crate::sight::{End, Sight, Standing, look};
use crate::table::after;
use rtl_body_facts::ProcessKind;
use rtl_net::Net;
use rtl_process_kinds::Asked;
use rtl_seen_nets::seen_nets;
use std::alloc::{AllocError, Global};

/// Where the walks from all nets down copies stand one step before their last, and the kinds of all
/// processes: where a walk ends is found by it in constant time. And which net that doesn't come
/// from outside each net's driver looks at.
#[derive(Drop)]
pub struct Walks {
    kinds: Vec<ProcessKind>,
    far: Vec<usize>,
    seen: Vec<Option<usize>>,
}

impl Walks {
    /// Those of a netlist, which is wide: of another there are none. It takes time in proportion to
    /// its processes with their bodies, and to its nets times the logarithm of how many processes
    /// it has, and memory for each of its processes and nets, and for what a body looks at.
    pub fn of(alloc: Global, net: &Net) -> Result<Walks, AllocError>
        ensures { IfOk result (λ walks. net.now.wide ≡ true → AreWalks net.now walks) }
    {
        if !net.is_wide() {
            return Ok(Walks {
                kinds: Vec::new(alloc),
                far: Vec::new(alloc),
                seen: Vec::new(alloc),
            });
        }
        let kinds = all_kinds(alloc, net)?;
        let inside = inside_nets(alloc, net, &kinds)?;
        let seen = seen_nets(alloc, net, &inside)?;
        let steps = first_steps(alloc, net, &kinds)?;
        let between = net.processes().len().saturating_sub(2);
        let far = after(alloc, &steps, between)?;
        Ok(Walks { kinds, far, seen })
    }

    /// What stands where the walk ends that begins here.
    pub fn end_of(&self, net: &Net, from: Standing) -> End
        requires are { AreWalks net.now self.now }
        requires some { 0 < length net.now.processes }
        ensures { result ≡ spec.end_of net.now from }
    {
        net.is_elaborated();
        let copied = match look(net, &self.kinds, from) {
            Sight::Ends(end) => return end,
            Sight::Copies(copied) => copied,
        };
        if net.processes().len() < 2 {
            return End::Circle { net: copied.net };
        }
        let last = standing_at(self.far[place_of(copied)]);
        match look(net, &self.kinds, last) {
            Sight::Ends(end) => end,
            Sight::Copies(copied) => End::Circle { net: copied.net },
        }
    }

    /// The lowest net that a net's first driver looks at and that doesn't come from outside.
    pub fn seen_by(&self, net: &Net, number: usize) -> Option<usize>
        requires { AreWalks net.now self.now }
        ensures { result ≡ seen_by net.now number }
    {
        if number < net.nets() {
            self.seen[number]
        } else {
            None
        }
    }
}

/// The number of the place of a net that is copied, and of a set of its values.
fn place_of(standing: Standing) -> usize
    requires { standing.net < 2 ^ 60 }
    ensures { result ≡ place_of standing }
{
    4 * standing.net + standing.asked.number()
}

/// What has this place.
fn standing_at(place: usize) -> Standing
    ensures { result ≡ standing_at place }
{
    Standing {
        net: place / 4,
        asked: Asked::numbered(place % 4),
        copied: true,
    }
}

/// Where a step leads from a place: nowhere, where a walk ends there.
fn next_place(net: &Net, kinds: &[ProcessKind], place: usize) -> usize
    requires { kinds.now ≡ spec.all_kinds net.now }
    ensures { result ≡ next net.now place }
{
    net.is_elaborated();
    match look(net, kinds, standing_at(place)) {
        Sight::Ends(_) => place,
        Sight::Copies(standing) => place_of(standing),
    }
}

/// Where a step leads from each place.
fn first_steps(alloc: Global, net: &Net, kinds: &[ProcessKind]) -> Result<Vec<usize>, AllocError>
    requires { kinds.now ≡ spec.all_kinds net.now }
    ensures { IfOk result (λ steps. AreSteps net.now steps.items) }
{
    let mut steps = Vec::new(alloc);
    for place in 0..4 * net.nets() {
        steps.push(next_place(net, kinds, place))?;
    }
    Ok(steps)
}
