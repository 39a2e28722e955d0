//! Calm nets: the places of the search along copies.

ghost use Rattle.std.specs.Prelude.{◌≡◌, ◌<◌, ◌^◌, IfOk, length};
ghost use Rattle.rtl_net.specs.Core.{core};
ghost use Rattle.rtl_process_kinds.specs.KindViews.{AreKinds};
ghost use Rattle.rtl_calm_nets.specs.NetOrigins.{AreClockMarks, AreOrigins};
ghost use Rattle.rtl_calm_nets.specs.CalmPlaces as p;
ghost use Rattle.rtl_calm_nets.specs.CalmPlaces.{AreCalm, AreMade, AreSteps, place_of};

use crate::entries::starting_codes;
use crate::origins::{Origin, origins_of};
use crate::outside::{is_marked, outside_nets};
use crate::search::{Step, reached};
use rtl_body_facts::ProcessKind;
use rtl_net::{Net, NoMemory};
use rtl_process_kinds::Asked;
use std::alloc::Global;

/// The number of the place of a net and a set of values.
pub fn place_of(net: usize, asked: Asked) -> usize
    requires { net < 2 ^ 60 }
    ensures { result ≡ place_of net asked }
{
    4 * net + asked.number()
}

/// From a net to what it is made of.
fn made_step(origin: Origin) -> Step
    ensures { result ≡ p.made_step origin }
{
    match origin {
        Origin::Inputs => Step::Ends(true),
        Origin::Copied(copied) => Step::To(copied.net),
        _ => Step::Ends(false),
    }
}

/// Of each net whether it is made of inputs, where nets have these origins.
fn made_nets(alloc: Global, net: &Net, origins: &[Origin]) -> Result<Vec<bool>, NoMemory>
    requires { AreOrigins (core net.now) origins.now }
    ensures { IfOk result (λ made. AreMade (core net.now) made.items) }
{
    net.is_elaborated();
    let mut steps = Vec::new(alloc);
    for origin in origins {
        steps.push(made_step(*origin))?;
    }
    reached(alloc, &steps)
}

/// Whether a net of this origin that starts with this value starts quietly for a set of values.
fn starts_quietly(asked: Asked, origin: Origin, start: u8) -> bool
    ensures { result ≡ p.starts_quietly asked origin start }
{
    match origin {
        Origin::Unreset => true,
        Origin::Reset { value, .. } => !asked.has(start) || asked.has(value),
        _ => !asked.has(start),
    }
}

/// What is known of nets: where they come from, which are made of inputs, and what they start with.
#[derive(Clone, Copy)]
struct Known<'a> {
    origins: &'a [Origin],
    made: &'a [bool],
    starts: &'a [u8],
}

/// From a copy of a net to that net, for a set of its values.
fn copy_step(known: Known<'_>, net: usize, asked: Asked) -> Step
    requires few { length known.origins.now < 2 ^ 60 }
    requires each_start { length known.starts.now ≡ length known.origins.now }
    ensures { result ≡ p.copy_step known.entry.origins.now known.entry.starts.now net asked }
{
    if net >= known.origins.len() {
        return Step::Ends(false);
    }
    if starts_quietly(asked, known.origins[net], known.starts[net]) {
        Step::To(place_of(net, asked))
    } else {
        Step::Ends(false)
    }
}

/// From a net of this origin and a set of its values to what decides whether it is calm for them.
fn calm_step(known: Known<'_>, origin: Origin, asked: Asked) -> Step
    requires few { length known.origins.now < 2 ^ 60 }
    requires each_start { length known.starts.now ≡ length known.origins.now }
    ensures { result
        ≡ p.calm_step known.entry.origins.now known.entry.made.now known.entry.starts.now origin asked }
{
    match origin {
        Origin::Inputs | Origin::Unreset => Step::Ends(true),
        Origin::Copied(copied) => copy_step(known, copied.net, asked.through(copied.inverted)),
        Origin::Reset { by, value } => Step::Ends(asked.has(value) || is_marked(known.made, by)),
        Origin::Other => Step::Ends(false),
    }
}

/// The steps of all nets, for each set of values.
fn calm_steps(alloc: Global, known: Known<'_>) -> Result<Vec<Step>, NoMemory>
    requires few { length known.origins.now < 2 ^ 60 }
    requires each_start { length known.starts.now ≡ length known.origins.now }
    ensures { IfOk result (λ steps.
        AreSteps known.entry.origins.now known.entry.made.now known.entry.starts.now steps.items) }
{
    let mut steps = Vec::new(alloc);
    for place in 0..4 * known.origins.len() {
        let origin = known.origins[place / 4];
        steps.push(calm_step(known, origin, Asked::numbered(place % 4)))?;
    }
    Ok(steps)
}

/// Of each net and set of values whether it is calm for them, by the number of its place.
pub fn calm_nets(
    alloc: Global,
    net: &Net,
    kinds: &[ProcessKind],
    clocks: &[bool],
) -> Result<Vec<bool>, NoMemory>
    requires kinds { AreKinds (core net.now) kinds.now }
    requires clocks { AreClockMarks (core net.now) clocks.now }
    ensures { IfOk result (λ calm. AreCalm (core net.now) calm.items) }
{
    net.is_elaborated();
    let outside = outside_nets(alloc, net, clocks)?;
    let origins = origins_of(alloc, net, kinds, &outside)?;
    let made = made_nets(alloc, net, &origins)?;
    let starts = starting_codes(alloc, net)?;
    let known = Known {
        origins: &origins,
        made: &made,
        starts: &starts,
    };
    let steps = calm_steps(alloc, known)?;
    reached(alloc, &steps)
}
