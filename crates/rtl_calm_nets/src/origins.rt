//! Where the values of nets come from.

ghost use Rattle.std.specs.Prelude.{◌≡◌, ◌<◌, IfOk, length};
ghost use Rattle.rtl_net.specs.Core.{core};
ghost use Rattle.rtl_process_kinds.specs.KindViews.{AreKinds};
ghost use Rattle.rtl_calm_nets.specs.NetOrigins.{AllAreGiven, AreOrigins, AreOutside, IsOrigin};

use crate::drivers::given_by_all;
use crate::outside::{clock_marks, outside_nets};
use rtl_body_facts::ProcessKind;
use rtl_net::{Net, NoMemory, Source};
use rtl_process_kinds::Copied;
use std::alloc::Global;

/// Where a net's values come from, as far as is asked whether it is calm.
#[derive(Clone, Copy)]
pub enum Origin {
    /// It follows inputs.
    Inputs,
    /// It copies a net, and doesn't follow inputs.
    Copied(Copied),
    /// It is a register that no reset assigns.
    Unreset,
    /// It is a register to which its reset, this net, gives a value.
    Reset { by: usize, value: u8 },
    Other,
}

/// Where a net's values come from, of what drivers give.
fn origin_of(net: &Net, outside: &[bool], given: &[Vec<Origin>], number: usize) -> Origin
    requires there { number < length net.now.types }
    requires outside { AreOutside (core net.now) outside.now }
    requires given { AllAreGiven (core net.now) given.now }
    requires each_process { length given.now ≡ length net.now.processes }
    ensures { IsOrigin (core net.now) number result }
{
    net.is_elaborated();
    if outside[number] {
        return Origin::Inputs;
    }
    let sources = net.sources(number);
    if sources.len() != 1 {
        return Origin::Other;
    }
    match sources[0] {
        Source::Driven { process, place } => given[process][place],
        Source::Idle { .. } => Origin::Other,
    }
}

/// Where each net's values come from, where these come from outside.
pub fn origins_of(
    alloc: Global,
    net: &Net,
    kinds: &[ProcessKind],
    outside: &[bool],
) -> Result<Vec<Origin>, NoMemory>
    requires kinds { AreKinds (core net.now) kinds.now }
    requires outside { AreOutside (core net.now) outside.now }
    ensures { IfOk result (λ origins. AreOrigins (core net.now) origins.items) }
{
    let given = given_by_all(alloc, net, kinds, outside)?;
    let mut origins = Vec::new(alloc);
    for number in 0..net.nets() {
        origins.push(origin_of(net, outside, &given, number))?;
    }
    Ok(origins)
}
