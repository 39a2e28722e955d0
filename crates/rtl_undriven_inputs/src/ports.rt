//! The nets of ports that lines name.

ghost use Rattle.std.specs.Prelude.{◌≡◌, ◌&&◌, ◌||◌, ℕ, IfOk, OnOk};
ghost use Rattle.rtl_net.specs.Nets.{signal_view};
ghost use Rattle.rtl_body_facts.specs.Reading.{is_in};
ghost use Rattle.rtl_remarks.specs.Tables.{AreThose};
ghost use Rattle.rtl_remarks.specs.Remarks.{is_top_port, is_of};
ghost use Rattle.rtl_stim_lines.specs.Inputs as inputs;
ghost use Rattle.rtl_undriven_inputs.specs.Naming as spec;
ghost use Rattle.rtl_undriven_inputs.specs.Kept.{has_name};

use crate::names::{Names, names_of};
use rtl_body_facts::sort_once;
use rtl_net::{Net, NoMemory, Signal};
use std::alloc::Global;

/// Whether a signal is a port of the top with one of these names.
fn is_named(alloc: Global, names: &Names, signal: &Signal) -> Result<bool, NoMemory>
    ensures { IfOk result (λ named. named
        ≡ (is_top_port (signal_view signal.now) && has_name (inputs.small signal.now.name.items) names.now)) }
{
    if !signal.port || signal.scope != 0 {
        return Ok(false);
    }
    let name = signal.name.to_ascii_lowercase(alloc)?;
    Ok(names.contains(name.as_slice()))
}

/// Appends the nets of a signal, if it is such a port.
fn push_named(
    alloc: Global,
    names: &Names,
    signal: &Signal,
    nets: &mut Vec<usize>,
) -> Result<(), NoMemory>
    ensures { OnOk result ((n : ℕ) → is_in n nets.new.items ≡ (is_in n nets.old.items
        || ((is_top_port (signal_view signal.now) && has_name (inputs.small signal.now.name.items) names.now)
        && is_in n signal.now.nets.items))) }
{
    if is_named(alloc, names, signal)? {
        nets.extend_from_slice(signal.nets.as_slice())?;
    }
    Ok(())
}

/// The nets of ports of the top with one of these names, rising.
fn nets_named(alloc: Global, net: &Net, names: &Names) -> Result<Vec<usize>, NoMemory>
    ensures { IfOk result (λ nets. AreThose (is_of
        (λ s. is_top_port s && has_name (inputs.small s.name) names.now) net.now.signals) nets.items) }
{
    let mut nets = Vec::new(alloc);
    let signals = net.signals();
    for signal in signals {
        push_named(alloc, names, signal, &mut nets)?;
    }
    sort_once(&mut nets);
    Ok(nets)
}

/// The nets of ports of the top that the lines of a text name, rising.
pub(crate) fn named_nets(alloc: Global, net: &Net, text: &[u8]) -> Result<Vec<usize>, NoMemory>
    ensures { IfOk result (λ nets. AreThose (spec.has_line net.now text.now) nets.items) }
{
    let names = names_of(alloc, text)?;
    nets_named(alloc, net, &names)
}
