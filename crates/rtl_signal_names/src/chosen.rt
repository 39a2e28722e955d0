//! The signals that names choose.

ghost use Rattle.std.specs.Prelude.{◌≡◌, ◌<◌, ◌++◌, List, map, length, codes, IfOk, OnOk};
ghost use Rattle.std.specs.List.{list_any};
ghost use Rattle.rtl_net.specs.Elaborated.{AreScopes};
ghost use Rattle.rtl_net.specs.Nets.{scope_view, signal_view};
ghost use Rattle.rtl_stim_lines.specs.Lines.{Word};
ghost use Rattle.rtl_signal_names.specs.Names as spelled;
ghost use Rattle.rtl_signal_names.specs.Chosen as spec;

use crate::naming::full_name;
use rtl_net::{Net, Scope, Shown, Signal};
use std::alloc::{AllocError, Global};

/// Copies of the signals that names choose, in order of declaration; or the place, from 1, of the
/// first name that chooses none. It takes memory for each of them and for one full name at a time,
/// and time by names times signals.
pub fn choose(
    alloc: Global,
    net: &Net,
    names: &[&[u8]],
) -> Result<Result<Vec<Signal>, usize>, AllocError>
    ensures { IfOk result (λ found. spec.as_views found
        ≡ spec.choice_of (map (λ name. name.now) names.now) net.now) }
{
    if let Some(place) = idle_place(alloc, net, names)? {
        return Ok(Err(place));
    }
    let signals = chosen(alloc, net, names)?;
    Ok(Ok(signals))
}

/// A netlist, and signals of it that names choose.
pub fn chosen_shown<'a>(net: &'a Net, signals: &'a [Signal]) -> Shown<'a>
    requires { (names : List Word) × (map signal_view signals.now ≡ spec.chosen names net.now) }
    ensures net { result.net.now ≡ net.now }
    ensures signals { result.signals.now ≡ signals.now }
{
    net.is_elaborated();
    Shown { net, signals }
}

/// The place, from 1, of the first name that chooses none of the signals.
fn idle_place(alloc: Global, net: &Net, names: &[&[u8]]) -> Result<Option<usize>, AllocError>
    ensures { IfOk result (λ place. place ≡ spec.idle_from 1 (map (λ name. name.now) names.now) net.now) }
{
    for place in 0..names.len() {
        let found = chosen(alloc, net, &names[place..place + 1])?;
        if found.is_empty() {
            return Ok(Some(place + 1));
        }
    }
    Ok(None)
}

/// Copies of the signals that names choose.
fn chosen(alloc: Global, net: &Net, names: &[&[u8]]) -> Result<Vec<Signal>, AllocError>
    ensures { IfOk result (λ found. map signal_view found.items
        ≡ spec.chosen (map (λ name. name.now) names.now) net.now) }
{
    net.is_elaborated();
    let scopes = net.scopes();
    let signals = net.signals();
    let mut found = Vec::new(alloc);
    for number in 0..signals.len() {
        add_chosen(alloc, scopes, &signals[number], names, &mut found)?;
    }
    Ok(found)
}

/// Puts a copy of a signal behind others, if the names choose it.
fn add_chosen(
    alloc: Global,
    scopes: &[Scope],
    signal: &Signal,
    names: &[&[u8]],
    found: &mut Vec<Signal>,
) -> Result<(), AllocError>
    requires scopes { AreScopes (map scope_view scopes.now) }
    requires there { signal.now.scope < length scopes.now }
    ensures { OnOk result (map signal_view found.new.items ≡ map signal_view found.old.items
        ++ spec.if_chosen (map (λ name. name.now) names.now) (map scope_view scopes.now) (signal_view signal.now)) }
{
    let is_one = is_chosen(alloc, scopes, signal, names)?;
    if !is_one {
        return Ok(());
    }
    let copy = signal.copied(alloc)?;
    found.push(copy)?;
    Ok(())
}

/// Whether one of the names chooses a signal.
fn is_chosen(
    alloc: Global,
    scopes: &[Scope],
    signal: &Signal,
    names: &[&[u8]],
) -> Result<bool, AllocError>
    requires scopes { AreScopes (map scope_view scopes.now) }
    requires there { signal.now.scope < length scopes.now }
    ensures { IfOk result (λ is. is ≡ spec.is_chosen (map (λ name. name.now) names.now)
        (map scope_view scopes.now) (signal_view signal.now)) }
{
    let full = full_name(alloc, scopes, signal)?;
    Ok(one_chooses(names, &full))
}

/// Whether one of the names chooses what has this full name.
fn one_chooses(names: &[&[u8]], full: &[u8]) -> bool
    ensures { result ≡ list_any (λ name. spec.chooses name.now full.now) names.now }
{
    names.iter().any(|name| chooses(name, full))
}

/// Whether a name chooses what has this full name.
fn chooses(name: &[u8], full: &[u8]) -> bool
    ensures { result ≡ spec.chooses name.now full.now }
{
    are_alike(name, full) || stands_below(name, full)
}

/// Whether a name begins with another one and a dot.
fn stands_below(outer: &[u8], name: &[u8]) -> bool
    ensures { result ≡ spec.begins_alike (outer.now ++ codes ".") name.now }
{
    let end = outer.len();
    if name.len() <= end {
        return false;
    }
    if name[end] != b'.' {
        return false;
    }
    are_alike(outer, &name[..end])
}

/// Whether two names are the same, in letters of either case.
fn are_alike(name: &[u8], other: &[u8]) -> bool
    ensures { result ≡ spelled.are_alike name.now other.now }
{
    name.eq_ignore_ascii_case(other)
}
