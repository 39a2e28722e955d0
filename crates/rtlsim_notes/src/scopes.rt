//! What a net is called in a scope, and the instance that a scope is.

ghost use Rattle.std.specs.Prelude.{◌≡◌, map, slice_get, IfOk};
ghost use Rattle.rtl_net.specs.Nets.{label_at, parent_of, scope_view, signal_view};
ghost use Rattle.rtlsim_notes.specs.Scopes as spec;
ghost use Rattle.vhdl_slips.specs.Words.{read_of};

use rtl_net::{Net, NoMemory, Scope, Signal};
use std::alloc::Global;
use vhdl_lexer::Token;
use vhdl_places::{entity_name, instance_in};
use vhdl_slips::Lexed;

/// Whether a net is one of a signal's.
fn has_net(number: usize, signal: &Signal) -> bool
    ensures { result ≡ spec.has_net number (signal_view signal.now) }
{
    signal.nets.as_slice().iter().any(|net| *net == number)
}

/// The signals and ports of a scope that a net is one of, by their names.
pub(crate) fn names_in<'a>(
    alloc: Global,
    net: &'a Net,
    scope: usize,
    number: usize,
) -> Result<Vec<&'a [u8]>, NoMemory>
    ensures { IfOk result (λ names. map (λ n. n.now) names.items ≡ spec.names_in net.now scope number) }
{
    let mut names = Vec::new(alloc);
    let signals = net.signals();
    for signal in signals {
        if signal.scope == scope && has_net(number, signal) {
            names.push(signal.name.as_slice())?;
        }
    }
    Ok(names)
}

/// The scope that declares a net.
pub(crate) fn scope_of_net(net: &Net, number: usize) -> Option<usize>
    ensures { result ≡ spec.scope_of_net net.now number }
{
    let signals = net.signals();
    for signal in signals {
        if has_net(number, signal) {
            return Some(signal.scope);
        }
    }
    None
}

/// The scope in which a process stands.
pub(crate) fn scope_of(net: &Net, process: usize) -> Option<usize>
    ensures { result ≡ spec.scope_of (slice_get net.now.processes process) }
{
    match net.processes().get(process) {
        Some(process) => Some(process.scope),
        None => None,
    }
}

/// The scope round another.
fn parent_of(scopes: &[Scope], scope: usize) -> Option<usize>
    ensures { result ≡ parent_of (map scope_view scopes.now) scope }
{
    match scopes.get(scope) {
        Some(found) => found.parent,
        None => None,
    }
}

/// The label of a scope, empty where there is none of this number.
pub(crate) fn label_at(scopes: &[Scope], scope: usize) -> &[u8]
    ensures { result.now ≡ label_at (map scope_view scopes.now) scope }
{
    match scopes.get(scope) {
        Some(found) => &found.label,
        None => &[],
    }
}

/// Of the scopes from this one up, the one that stands in the given one.
pub(crate) fn child_of(scopes: &[Scope], owner: usize, scope: usize) -> Option<usize>
    ensures { result ≡ spec.child_of (map scope_view scopes.now) owner scope }
{
    let mut steps = scope;
    let mut here = scope;
    while steps > 0 {
        let parent = parent_of(scopes, here)?;
        if parent == owner {
            return Some(here);
        }
        here = parent;
        steps -= 1;
    }
    None
}

/// The name of a scope's entity, with so many steps up at most.
fn entity_within<'a>(source: Lexed<'a>, scopes: &'a [Scope], steps: usize, scope: usize) -> &'a [u8]
    ensures { result.now ≡ spec.entity_within (read_of source.entry) (map scope_view scopes.now) steps scope }
{
    let label = label_at(scopes, scope);
    if steps == 0 {
        return label;
    }
    match parent_of(scopes, scope) {
        Some(parent) => {
            let entity = entity_within(source, scopes, steps - 1, parent);
            entity_name(source.text, instance_in(source, entity, label))
        }
        None => label,
    }
}

/// The instance that a scope is; nothing for the top.
pub(crate) fn instance_of<'a>(source: Lexed<'a>, scopes: &'a [Scope], scope: usize) -> &'a [Token]
    ensures { result.now ≡ spec.instance_of (read_of source.entry) (map scope_view scopes.now) scope }
{
    match parent_of(scopes, scope) {
        Some(parent) => {
            let entity = entity_within(source, scopes, parent, parent);
            instance_in(source, entity, label_at(scopes, scope))
        }
        None => &[],
    }
}
