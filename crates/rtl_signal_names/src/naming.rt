//! Signals by their full names.

ghost use Rattle.std.specs.Prelude.{◌≡◌, ◌<◌, if◌then◌else◌, Some, length, map, option_map, IfOk, OnOk, IfSome};
ghost use Rattle.rtl_model.specs.bodies.Fits.{IsWidth};
ghost use Rattle.byte_streams.specs.Written.{Goes};
ghost use Rattle.rtl_net.specs.Nets.{scope_view, signal_view};
ghost use Rattle.rtl_net.specs.Elaborated.{AreScopes};
ghost use Rattle.rtl_stim_lines.specs.Lines.{Word};
ghost use Rattle.rtl_signal_names.specs.Names as names;
ghost use Rattle.rtl_signal_names.specs.Naming.{HasNumbers, kept_number};

use byte_streams::{Out, Sink, push_text};
use rtl_net::{Net, Scope, Signal};
use std::alloc::{AllocError, Global};
use std::collections::HashMap;

/// The numbers of signals by their full names in small letters.
pub type SignalTable = HashMap<Vec<u8>, usize>;

/// The number of the first signal of each full name. It takes memory and time for each letter of
/// the names.
pub fn table_of(alloc: Global, net: &Net) -> Result<SignalTable, AllocError>
    ensures { IfOk result (λ table. HasNumbers net.now table) }
{
    net.is_elaborated();
    let scopes = net.scopes();
    let signals = net.signals();
    let mut table = HashMap::new(alloc);
    let mut number = signals.len();
    while number > 0 {
        number -= 1;
        add_signal(alloc, scopes, &signals[number], number, &mut table)?;
    }
    Ok(table)
}

/// Puts the number of a signal under its full name, in place of another signal's.
fn add_signal(
    alloc: Global,
    scopes: &[Scope],
    signal: &Signal,
    number: usize,
    table: &mut SignalTable,
) -> Result<(), AllocError>
    requires scopes { AreScopes (map scope_view scopes.now) }
    requires there { signal.now.scope < length scopes.now }
    ensures { OnOk result ((name : Word) → kept_number table.new name
        ≡ (if names.is_named (map scope_view scopes.now) name (signal_view signal.now) then Some number
        else kept_number table.old name)) }
{
    let name = full_name(alloc, scopes, signal)?;
    let key = name.to_ascii_lowercase(alloc)?;
    table.insert(key, number)?;
    Ok(())
}

/// A signal's full name.
pub fn full_name(alloc: Global, scopes: &[Scope], signal: &Signal) -> Result<Vec<u8>, AllocError>
    requires scopes { AreScopes (map scope_view scopes.now) }
    requires there { signal.now.scope < length scopes.now }
    ensures { IfOk result (λ name. name.items ≡ names.full_name (map scope_view scopes.now) (signal_view signal.now)) }
{
    let mut name = Out::new(Vec::new(alloc));
    push_name(scopes, signal, &mut name);
    if name.failed() {
        return Err(AllocError);
    }
    Ok(name.into_inner())
}

/// Writes a signal's full name.
pub fn push_name<S: Sink>(scopes: &[Scope], signal: &Signal, sink: &mut S)
    requires scopes { AreScopes (map scope_view scopes.now) }
    requires there { signal.now.scope < length scopes.now }
    ensures { Goes (S.state sink.old) (S.state sink.new)
        (names.full_name (map scope_view scopes.now) (signal_view signal.now)) }
{
    push_labels(scopes, signal.scope, sink);
    push_text(sink, &signal.name);
}

/// Writes the labels from the top to a scope, each before a dot.
fn push_labels<S: Sink>(scopes: &[Scope], scope: usize, sink: &mut S)
    requires scopes { AreScopes (map scope_view scopes.now) }
    requires there { scope < length scopes.now }
    ensures { Goes (S.state sink.old) (S.state sink.new) (names.labels (map scope_view scopes.now) scope) }
{
    let found = &scopes[scope];
    if let Some(parent) = found.parent {
        push_labels(scopes, parent, sink);
        push_text(sink, &found.label);
        push_text(sink, b".");
    }
}

/// The signal with a full name, in letters of either case, and its number. It takes memory for the
/// name, and time for its letters.
pub fn signal_named<'n>(
    alloc: Global,
    net: &'n Net,
    table: &SignalTable,
    name: &[u8],
) -> Result<Option<(usize, &'n Signal)>, AllocError>
    requires table { HasNumbers net.now table.now }
    ensures found { IfOk result (λ found. option_map (λ p. (p.0, signal_view p.1.now)) found ≡
        names.signal_named net.now name.now) }
    ensures width { IfOk result (λ found. IfSome found (λ p. IsWidth (length p.1.now.nets.items))) }
{
    net.is_elaborated();
    let Some(number) = number_named(alloc, table, name)? else {
        return Ok(None);
    };
    let signals = net.signals();
    Ok(Some((number, &signals[number])))
}

/// The number that a table has for a name, in letters of either case.
fn number_named(
    alloc: Global,
    table: &SignalTable,
    name: &[u8],
) -> Result<Option<usize>, AllocError>
    ensures { IfOk result (λ number. number ≡ kept_number table.now name.now) }
{
    let key = name.to_ascii_lowercase(alloc)?;
    Ok(table.get(key.as_slice()).copied())
}
