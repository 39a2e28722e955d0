//! The header of a trace.

ghost use Rattle.std.specs.Prelude.{◌≡◌, ◌+◌, ◌<◌, ◌≤◌, ◌++◌, length, map, codes, OnOk, OnErr};
ghost use Rattle.byte_streams.specs.Written.{IsIntact, HasFailed, Goes};
ghost use Rattle.rtl_net.specs.Nets.{scope_view, signal_view};
ghost use Rattle.rtl_net.specs.Elaborated.{AreScopes};
ghost use Rattle.rtl_vcd_values.specs.Values as values;
ghost use Rattle.rtl_vcd.specs.Header as spec;
ghost use Rattle.rtl_vcd.specs.Shown.{StandInOrder, StartsScope};

use crate::fault::VcdFault;
use crate::trace::written;
use byte_streams::{Sink, push_number, push_text};
use rtl_net::{Scope, Shown, Signal, SignalKind};
use rtl_vcd_values::{INTEGER, Line, binary_digits, push_code};

/// Writes the header: the unit of time, and the design's scopes with the names that are shown.
/// Takes no memory.
///
/// # Errors
///
/// `Write` where the sink failed: what went out is a beginning of the text.
pub fn header<W: Sink>(shown: Shown<'_>, out: &mut W) -> Result<(), VcdFault>
    requires intact { IsIntact (W.state out.old) }
    ensures text { Goes (W.state out.old) (W.state out.new)
        (spec.header_text shown.entry.net.now.scopes (map signal_view shown.entry.signals.now)) }
    ensures ok { OnOk result (IsIntact (W.state out.new)) }
    ensures err { OnErr result (HasFailed (W.state out.new)) }
{
    shown.net.is_elaborated();
    push_text(out, b"$timescale 1 ns $end\n");
    push_scopes(shown.net.scopes(), shown.signals, out);
    push_closing_after(shown.net.scopes(), out);
    push_text(out, b"$enddefinitions $end\n");
    written(out)
}

/// Each scope with its names, which stand in order of their scopes.
fn push_scopes<W: Sink>(scopes: &[Scope], signals: &[Signal], out: &mut W)
    requires scopes { AreScopes (map scope_view scopes.now) }
    requires order { StandInOrder signals.now }
    ensures { Goes (W.state out.old) (W.state out.new)
        (spec.scopes_text (map scope_view scopes.now) (map signal_view signals.now) (length scopes.now)) }
{
    let mut next = 0;
    for number in 0..scopes.len() {
        push_closing_before(scopes, number, out);
        push_scope_line(&scopes[number].label, out);
        next = push_variables(signals, number, next, out);
    }
}

/// `$scope` and the label.
fn push_scope_line<W: Sink>(label: &[u8], out: &mut W)
    ensures { Goes (W.state out.old) (W.state out.new) (codes "$scope module " ++ label.now ++ codes " $end\n") }
{
    push_text(out, b"$scope module ");
    push_text(out, label);
    push_text(out, b" $end\n");
}

/// The names of a scope, the first of which stands at `start` if it has any. Answers where those of
/// the next scope start.
fn push_variables<W: Sink>(signals: &[Signal], scope: usize, start: usize, out: &mut W) -> usize
    requires order { StandInOrder signals.now }
    requires starts { StartsScope signals.now scope start }
    ensures text { Goes (W.state out.old) (W.state out.new)
        (values.numbered (spec.variable_line_in scope) 0 (map signal_view signals.now)) }
    ensures next { StartsScope signals.now (scope + 1) result }
{
    let mut next = start;
    while next < signals.len() {
        let signal = &signals[next];
        if signal.scope != scope {
            return next;
        }
        push_variable(next, signal, out);
        next += 1;
    }
    next
}

/// The declaration of the name with this number.
fn push_variable<W: Sink>(number: usize, signal: &Signal, out: &mut W)
    ensures { Goes (W.state out.old) (W.state out.new) (spec.variable_line number (signal_view signal.now)) }
{
    push_text(out, b"$var ");
    push_text(out, variable_type(signal.kind));
    push_text(out, b" ");
    push_number(out, digits(signal.kind, signal.nets.len()) as u64);
    push_text(out, b" ");
    let mut code = Line::new();
    push_code(&mut code, number);
    push_text(out, &code);
    push_text(out, b" ");
    push_text(out, &signal.name);
    push_bounds(signal.kind, out);
    push_text(out, b" $end\n");
}

/// The type of variable that a name of this kind is declared as.
fn variable_type(kind: SignalKind) -> &'static [u8]
    ensures { result.now ≡ values.variable_type kind }
{
    match kind {
        SignalKind::Integer { .. } => b"integer",
        _ => b"wire",
    }
}

/// How many digits a name of this kind prints.
fn digits(kind: SignalKind, elements: usize) -> usize
    ensures { result ≡ values.digits kind elements }
{
    match kind {
        SignalKind::One | SignalKind::Boolean => 1,
        SignalKind::Vector { .. } => elements,
        SignalKind::Enumeration { count } => binary_digits(count.saturating_sub(1)) as usize,
        SignalKind::Integer { .. } => INTEGER,
    }
}

/// The bounds of a vector.
fn push_bounds<W: Sink>(kind: SignalKind, out: &mut W)
    ensures { Goes (W.state out.old) (W.state out.new) (spec.bounds kind) }
{
    if let SignalKind::Vector { left, right } = kind {
        push_text(out, b" [");
        push_number(out, left as u64);
        push_text(out, b":");
        push_number(out, right as u64);
        push_text(out, b"]");
    }
}

/// The closing of what isn't round a scope.
fn push_closing_before<W: Sink>(scopes: &[Scope], number: usize, out: &mut W)
    requires scopes { AreScopes (map scope_view scopes.now) }
    requires there { number < length scopes.now }
    ensures { Goes (W.state out.old) (W.state out.new) (spec.closing_before (map scope_view scopes.now) number) }
{
    if number == 0 {
        return;
    }
    let opened = depth(scopes, number - 1) + 1;
    push_upscopes(opened.saturating_sub(depth(scopes, number)), out);
}

/// The closing of the last scope and those round it.
fn push_closing_after<W: Sink>(scopes: &[Scope], out: &mut W)
    requires scopes { AreScopes (map scope_view scopes.now) }
    ensures { Goes (W.state out.old) (W.state out.new)
        (spec.closing_after (map scope_view scopes.now) (length scopes.now)) }
{
    if scopes.is_empty() {
        return;
    }
    push_upscopes(depth(scopes, scopes.len() - 1) + 1, out);
}

/// How many scopes are round a scope.
fn depth(scopes: &[Scope], number: usize) -> usize
    requires scopes { AreScopes (map scope_view scopes.now) }
    requires there { number < length scopes.now }
    ensures depth { result ≡ spec.depth (map scope_view scopes.now) number }
    ensures most { result ≤ number }
{
    let mut depth = 0;
    let mut scope = number;
    while let Some(parent) = scopes[scope].parent {
        depth += 1;
        scope = parent;
    }
    depth
}

/// So many scopes are closed.
fn push_upscopes<W: Sink>(count: usize, out: &mut W)
    ensures { Goes (W.state out.old) (W.state out.new) (spec.upscopes count) }
{
    for _ in 0..count {
        push_text(out, b"$upscope $end\n");
    }
}
