//! What a name prints.

ghost use Rattle.std.specs.Prelude.{◌≡◌, ◌<◌, not, All, length, map, slice_index, true};
ghost use Rattle.std.specs.Str.{bytes_eq};
ghost use Rattle.rtl_net.specs.Nets.{signal_view};
ghost use Rattle.rtl_net.specs.Showing.{IsShown};
ghost use Rattle.rtl_vcd.specs.Trace.{printed};
ghost use Rattle.rtl_vcd_values.specs.Values.{character};

use rtl_net::{Signal, SignalKind};
use rtl_vcd_values::{
    Line, binary_digits, is_other_character, push_binary, push_code, push_elements, push_integer,
};

/// The line that the name with this number prints where the nets have these values.
pub fn change_line(number: usize, signal: &Signal, values: &[u8]) -> Line
    requires shown { IsShown (length values.now) (signal_view signal.now) }
    ensures { result.items ≡ printed number (signal_view signal.now) values.now }
{
    let mut line = Line::new();
    match signal.kind {
        SignalKind::One | SignalKind::Boolean => push_elements(&mut line, &signal.nets, values),
        SignalKind::Vector { .. } => {
            line.push(b'b');
            push_elements(&mut line, &signal.nets, values);
            line.push(b' ');
        }
        SignalKind::Enumeration { count } => {
            line.push(b'b');
            let position = values[signal.nets[0]];
            push_binary(
                &mut line,
                binary_digits(count.saturating_sub(1)),
                position as u32,
            );
            line.push(b' ');
        }
        SignalKind::Integer { least, .. } => {
            line.push(b'b');
            push_integer(&mut line, least, &signal.nets, values);
            line.push(b' ');
        }
    }
    push_code(&mut line, number);
    line.push(b'\n');
    line
}

/// Whether the name with this number prints otherwise where the nets have the values `new` than
/// where they have `old`.
pub fn prints_otherwise(number: usize, signal: &Signal, old: &[u8], new: &[u8]) -> bool
    requires before { IsShown (length old.now) (signal_view signal.now) }
    requires after { IsShown (length new.now) (signal_view signal.now) }
    ensures { result ≡ not (bytes_eq (printed number (signal_view signal.now) old.now)
        (printed number (signal_view signal.now) new.now)) }
{
    match signal.kind {
        SignalKind::Enumeration { .. } | SignalKind::Integer { .. } => {
            change_line(number, signal, old).as_slice()
                != change_line(number, signal, new).as_slice()
        }
        _ => has_other_characters(&signal.nets, old, new),
    }
}

/// Whether the values of these nets print otherwise.
fn has_other_characters(nets: &[usize], old: &[u8], new: &[u8]) -> bool
    requires before { All (λ n. n < length old.now) nets.now }
    requires after { All (λ n. n < length new.now) nets.now }
    ensures { result ≡ not (bytes_eq (map character (map (slice_index old.now) nets.now))
        (map character (map (slice_index new.now) nets.now))) }
{
    for net in nets {
        if is_other_character(old[*net], new[*net]) {
            return true;
        }
    }
    false
}
