//! Integers, and whether they are numbers.

ghost use Rattle.std.specs.Prelude.{◌≡◌, ◌++◌, All, map, if◌then◌else◌, Some, None, IfOk, OnOk};
ghost use Rattle.std.specs.Option.{option_or};
ghost use Rattle.vhdl_values.specs.Numbers as numbers;
ghost use Rattle.vhdl_values.specs.Scalar.{value_of_code};
ghost use Rattle.rtl_lost_integers.specs.Lost as spec;
ghost use Rattle.rtl_lost_integers.specs.Watching.{integers_view, is_fresh, is_lost_now, seen, first_now};

use rtl_net::{Net, NoMemory, Signal, SignalKind};
use std::alloc::Global;
use vhdl_values::Nine;

/// A signal or port of an integer type, by its number; the nets of its digits, and whether these
/// were a number when they were looked at last.
#[derive(Drop)]
pub(crate) struct Integer {
    pub(crate) signal: usize,
    pub(crate) nets: Vec<usize>,
    pub(crate) was_number: bool,
}

impl Integer {
    /// Looks at the values of all nets, and answers whether the integer is lost.
    fn look(&mut self, values: &[u8]) -> bool
        ensures lost { result ≡ is_lost_now values.now self.old }
        ensures seen { self.new ≡ seen values.now self.old }
    {
        let is_number = is_number(&self.nets, values);
        let is_lost = self.was_number && !is_number;
        self.was_number = is_number;
        is_lost
    }
}

/// Whether these nets have digits alone.
fn is_number(nets: &[usize], values: &[u8]) -> bool
    ensures { result ≡ spec.is_number values.now nets.now }
{
    nets.iter()
        .all(|net| is_good(values.get(*net).copied().unwrap_or(0)))
}

/// Whether the value with this code stands for a binary digit.
fn is_good(code: u8) -> bool
    ensures { result ≡ numbers.is_good (value_of_code code) }
{
    match Nine::from_code(code) {
        Some(Nine::Zero | Nine::One | Nine::L | Nine::H) => true,
        _ => false,
    }
}

/// Looks at the values of all nets, and answers the signal of the first integer that is lost.
pub(crate) fn look(integers: &mut Vec<Integer>, values: &[u8]) -> Option<usize>
    ensures first { result ≡ first_now values.now integers.old.items }
    ensures seen { integers.new.items ≡ map (seen values.now) integers.old.items }
{
    let mut first = None;
    for place in 0..integers.len() {
        let integer = &mut integers[place];
        let is_lost = integer.look(values);
        first = first_or(first, is_lost, integer.signal);
    }
    first
}

/// The first signal, or this one, if it is lost.
fn first_or(first: Option<usize>, is_lost: bool, signal: usize) -> Option<usize>
    ensures { result ≡ option_or first (if is_lost then Some signal else None) }
{
    match first {
        Some(found) => Some(found),
        None if is_lost => Some(signal),
        None => None,
    }
}

/// Appends the signal of this number, if it is an integer.
fn push_integer(
    alloc: Global,
    number: usize,
    signal: &Signal,
    integers: &mut Vec<Integer>,
) -> Result<(), NoMemory>
    ensures integers { OnOk result (integers_view integers.new.items
        ≡ integers_view integers.old.items ++ spec.of_kind signal.now.kind number signal.now.nets.items) }
    ensures fresh { OnOk result (All is_fresh integers.old.items → All is_fresh integers.new.items) }
{
    if let SignalKind::Integer { .. } = signal.kind {
        let nets = Vec::from_slice(alloc, &signal.nets)?;
        integers.push(Integer {
            signal: number,
            nets,
            was_number: false,
        })?;
    }
    Ok(())
}

/// The integers of a netlist, in order of its signals. It takes memory for their digits.
pub(crate) fn integers_of(alloc: Global, net: &Net) -> Result<Vec<Integer>, NoMemory>
    ensures integers { IfOk result (λ integers. integers_view integers.items ≡ spec.integers_of net.now) }
    ensures fresh { IfOk result (λ integers. All is_fresh integers.items) }
{
    let mut integers = Vec::new(alloc);
    let signals = net.signals();
    for number in 0..signals.len() {
        push_integer(alloc, number, &signals[number], &mut integers)?;
    }
    Ok(integers)
}
