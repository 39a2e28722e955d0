//! Assignments to drivers and variables.

ghost use Rattle.std.specs.Prelude.{◌≡◌, ◌<◌, ◌≤◌, All, IfSome, length};
ghost use Rattle.rtl_model.specs.bodies.Variables.{values_put};
ghost use Rattle.rtl_net.specs.Indices.{numbers};
ghost use Rattle.rtl_eval.specs.Combined.{combined};
ghost use Rattle.rtl_eval.specs.Evaluations.{codes_of};
ghost use Rattle.rtl_eval.specs.Running.{IsFreeRun, assigned};

use crate::combining::Combination;
use crate::evaluated::Evaluated;
use rtl_drives::{Drives, Maker, Span};
use rtl_net::Indices;
use vhdl_values::Logic;

/// A value's elements, from the left, to the drivers at these places.
pub fn assign(places: &Indices, value: &Evaluated, out: &mut Drives)
    requires as_many { length (numbers places.now) ≡ length (codes_of value.now) }
    requires there { All (λ place. place < length out.old.entries) (numbers places.now) }
    ensures { out.new ≡ record (out.old)
        { entries = assigned (numbers places.now) (codes_of value.now) out.old.entries } }
{
    match value {
        Evaluated::Elements(values) => assign_made(places, values.len(), values, out),
        Evaluated::Position(at) => assign_codes(places, &[*at], out),
    }
}

/// The codes of a logical operator's values on codes, from the left, to the drivers at these
/// places.
pub fn assign_combined(logic: Logic, left: &[u8], right: &[u8], places: &Indices, out: &mut Drives)
    requires some { 0 < length left.now }
    requires room { length left.now ≤ 64 }
    requires as_many { length right.now ≡ length left.now }
    requires each { length (numbers places.now) ≡ length left.now }
    requires there { All (λ place. place < length out.old.entries) (numbers places.now) }
    ensures { out.new ≡ record (out.old)
        { entries = assigned (numbers places.now) (combined logic left.now right.now) out.old.entries } }
{
    let combination = Combination { logic, left, right };
    assign_made(places, left.len(), &combination, out);
}

/// So many codes, from the left, to the drivers at these places. Where these stand one after
/// another and none of them has an entry, the codes are made where they are kept.
pub fn assign_made<M: Maker>(places: &Indices, many: usize, maker: &M, out: &mut Drives)
    requires some { 0 < many }
    requires room { many ≤ 64 }
    requires made { length (M.made maker.now) ≡ many }
    requires as_many { length (numbers places.now) ≡ many }
    requires there { All (λ place. place < length out.old.entries) (numbers places.now) }
    ensures { out.new ≡ record (out.old)
        { entries = assigned (numbers places.now) (M.made maker.now) out.old.entries } }
{
    match free_run(places, out) {
        Some(span) => out.set_free(span, maker),
        None => assign_later(places, many, maker, out),
    }
}

/// The same in any case: the codes are made elsewhere first.
fn assign_later<M: Maker>(places: &Indices, many: usize, maker: &M, out: &mut Drives)
    requires room { many ≤ 64 }
    requires made { length (M.made maker.now) ≡ many }
    requires as_many { length (numbers places.now) ≡ many }
    requires there { All (λ place. place < length out.old.entries) (numbers places.now) }
    ensures { out.new ≡ record (out.old)
        { entries = assigned (numbers places.now) (M.made maker.now) out.old.entries } }
{
    let mut codes = [0; 64];
    let made = &mut codes[..many];
    maker.make(made);
    assign_codes(places, made, out);
}

/// These places as a span, where they stand one after another and none of them has an entry.
fn free_run(places: &Indices, out: &mut Drives) -> Option<Span>
    requires some { 0 < length (numbers places.now) }
    requires there { All (λ place. place < length out.old.entries) (numbers places.now) }
    ensures stay { out.new ≡ out.old }
    ensures run { IfSome result (IsFreeRun (numbers places.now) out.old.entries) }
{
    match places {
        Indices::Run { first, len } => {
            let span = Span {
                first: *first as usize,
                len: *len as usize,
            };
            if out.are_free(span) { Some(span) } else { None }
        }
        Indices::List(_) => None,
    }
}

/// A value's elements, from the left, to these elements of variables.
pub fn set(elements: &Indices, value: &Evaluated, out: &mut Drives)
    requires as_many { length (numbers elements.now) ≡ length (codes_of value.now) }
    requires there { All (λ element. element < length out.old.variables) (numbers elements.now) }
    ensures { out.new ≡ record (out.old)
        { variables = values_put (numbers elements.now) (codes_of value.now) out.old.variables } }
{
    match value {
        Evaluated::Elements(values) => {
            let mut codes = [0; 64];
            let written = &mut codes[..values.len()];
            values.write_codes(written);
            set_codes(elements, written, out);
        }
        Evaluated::Position(at) => set_codes(elements, &[*at], out),
    }
}

/// These codes, from the left, to the drivers at these places.
pub fn assign_codes(places: &Indices, codes: &[u8], out: &mut Drives)
    requires as_many { length (numbers places.now) ≡ length codes.now }
    requires there { All (λ place. place < length out.old.entries) (numbers places.now) }
    ensures { out.new ≡ record (out.old) { entries = assigned (numbers places.now) codes.now out.old.entries } }
{
    match places {
        Indices::Run { first, len } => {
            let _len = *len;
            out.set_span(*first as usize, codes);
        }
        Indices::List(listed) => assign_each(listed.as_slice(), codes, out),
    }
}

/// These codes, from the left, to the drivers at these places, which need not stand one after
/// another.
pub(crate) fn assign_each(places: &[u32], codes: &[u8], out: &mut Drives)
    requires as_many { length places.now ≡ length codes.now }
    requires there { All (λ place. place < length out.old.entries) places.now }
    ensures { out.new ≡ record (out.old) { entries = assigned places.now codes.now out.old.entries } }
{
    for at in 0..codes.len() {
        out.set(places[at] as usize, codes[at]);
    }
}

/// These codes, from the left, to these elements of variables.
fn set_codes(elements: &Indices, codes: &[u8], out: &mut Drives)
    requires as_many { length (numbers elements.now) ≡ length codes.now }
    requires there { All (λ element. element < length out.old.variables) (numbers elements.now) }
    ensures { out.new ≡ record (out.old) { variables = values_put (numbers elements.now) codes.now out.old.variables } }
{
    for at in 0..codes.len() {
        out.set_variable(elements.at(at), codes[at]);
    }
}
