//! Rows that an index chooses: their values, and assignments to them.

ghost use Rattle.std.specs.Prelude.{◌≡◌, ◌<◌, ◌≤◌, ◌+◌, All, IfSome, IfNone, length, map, take, drop, replicate, slice_index};
ghost use Rattle.vhdl_values.specs.Scalar.{code_of};
ghost use Rattle.vhdl_values.specs.declared.scalar.Nine.TheVariants.{X};
ghost use Rattle.rtl_model.specs.bodies.Rows.{row_at};
ghost use Rattle.rtl_model.specs.bodies.Values.{element_at, chosen_of, targets_at, given_at, elements_of};
ghost use Rattle.rtl_model.specs.bodies.Variables.{values_put};
ghost use Rattle.rtl_model.specs.bodies.Fits.{IsWidth, IsSpacing, HoldsRows};
ghost use Rattle.rtl_net.specs.Indices.{numbers};
ghost use Rattle.rtl_net.specs.Bodies.{spacing_view, rows_view};
ghost use Rattle.rtl_eval.specs.Running.{assigned};
ghost use Rattle.rtl_eval.specs.Rows.{BeginsAt, IsNowhere};
ghost use Rattle.rtl_eval.specs.Seeing.{seen_of, Within};

use crate::assigning::assign_each;
use crate::expressions::scattered;
use crate::seen::SeenValues;
use rtl_drives::Drives;
use rtl_net::{Indices, RowsOf, Spacing};
use vhdl_numbers::natural;
use vhdl_values::{Nine, Vec9};

/// Where the row with the number of an index begins in so many elements, if there is such a row.
pub fn row_start(index: &Vec9, spacing: Spacing, elements: usize) -> Option<usize>
    requires { IsSpacing (spacing_view spacing) }
    ensures some { IfSome result (BeginsAt (spacing_view spacing) elements index.now) }
    ensures none { IfNone result (IsNowhere (spacing_view spacing) elements index.now) }
{
    let number = natural(index)?;
    let first = u128::from(number) * u128::from(spacing.step);
    if first + u128::from(spacing.len) <= elements as u128 {
        Some(first as usize)
    } else {
        None
    }
}

/// The row with the number of an index, or as many X's where there is no such row.
pub fn chosen(index: &Vec9, spacing: Spacing, rows: &RowsOf, seen: SeenValues<'_>) -> Vec9
    requires spacing { IsSpacing (spacing_view spacing) }
    requires rows { Within (seen_of seen) (λ scope. HoldsRows scope (rows_view rows.now)) }
    ensures { result ≡ chosen_of spacing.len
        (row_at (spacing_view spacing) (elements_of (seen_of seen.entry) (rows_view rows.now)) index.now) }
{
    match rows {
        RowsOf::Signals(nets) => chosen_at(index, spacing, nets, seen.current),
        RowsOf::Variables(elements) => chosen_at(index, spacing, elements, seen.variables),
        RowsOf::Constants(values) => chosen_constant(index, spacing, values),
    }
}

/// The same of the values at these places, which are of the nine.
fn chosen_at(index: &Vec9, spacing: Spacing, places: &Indices, values: &[u8]) -> Vec9
    requires spacing { IsSpacing (spacing_view spacing) }
    requires there { All (λ place. place < length values.now) (numbers places.now) }
    requires nine { All (λ place. slice_index values.now place < 9) (numbers places.now) }
    ensures { result ≡ chosen_of spacing.len
        (row_at (spacing_view spacing) (map (element_at values.now) (numbers places.now)) index.now) }
{
    match row_start(index, spacing, places.len()) {
        Some(at) => row_of(places, at, spacing.len as usize, values),
        None => Vec9::fill(Nine::X, spacing.len as usize),
    }
}

/// The values at so many of these places, which are of the nine, from one of them on.
fn row_of(places: &Indices, at: usize, len: usize, values: &[u8]) -> Vec9
    requires width { IsWidth len }
    requires within { at + len ≤ length (numbers places.now) }
    requires there { All (λ place. place < length values.now) (numbers places.now) }
    requires nine { All (λ place. slice_index values.now place < 9) (numbers places.now) }
    ensures { result ≡ map (element_at values.now) (take len (drop at (numbers places.now))) }
{
    match places {
        Indices::Run { first, len: many } => {
            let _many = *many;
            let start = *first as usize + at;
            Vec9::of_codes(&values[start..start + len])
        }
        Indices::List(listed) => scattered(&listed.as_slice()[at..at + len], values),
    }
}

/// The same of constants.
pub fn chosen_constant(index: &Vec9, spacing: Spacing, values: &[Nine]) -> Vec9
    requires { IsSpacing (spacing_view spacing) }
    ensures { result ≡ chosen_of spacing.len (row_at (spacing_view spacing) values.now index.now) }
{
    let len = spacing.len as usize;
    match row_start(index, spacing, values.len()) {
        Some(at) => Vec9::of(&values[at..at + len]),
        None => Vec9::fill(Nine::X, len),
    }
}

/// A value's elements, from the left, to the row of these drivers with the number of an index; X's
/// to all of them where there is no such row.
pub fn assign_row(index: &Vec9, spacing: Spacing, places: &Indices, value: &Vec9, out: &mut Drives)
    requires spacing { IsSpacing (spacing_view spacing) }
    requires as_long { spacing.len ≡ length value.now }
    requires there { All (λ place. place < length out.old.entries) (numbers places.now) }
    ensures { out.new ≡ record (out.old) {
      entries = assigned
          (targets_at (numbers places.now) (row_at (spacing_view spacing) (numbers places.now) index.now))
          (given_at (numbers places.now) (row_at (spacing_view spacing) (numbers places.now) index.now)
          (map code_of value.now)) out.old.entries;
    } }
{
    match row_start(index, spacing, places.len()) {
        Some(at) => assign_part(places, at, value, out),
        None => assign_unknowns(places, out),
    }
}

/// A value's elements, from the left, to as many of these drivers, from one of them on.
fn assign_part(places: &Indices, at: usize, value: &Vec9, out: &mut Drives)
    requires within { at + length value.now ≤ length (numbers places.now) }
    requires there { All (λ place. place < length out.old.entries) (numbers places.now) }
    ensures { out.new ≡ record (out.old) {
      entries = assigned
          (take (length value.now) (drop at (numbers places.now))) (map code_of value.now) out.old.entries;
    } }
{
    let mut codes = [0; 64];
    let len = value.len();
    let written = &mut codes[..len];
    value.write_codes(written);
    match places {
        Indices::Run { first, len: many } => {
            let _many = *many;
            out.set_span(*first as usize + at, written);
        }
        Indices::List(listed) => assign_each(&listed.as_slice()[at..at + len], written, out),
    }
}

/// X to each of these drivers.
fn assign_unknowns(places: &Indices, out: &mut Drives)
    requires { All (λ place. place < length out.old.entries) (numbers places.now) }
    ensures { out.new ≡ record (out.old) {
      entries = assigned (numbers places.now)
          (replicate (length (numbers places.now)) (code_of X)) out.old.entries;
    } }
{
    for at in 0..places.len() {
        out.set(places.at(at), Nine::X.code());
    }
}

/// A value's elements, from the left, to the row of these elements of variables with the number of
/// an index; X's to all of them where there is no such row.
pub fn set_row(index: &Vec9, spacing: Spacing, elements: &Indices, value: &Vec9, out: &mut Drives)
    requires spacing { IsSpacing (spacing_view spacing) }
    requires as_long { spacing.len ≡ length value.now }
    requires there { All (λ element. element < length out.old.variables) (numbers elements.now) }
    ensures { out.new ≡ record (out.old) {
      variables = values_put
          (targets_at (numbers elements.now) (row_at (spacing_view spacing) (numbers elements.now) index.now))
          (given_at (numbers elements.now) (row_at (spacing_view spacing) (numbers elements.now) index.now)
          (map code_of value.now)) out.old.variables;
    } }
{
    match row_start(index, spacing, elements.len()) {
        Some(at) => set_part(elements, at, value, out),
        None => set_unknowns(elements, out),
    }
}

/// A value's elements, from the left, to as many of these elements, from one of them on.
fn set_part(elements: &Indices, at: usize, value: &Vec9, out: &mut Drives)
    requires within { at + length value.now ≤ length (numbers elements.now) }
    requires there { All (λ element. element < length out.old.variables) (numbers elements.now) }
    ensures { out.new ≡ record (out.old) {
      variables = values_put
          (take (length value.now) (drop at (numbers elements.now))) (map code_of value.now) out.old.variables;
    } }
{
    let _many = elements.len();
    for place in 0..value.len() {
        out.set_variable(elements.at(at + place), value.get(place).code());
    }
}

/// X to each of these elements.
fn set_unknowns(elements: &Indices, out: &mut Drives)
    requires { All (λ element. element < length out.old.variables) (numbers elements.now) }
    ensures { out.new ≡ record (out.old) {
      variables = values_put (numbers elements.now)
          (replicate (length (numbers elements.now)) (code_of X)) out.old.variables;
    } }
{
    for at in 0..elements.len() {
        out.set_variable(elements.at(at), Nine::X.code());
    }
}
