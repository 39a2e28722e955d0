//! What a word wants of an integer's digits, and of a boolean.

ghost use Rattle.std.specs.Prelude.{◌≡◌, ◌≤◌, length, option_map, IfOk};
ghost use Rattle.rtl_expect.specs.Expected as spec;

use crate::expected::Wanted;
use crate::value::{Found, is_any};
use rtl_stim_lines::{integer_for, truth_for};
use std::alloc::{AllocError, Global};
use vhdl_numbers::digits_of;
use vhdl_values::{Nine, Vec9};

/// What a word wants of an integer within these bounds: a number in base 10, `x` that it is none,
/// `-` or `?` any.
pub(crate) fn integer_wanted(
    alloc: Global,
    least: i32,
    greatest: i32,
    nets: &[usize],
    text: &[u8],
) -> Found
    requires some { 1 ≤ length nets.now }
    requires few { length nets.now ≤ 64 }
    ensures { IfOk result (λ found. option_map (λ v. v.items) found
        ≡ spec.integer_wanted least greatest nets.now text.now) }
{
    if is_any(text) {
        return Ok(Some(any_wanted(alloc, nets)?));
    }
    if text.eq_ignore_ascii_case(b"x") {
        return Ok(Some(no_number_wanted(alloc, nets)?));
    }
    let Some(number) = integer_for(least, greatest, text) else {
        return Ok(None);
    };
    let digits = digits_of(number, nets.len());
    Ok(Some(values_wanted(alloc, nets, &digits)?))
}

/// What a word wants of a boolean: `true`, `false`, or `-` or `?` any.
pub(crate) fn truth_wanted(alloc: Global, nets: &[usize], text: &[u8]) -> Found
    ensures { IfOk result (λ found. option_map (λ v. v.items) found ≡ spec.truth_wanted nets.now text.now) }
{
    if is_any(text) {
        return Ok(Some(any_wanted(alloc, nets)?));
    }
    let Some(truth) = truth_for(text) else {
        return Ok(None);
    };
    let value = Vec9::fill(Nine::of_truth(truth), 1);
    Ok(Some(values_wanted(alloc, nets, &value)?))
}

/// Any value of each net.
fn any_wanted(alloc: Global, nets: &[usize]) -> Result<Vec<Wanted>, AllocError>
    ensures { IfOk result (λ wanted. wanted.items ≡ spec.any_wanted nets.now) }
{
    let mut wanted = Vec::with_capacity(alloc, nets.len())?;
    for net in nets {
        wanted.push(Wanted {
            net: *net,
            code: None,
        })?;
    }
    Ok(wanted)
}

/// X as the last digit, and any value before it.
fn no_number_wanted(alloc: Global, nets: &[usize]) -> Result<Vec<Wanted>, AllocError>
    requires { 1 ≤ length nets.now }
    ensures { IfOk result (λ wanted. wanted.items ≡ spec.no_number_wanted nets.now) }
{
    let last = nets.len() - 1;
    let mut wanted = any_wanted(alloc, &nets[..last])?;
    wanted.push(Wanted {
        net: nets[last],
        code: Some(u64::from(Nine::X.code())),
    })?;
    Ok(wanted)
}

/// The value at its place of each net, as far as there are such.
fn values_wanted(alloc: Global, nets: &[usize], values: &Vec9) -> Result<Vec<Wanted>, AllocError>
    ensures { IfOk result (λ wanted. wanted.items ≡ spec.values_wanted nets.now values.now) }
{
    let count = nets.len().min(values.len());
    let mut wanted = Vec::with_capacity(alloc, count)?;
    for place in 0..count {
        let code = Some(u64::from(values.get(place).code()));
        wanted.push(Wanted {
            net: nets[place],
            code,
        })?;
    }
    Ok(wanted)
}
