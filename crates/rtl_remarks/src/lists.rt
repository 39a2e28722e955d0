//! Lists of numbers.

ghost use Rattle.std.specs.Prelude.{◌≡◌, ◌&&◌, ◌||◌, ℕ, IfOk};
ghost use Rattle.std.specs.List.{filter};
ghost use Rattle.std.specs.List.Sorted.{IsStrictlyIncreasing};
ghost use Rattle.rtl_body_facts.specs.Reading.{is_in};
ghost use Rattle.rtl_remarks.specs.Undefined.{is_same};

use rtl_body_facts::contains_rising;
use rtl_net::NoMemory;
use std::alloc::Global;

/// Whether a number is among others, or isn't, as is asked.
pub fn is_chosen(others: &[usize], number: usize, among: bool) -> bool
    requires { IsStrictlyIncreasing others.now }
    ensures { result ≡ is_same among (is_in number others.now) }
{
    if among {
        return contains_rising(others, number);
    }
    !contains_rising(others, number)
}

/// Those of some numbers that are among others, or that aren't.
pub(crate) fn chosen(
    alloc: Global,
    from: &[usize],
    others: &[usize],
    among: bool,
) -> Result<Vec<usize>, NoMemory>
    requires { IsStrictlyIncreasing others.now }
    ensures { IfOk result (λ left. left.items ≡ filter (λ n. is_same among (is_in n others.now)) from.now) }
{
    from.iter()
        .copied()
        .filter(|number| is_chosen(others, *number, among))
        .collect(alloc)
}

/// Numbers with others behind them, if so; else none.
pub(crate) fn joined_if(
    alloc: Global,
    so: bool,
    left: Vec<usize>,
    right: &[usize],
) -> Result<Vec<usize>, NoMemory>
    ensures { IfOk result (λ all. (n : ℕ) → is_in n all.items ≡ (so && (is_in n left.items || is_in n right.now))) }
{
    if !so {
        return Ok(Vec::new(alloc));
    }
    let mut all = left;
    all.extend_from_slice(right)?;
    Ok(all)
}
