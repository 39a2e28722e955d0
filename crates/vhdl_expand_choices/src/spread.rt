//! The numbers of choices, counted and each as digits.

ghost use Rattle.std.specs.Prelude.{◌≡◌, ◌+◌, ◌-◌, ◌^◌, ◌++◌, min, map, IfOk};
ghost use Rattle.rtl_net.specs.Bodies.{choice_view};
ghost use Rattle.vhdl_expand_rules.specs.Statements as definition;
ghost use Rattle.vhdl_expand_numbers.specs.Views.{limits_view};
ghost use Rattle.vhdl_expand_choices.specs.Views.{digits, spanned_view};

use crate::limits::{count_in, held};
use crate::spans::Spanned;
use rtl_net::Choice;
use std::alloc::AllocError;
use vhdl_expand_numbers::Limits;
use vhdl_expand_operands::Width;
use vhdl_numbers::digits_of;

/// How many of the numbers of choices are among all, or the most that a word holds.
pub(crate) fn numbers_count(all: Limits, spans: &[Spanned]) -> usize
    ensures { result ≡ min (2 ^ 64 - 1) (definition.numbers_count (limits_view all) (map spanned_view spans.now)) }
{
    let mut count = 0_usize;
    for span in spans {
        count = count.saturating_add(count_in(all, span.limits) as usize);
    }
    count
}

/// Puts the digits of those that are among all behind those of others. It takes the memory of the
/// list.
pub(crate) fn add_digits(
    all: Limits,
    len: Width,
    numbers: Limits,
    codes: &mut Vec<Choice>,
) -> Result<(), AllocError>
    ensures { IfOk result (λ _. map choice_view codes.new.items ≡ map choice_view codes.old.items
        ++ map (digits len.len) (definition.numbers_in (limits_view all) (limits_view numbers))) }
{
    let first = i64::from(held(all, numbers.least));
    for turn in 0..count_in(all, numbers) {
        let number = first + turn as i64;
        codes.push(Choice::Elements(digits_of(number as i32, len.len)))?;
    }
    Ok(())
}
