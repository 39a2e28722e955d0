//! Between which bounds a number lies.

ghost use Rattle.std.specs.Prelude.{◌≡◌, ◌≤◌, ℕ, true, if◌then◌else◌, pos};
ghost use Rattle.vhdl_expand_rules.specs.Computed as definition;
ghost use Rattle.vhdl_expand_rules.specs.Kinds.{range_span};
ghost use Rattle.vhdl_expand_rules.specs.views.Integers.{range_view};
ghost use Rattle.vhdl_expand_numbers.specs.Views.{limits_view, span_view};

use vhdl_expand_rules::IntegerRange;

/// A least and a greatest number.
#[derive(Clone, Copy)]
pub struct Span {
    pub least: i64,
    pub greatest: i64,
}

/// Between which numbers an integer has to lie.
#[derive(Clone, Copy)]
pub struct Limits {
    pub least: i32,
    pub greatest: i32,
}

/// Of all integers, and of the natural ones (IEEE 1076-2008, 5.2.3.2, 16.3).
pub const INTEGERS: Limits = Limits {
    least: i32::MIN,
    greatest: i32::MAX,
};

pub const NATURALS: Limits = Limits {
    least: 0,
    greatest: i32::MAX,
};

impl Limits {
    /// Those of a range that has a number.
    pub fn of_range(range: IntegerRange) -> Limits
        ensures { limits_view result ≡ range_span (range_view range) }
    {
        Limits {
            least: range.lower(),
            greatest: range.upper(),
        }
    }

    /// As bounds of numbers.
    pub fn span(self) -> Span
        ensures { span_view result ≡ limits_view self }
    {
        Span {
            least: i64::from(self.least),
            greatest: i64::from(self.greatest),
        }
    }
}

/// How many digits hold a number in two's complement, one at least.
fn digits(number: i64) -> usize
    ensures enough { definition.hold result number ≡ true }
    ensures fewest { (n : ℕ) → 1 ≤ n → definition.hold n number ≡ true → result ≤ n }
    ensures some { 1 ≤ result }
    ensures few { result ≤ 64 }
{
    let size = number.unsigned_abs() - u64::from(number < 0);
    65 - size.leading_zeros() as usize
}

impl Span {
    /// The fewest digits that hold each number between the bounds.
    pub fn digits(self) -> usize
        ensures given { result ≡ definition.digits_needed (span_view self) }
        ensures some { 1 ≤ result }
        ensures few { result ≤ 64 }
    {
        digits(self.least).max(digits(self.greatest))
    }

    /// Whether a number lies between the bounds.
    fn has(self, number: i64) -> bool
        ensures { result ≡ definition.has (span_view self) number }
    {
        self.least <= number && number <= self.greatest
    }

    /// Whether other bounds lie between these.
    pub fn covers(self, other: Span) -> bool
        ensures { result ≡ definition.covers (span_view self) (span_view other) }
    {
        self.has(other.least) && self.has(other.greatest)
    }

    /// The nearest number between these bounds.
    fn held(self, number: i64) -> i64
        ensures { result ≡ definition.held_in (span_view self) number }
    {
        number.min(self.greatest).max(self.least)
    }

    /// What of other bounds lies between these.
    pub fn cut(self, other: Span) -> Span
        ensures { span_view result ≡ definition.cut_to (span_view self) (span_view other) }
    {
        Span {
            least: self.held(other.least),
            greatest: self.held(other.greatest),
        }
    }

    /// How far from 0 a number between the bounds may lie.
    #[tactic(auto, unfolding(vhdl_expand_rules::specs::Computed::reach))]
    pub fn reach(self) -> i64
        requires small { definition.covers definition.integers (span_view self) ≡ true }
        ensures { result ≡ definition.reach (span_view self) }
    {
        self.least.abs().max(self.greatest.abs())
    }
}

/// The bounds of a sum of numbers between these bounds.
#[tactic(auto, unfolding(vhdl_expand_rules::specs::Computed::sum_span))]
pub fn sum(left: Span, right: Span) -> Span
    requires left { definition.covers definition.integers (span_view left) ≡ true }
    requires right { definition.covers definition.integers (span_view right) ≡ true }
    ensures { span_view result ≡ definition.sum_span (span_view left) (span_view right) }
{
    Span {
        least: left.least + right.least,
        greatest: left.greatest + right.greatest,
    }
}

/// Of a difference.
#[tactic(auto, unfolding(vhdl_expand_rules::specs::Computed::difference_span))]
pub fn difference(left: Span, right: Span) -> Span
    requires left { definition.covers definition.integers (span_view left) ≡ true }
    requires right { definition.covers definition.integers (span_view right) ≡ true }
    ensures { span_view result ≡ definition.difference_span (span_view left) (span_view right) }
{
    Span {
        least: left.least - right.greatest,
        greatest: left.greatest - right.least,
    }
}

/// Of a product.
#[tactic(auto, unfolding(vhdl_expand_rules::specs::Computed::product_span))]
pub fn product(left: Span, right: Span) -> Span
    requires left { definition.covers definition.integers (span_view left) ≡ true }
    requires right { definition.covers definition.integers (span_view right) ≡ true }
    ensures { span_view result ≡ definition.product_span (span_view left) (span_view right) }
{
    let (a, b) = (left.least * right.least, left.least * right.greatest);
    let (c, d) = (left.greatest * right.least, left.greatest * right.greatest);
    Span {
        least: a.min(b).min(c.min(d)),
        greatest: a.max(b).max(c.max(d)),
    }
}

/// Of a quotient, which is rounded toward 0.
#[tactic(auto, unfolding(vhdl_expand_rules::specs::Computed::quotient_span))]
pub fn quotient(left: Span, right: Span) -> Span
    requires left { definition.covers definition.integers (span_view left) ≡ true }
    requires right { definition.covers definition.integers (span_view right) ≡ true }
    ensures { span_view result ≡ definition.quotient_span (span_view left) (span_view right) }
{
    if right.least < 0 {
        let reach = left.reach();
        return Span {
            least: -reach,
            greatest: reach,
        };
    }
    let divisor = right.least.max(1);
    Span {
        least: (left.least / divisor).min(0),
        greatest: (left.greatest / divisor).max(0),
    }
}

/// Of what `mod` leaves, by the divisor's bounds.
#[tactic(auto, unfolding(vhdl_expand_rules::specs::Computed::modulus_span))]
pub fn modulus(divisor: Span) -> Span
    requires { definition.covers definition.integers (span_view divisor) ≡ true }
    ensures { span_view result ≡ definition.modulus_span (span_view divisor) }
{
    Span {
        least: (divisor.least + 1).min(0),
        greatest: (divisor.greatest - 1).max(0),
    }
}

/// The bound of what is left of some numbers, if there are any; else it is 0.
fn left_of(any: bool, bound: i64) -> i64
    ensures { result ≡ if any then bound else pos 0 }
{
    if any { bound } else { 0 }
}

/// Of what `rem` leaves.
#[tactic(auto, unfolding(vhdl_expand_rules::specs::Computed::remainder_span))]
pub fn remainder(left: Span, divisor: Span) -> Span
    requires left { definition.covers definition.integers (span_view left) ≡ true }
    requires right { definition.covers definition.integers (span_view divisor) ≡ true }
    ensures { span_view result ≡ definition.remainder_span (span_view left) (span_view divisor) }
{
    let most = (divisor.reach() - 1).max(0);
    Span {
        least: left_of(left.least < 0, -most),
        greatest: left_of(left.greatest > 0, most),
    }
}

/// Of a number without its sign.
#[tactic(auto, unfolding(vhdl_expand_rules::specs::Computed::magnitude_span))]
pub fn magnitude(operand: Span) -> Span
    requires { definition.covers definition.integers (span_view operand) ≡ true }
    ensures { span_view result ≡ definition.magnitude_span (span_view operand) }
{
    Span {
        least: operand.least.max(-operand.greatest).max(0),
        greatest: operand.reach(),
    }
}
