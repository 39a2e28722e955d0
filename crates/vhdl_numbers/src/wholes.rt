//! Whole numbers by their sizes and signs.

ghost use Rattle.std.specs.Prelude.{◌≡◌, ◌-◌, ◌<◌, ◌≤◌, ◌^◌, if◌then◌else◌, IfSome, Option, Some, None, List, length, option_map};
ghost use Rattle.std.specs.Prelude.{◌*◌, ◌*ℤ◌, int_le, int_div, int_rem};
ghost use Rattle.vhdl_values.specs.declared.scalar.Nine.{Nine};
ghost use Rattle.vhdl_values.specs.Numbers.{all_good, number_of};
ghost use Rattle.vhdl_numbers.specs.TwosComplement.{signed_number_of, signed_digits_of};
ghost use Rattle.vhdl_numbers.specs.Operators.{int_mod};
ghost use Rattle.vhdl_numbers.specs.Sizes.{integer_of};

use vhdl_values::Vec9;

/// The last 1 to 64 digits of a whole number.
pub fn digits_of(number: i32, len: usize) -> Vec9
    requires some { 1 ≤ len }
    requires room { len ≤ 64 }
    ensures list { result ≡ signed_digits_of len number }
    ensures len { length result ≡ len }
{
    Whole::from_i32(number).digits(len)
}

/// The number of a vector, if each value stands for a digit.
pub fn signed_number(vector: &Vec9) -> Option<i128>
    ensures { result ≡ (if all_good vector.now then Some (signed_number_of vector.now) else None) }
{
    let whole = Whole::of(vector)?;
    let size = i128::from(whole.size);
    Some(if whole.negative { -size } else { size })
}

/// A whole number. Zero may have either sign.
#[derive(Clone, Copy)]
pub(crate) struct Whole {
    pub(crate) negative: bool,
    pub(crate) size: u64,
}

impl Whole {
    /// The number of a vector, if each value stands for a digit.
    pub(crate) fn of(vector: &Vec9) -> Option<Whole>
        ensures number { option_map integer_of result
            ≡ (if all_good vector.now then Some (signed_number_of vector.now) else None) }
        ensures size { IfSome result (λ whole. whole.size ≤ 2 ^ (length vector.now - 1)) }
    {
        match vector.number() {
            Some(number) => Some(Whole::in_digits(number, vector.len())),
            None => None,
        }
    }

    /// The number of a vector with so many digits, of which they are the number without a sign.
    fn in_digits(number: u64, len: usize) -> Whole
        requires some { 1 ≤ len }
        requires room { len ≤ 64 }
        requires digits { number < 2 ^ len }
        ensures number { (digits : List Nine) → length digits ≡ len → number_of digits ≡ number
            → integer_of result ≡ signed_number_of digits }
        ensures size { result.size ≤ 2 ^ (len - 1) }
    {
        let half = 1 << (len - 1);
        if number < half {
            Whole {
                negative: false,
                size: number,
            }
        } else {
            Whole {
                negative: true,
                size: half - (number - half),
            }
        }
    }

    /// The number itself.
    pub(crate) fn from_i32(number: i32) -> Whole
        ensures { integer_of result ≡ number }
    {
        Whole {
            negative: number < 0,
            size: u64::from(number.unsigned_abs()),
        }
    }

    /// The last 1 to 64 digits of the number.
    pub(crate) fn digits(self, len: usize) -> Vec9
        requires some { 1 ≤ len }
        requires room { len ≤ 64 }
        ensures list { result ≡ signed_digits_of len (integer_of self) }
        ensures len { length result ≡ len }
    {
        if self.negative {
            Vec9::of_nat(0_u64.wrapping_sub(self.size), len)
        } else {
            Vec9::of_nat(self.size, len)
        }
    }

    /// Whether the number is at most another.
    pub(crate) fn is_at_most(self, other: Whole) -> bool
        ensures { result ≡ int_le (integer_of self) (integer_of other) }
    {
        match (self.negative, other.negative) {
            (true, false) => true,
            (false, true) => self.size == 0 && other.size == 0,
            (false, false) => self.size <= other.size,
            (true, true) => other.size <= self.size,
        }
    }

    /// The product, where it has room.
    pub(crate) fn times(self, other: Whole) -> Whole
        requires { self.size * other.size < 2 ^ 64 }
        ensures { integer_of result ≡ integer_of self *ℤ integer_of other }
    {
        Whole {
            negative: self.negative != other.negative,
            size: self.size * other.size,
        }
    }

    /// The quotient, rounded toward 0.
    pub(crate) fn over(self, divisor: Whole) -> Whole
        requires { 0 < divisor.size }
        ensures { integer_of result ≡ int_div (integer_of self) (integer_of divisor) }
    {
        Whole {
            negative: self.negative != divisor.negative,
            size: self.size / divisor.size,
        }
    }

    /// What the quotient leaves: `rem`.
    pub(crate) fn rest(self, divisor: Whole) -> Whole
        requires { 0 < divisor.size }
        ensures { integer_of result ≡ int_rem (integer_of self) (integer_of divisor) }
    {
        Whole {
            negative: self.negative,
            size: self.size % divisor.size,
        }
    }

    /// The same with the divisor's sign: `mod`.
    pub(crate) fn modulo(self, divisor: Whole) -> Whole
        requires { 0 < divisor.size }
        ensures { integer_of result ≡ int_mod (integer_of self) (integer_of divisor) }
    {
        let rest = self.size % divisor.size;
        if self.negative == divisor.negative {
            Whole {
                negative: divisor.negative,
                size: rest,
            }
        } else {
            Whole {
                negative: divisor.negative,
                size: (divisor.size - rest) % divisor.size,
            }
        }
    }
}
