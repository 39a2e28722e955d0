//! What may be the same text as another, token for token apart from case (IEEE 1076-2008, 4.10).

ghost use Rattle.std.specs.Prelude.{◌≡◌, Bool};
ghost use Rattle.vhdl_names_rules.specs.SameText.{same_option, same_each};

/// A part of an interface.
pub trait Alike {
    ghost alike: { Self → Self → Bool };

    /// Whether this is the same text as another.
    fn is_like(&self, other: &Self) -> bool
        ensures { result ≡ alike self.now other.now };
}

impl<T: Alike> Alike for Option<T> {
    ghost alike = { same_option T.alike };

    fn is_like(&self, other: &Option<T>) -> bool {
        match (self, other) {
            (None, None) => true,
            (Some(a), Some(b)) => a.is_like(b),
            _ => false,
        }
    }
}

impl<T: Alike> Alike for Vec<T> {
    ghost alike = { λ a b. same_each T.alike a.items b.items };

    fn is_like(&self, other: &Vec<T>) -> bool {
        if self.len() != other.len() {
            return false;
        }
        for (place, one) in self.iter().enumerate() {
            if !one.is_like(&other[place]) {
                return false;
            }
        }
        true
    }
}
