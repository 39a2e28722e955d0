//! How names are alike.

ghost use Rattle.std.specs.Prelude.{◌≡◌, ◌≤◌, length, reverse};
ghost use Rattle.rtl_signal_names.specs.Names as spelled;
ghost use Rattle.rtlsim_nearest.specs.Likeness as spec;
ghost use Rattle.vhdl_parser_rules.specs.Near as near;

/// In which way a name is like a full name.
#[derive(Clone, Copy)]
pub(crate) enum Way {
    /// A letter differs, is missing, or is one too many.
    OneLetter,
    /// Two letters that stand side by side differ.
    TwoLetters,
    /// The top's name stands before the full name.
    BehindTop,
    /// Labels are missing before the name.
    Unlabelled,
}

/// Whether a name is like a full name in this way.
pub(crate) fn is_like(way: Way, top: &[u8], name: &[u8], full: &[u8]) -> bool
    ensures { result ≡ spec.is_like way top.now name.now full.now }
{
    match way {
        Way::OneLetter => differs_by(1, name, full),
        Way::TwoLetters => differs_by(2, name, full),
        Way::BehindTop => is_behind_top(top, name, full),
        Way::Unlabelled => stands_last(name, full),
    }
}

/// Whether names differ by so many letters in one place, fewer than half of the first.
fn differs_by(count: usize, name: &[u8], other: &[u8]) -> bool
    requires { count ≤ 2 }
    ensures { result ≡ spec.differs_by count name.now other.now }
{
    between(name, other) == count && 2 * count < name.len()
}

/// How many letters of the longer name stand between those that both begin with and those that both
/// end with.
fn between(name: &[u8], other: &[u8]) -> usize
    ensures { result ≡ spec.between name.now other.now }
{
    let shorter = name.len().min(other.len());
    let longer = name.len().max(other.len());
    let first = shared(name, other);
    let last = shared_last(name, other);
    if last <= shorter - first {
        longer - (first + last)
    } else {
        longer - shorter
    }
}

/// How many letters both begin with.
fn shared(mut name: &[u8], mut other: &[u8]) -> usize
    ensures value { result ≡ spec.shared name.entry.now other.entry.now }
    ensures few { result ≤ length name.entry.now }
    ensures within { result ≤ length other.entry.now }
{
    let mut count = 0;
    while let [first, rest @ ..] = name {
        let [letter, letters @ ..] = other else {
            return count;
        };
        if !is_same_letter(*first, *letter) {
            return count;
        }
        count += 1;
        name = rest;
        other = letters;
    }
    count
}

/// How many letters both end with.
fn shared_last(name: &[u8], other: &[u8]) -> usize
    ensures { result ≡ spec.shared (reverse name.now) (reverse other.now) }
{
    let shorter = name.len().min(other.len());
    let mut count = 0;
    while count < shorter {
        let letter = name[name.len() - 1 - count];
        if !is_same_letter(letter, other[other.len() - 1 - count]) {
            return count;
        }
        count += 1;
    }
    count
}

fn is_same_letter(first: u8, second: u8) -> bool
    ensures { result ≡ near.is_same_letter first second }
{
    first.to_ascii_lowercase() == second.to_ascii_lowercase()
}

/// Whether a name ends in a dot and another one.
fn stands_last(other: &[u8], name: &[u8]) -> bool
    ensures { result ≡ spec.stands_last other.now name.now }
{
    if name.len() <= other.len() {
        return false;
    }
    let start = name.len() - other.len();
    let (_front, back) = name.split_at(start);
    name[start - 1] == b'.' && are_alike(other, back)
}

/// Whether a name is the top's, a dot and another one.
fn is_behind_top(top: &[u8], name: &[u8], other: &[u8]) -> bool
    ensures { result ≡ spec.is_behind_top top.now name.now other.now }
{
    if name.len() <= other.len() {
        return false;
    }
    let (front, _back) = name.split_at(name.len() - other.len() - 1);
    stands_last(other, name) && are_alike(top, front)
}

/// Whether two names are the same, in letters of either case.
fn are_alike(name: &[u8], other: &[u8]) -> bool
    ensures { result ≡ spelled.are_alike name.now other.now }
{
    name.eq_ignore_ascii_case(other)
}
