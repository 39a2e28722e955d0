//! Words that are nearly the same.

ghost use Rattle.std.specs.Prelude.{◌≡◌, drop};
ghost use Rattle.vhdl_parser_rules.specs.Near as spec;

/// From this length on a word may differ by two slips.
pub(crate) const LONG: usize = 6;

/// Whether a text is nearly the same as a word.
#[tactic(auto, unfolding(crate::specs::Near::is_near))]
pub fn is_near(text: &[u8], word: &[u8]) -> bool
    ensures { result ≡ spec.is_near text.now word.now }
{
    let (text, left) = rests(text, word);
    if word.len() >= LONG {
        is_two_off(text, left)
    } else {
        is_one_off(text, left)
    }
}

/// What is left of a text and of a word behind their common beginning.
fn rests<'a>(mut text: &'a [u8], mut word: &'a [u8]) -> (&'a [u8], &'a [u8])
    ensures { (result.0.now, result.1.now) ≡ spec.rests text.entry.now word.entry.now }
{
    while let [first, rest @ ..] = text {
        let [letter, letters @ ..] = word else {
            return (text, word);
        };
        if !is_same_letter(*first, *letter) {
            return (text, word);
        }
        text = rest;
        word = letters;
    }
    (text, word)
}

fn is_same_letter(first: u8, second: u8) -> bool
    ensures { result ≡ spec.is_same_letter first second }
{
    first.to_ascii_lowercase() == second.to_ascii_lowercase()
}

/// Whether what is left of the two begins with one slip, and is the same behind it.
fn is_one_off(text: &[u8], word: &[u8]) -> bool
    ensures { result ≡ spec.is_one_off text.now word.now }
{
    is_alike(text, 1, word, 0)
        || is_alike(text, 0, word, 1)
        || is_alike(text, 1, word, 1)
        || is_exchanged(text, word) && is_alike(text, 2, word, 2)
}

/// Whether it begins with one of two slips.
fn is_two_off(text: &[u8], word: &[u8]) -> bool
    ensures { result ≡ spec.is_two_off text.now word.now }
{
    is_once_more(text, 1, word, 0)
        || is_once_more(text, 0, word, 1)
        || is_once_more(text, 1, word, 1)
        || is_exchanged(text, word) && is_once_more(text, 2, word, 2)
}

/// Whether behind so many letters of each there is one slip more.
fn is_once_more(text: &[u8], skipped: usize, word: &[u8], left_out: usize) -> bool
    ensures { result ≡ spec.is_once_more skipped left_out text.now word.now }
{
    let (text, word) = rests(behind(text, skipped), behind(word, left_out));
    is_one_off(text, word)
}

/// Whether the first two letters are exchanged.
fn is_exchanged(text: &[u8], word: &[u8]) -> bool
    ensures { result ≡ spec.is_exchanged text.now word.now }
{
    match (text, word) {
        ([a, b, ..], [c, d, ..]) => is_same_letter(*a, *d) && is_same_letter(*b, *c),
        _ => false,
    }
}

/// Whether a text behind so many letters is the same as a word behind so many.
fn is_alike(text: &[u8], skipped: usize, word: &[u8], left_out: usize) -> bool
    ensures { result ≡ spec.is_alike skipped left_out text.now word.now }
{
    behind(text, skipped).eq_ignore_ascii_case(behind(word, left_out))
}

/// What stands behind so many.
pub fn behind<T>(items: &[T], count: usize) -> &[T]
    ensures { result.now ≡ drop count items.now }
{
    if count <= items.len() {
        &items[count..]
    } else {
        &[]
    }
}
