//! Bytes of a source as words.

ghost use Rattle.std.specs.Prelude.{◌≡◌};
ghost use Rattle.vhdl_expand_rules.specs.Bytes.{kept};

/// A byte of the source as a word; those beyond it are all the last.
pub fn byte(at: usize) -> u32
    ensures { result ≡ kept at }
{
    match u32::try_from(at) {
        Ok(at) => at,
        Err(_) => u32::MAX,
    }
}
