//! Parts of texts that are made before they are written.

ghost use Rattle.std.specs.Prelude.{◌≡◌, ◌++◌, decimal, OnOk};
ghost use Rattle.fault_rules.specs.Rules.{words_of};
ghost use Rattle.rtlsim_listing.specs.CheckText.{title_text};

use fault_rules::Rule;
use itoa::Buffer;
use rtl_net::NoMemory;

/// Appends a number in decimal digits.
pub fn push_decimal(number: usize, text: &mut Vec<u8>) -> Result<(), NoMemory>
    ensures { OnOk result (text.new.items ≡ text.old.items ++ decimal number) }
{
    let mut buffer = Buffer::new();
    text.extend_from_slice(buffer.format(number).as_bytes())?;
    Ok(())
}

/// Appends the layer, the number and the name of a rule, `fault 7 Latch`.
pub fn push_title(rule: Rule, text: &mut Vec<u8>) -> Result<(), NoMemory>
    ensures { OnOk result (text.new.items ≡ text.old.items ++ title_text (words_of rule)) }
{
    let words = rule.words();
    text.extend_from_slice(words.layer.as_bytes())?;
    text.extend_from_slice(b" ")?;
    push_decimal(usize::from(words.number), text)?;
    text.extend_from_slice(b" ")?;
    text.extend_from_slice(words.name.as_bytes())?;
    Ok(())
}
