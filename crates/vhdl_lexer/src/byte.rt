//! What each byte of a source is (IEEE 1076-2008, 15.2).

ghost use Rattle.std.specs.Prelude.{◌≡◌};
ghost use Rattle.vhdl_lexer.specs.Bytes as spec;

/// The bytes that may stand in a word, or in a number of some base, beside underscores.
#[derive(Clone, Copy)]
pub enum ByteClass {
    /// What a word has.
    LetterOrDigit,
    /// Digits of base 10.
    Decimal,
    /// Digits of base 16, capital and small letters among them.
    Hexadecimal,
    /// Digits of base 8.
    Octal,
    /// 0 and 1.
    Binary,
}

impl ByteClass {
    /// Whether the byte is of this class.
    pub fn has(self, b: u8) -> bool
        ensures { result ≡ spec.has_class self b }
    {
        match self {
            ByteClass::LetterOrDigit => b.is_ascii_alphanumeric(),
            ByteClass::Decimal => b.is_ascii_digit(),
            ByteClass::Hexadecimal => b.is_ascii_hexdigit(),
            ByteClass::Octal => matches!(b, b'0'..=b'7'),
            ByteClass::Binary => matches!(b, b'0'..=b'1'),
        }
    }
}

/// LF, VT, FF or CR.
pub fn ends_line(b: u8) -> bool
    ensures { result ≡ spec.ends_line b }
{
    matches!(b, b'\n'..=b'\r')
}

/// A space, a tab or the end of a line.
pub fn is_separator(b: u8) -> bool
    ensures { result ≡ spec.is_separator b }
{
    b == b' ' || b == b'\t' || ends_line(b)
}

/// A byte of 32 to 126.
pub fn is_printable(b: u8) -> bool
    ensures { result ≡ spec.is_printable b }
{
    matches!(b, b' '..=b'~')
}

/// A letter, a digit or an underscore.
pub fn is_word_byte(b: u8) -> bool
    ensures { result ≡ spec.is_word_byte b }
{
    b.is_ascii_alphanumeric() || b == b'_'
}

/// A letter or an underscore.
pub fn begins_word(b: u8) -> bool
    ensures { result ≡ spec.begins_word b }
{
    b.is_ascii_alphabetic() || b == b'_'
}

/// Whether the text begins with this byte.
pub fn begins(b: u8, text: &[u8]) -> bool
    ensures { result ≡ spec.begins b text.now }
{
    match text.first() {
        None => false,
        Some(c) => *c == b,
    }
}
