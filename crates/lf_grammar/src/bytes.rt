//! What the bytes of a text are.

ghost use Rattle.std.specs.Prelude.{◌≡◌};
ghost use Rattle.std.specs.List.{prefix_len};
ghost use Rattle.lf_grammar.specs.Bytes.{is_blank, is_digit, is_letter, is_of_word, has};

/// A class of bytes.
#[derive(Clone, Copy, Debug, PartialEq, Eq)]
pub(crate) enum Class {
    /// Digits.
    Digit,
    /// What a word goes on with: letters, digits and `_`.
    OfWord,
}

impl Class {
    /// Whether a byte is of the class.
    fn has(self, byte: u8) -> bool
        ensures { result ≡ has self byte }
    {
        match self {
            Class::Digit => is_digit(byte),
            Class::OfWord => is_of_word(byte),
        }
    }

    /// How many bytes of the class come first.
    pub(crate) fn leading(self, bytes: &[u8]) -> usize
        ensures { result ≡ prefix_len (has self) bytes.now }
    {
        for (i, byte) in bytes.iter().enumerate() {
            if !self.has(*byte) {
                return i;
            }
        }
        bytes.len()
    }
}

/// Whether a byte is a blank.
pub(crate) fn is_blank(byte: u8) -> bool
    ensures { result ≡ is_blank byte }
{
    byte == b' ' || byte == b'\t' || byte == b'\n' || byte == b'\r'
}

/// Whether a byte is a digit.
pub(crate) fn is_digit(byte: u8) -> bool
    ensures { result ≡ is_digit byte }
{
    byte.is_ascii_digit()
}

/// Whether a byte begins a word.
pub(crate) fn is_letter(byte: u8) -> bool
    ensures { result ≡ is_letter byte }
{
    byte.is_ascii_alphabetic() || byte == b'_'
}

/// Whether a byte goes on with a word.
fn is_of_word(byte: u8) -> bool
    ensures { result ≡ is_of_word byte }
{
    is_letter(byte) || is_digit(byte)
}
