//! The characters of a line.
ghost use Rattle.std.specs.Prelude.{◌≡◌, ◌≤◌, ◌==◌, length};
ghost use Rattle.std.specs.List.{list_all, position_or_len};
ghost use Rattle.guest_asm.specs.Characters as spec;

/// How many characters a name has at most, behind its first.
const LONGEST_REST: usize = 30;

/// Whether a byte is a tab, or a character from the space to the tilde.
fn is_visible(byte: u8) -> bool
    ensures { result ≡ spec.is_visible byte }
{
    byte == b'\t' || (32 <= byte && byte <= 126)
}

/// Whether each byte of a line is one that a line may have.
pub fn are_visible(line: &[u8]) -> bool
    ensures { result ≡ list_all spec.is_visible line.now }
{
    line.iter().all(|byte| is_visible(*byte))
}

/// How many bytes stand before the first that is this one, or in all where none is.
pub fn place_of(byte: u8, text: &[u8]) -> usize
    ensures value { result ≡ position_or_len (λ other. other == byte) text.now }
    ensures within { result ≤ length text.now }
{
    text.iter()
        .position(|other| *other == byte)
        .unwrap_or(text.len())
}

/// A text without the blanks at its ends.
pub fn trimmed(text: &[u8]) -> &[u8]
    ensures { result.now ≡ spec.trimmed text.now }
{
    text.trim_ascii()
}

fn is_name_start(byte: u8) -> bool
    ensures { result ≡ spec.is_name_start byte }
{
    byte.is_ascii_alphabetic() || byte == b'_'
}

fn is_name_part(byte: u8) -> bool
    ensures { result ≡ spec.is_name_part byte }
{
    byte.is_ascii_alphanumeric() || byte == b'_'
}

fn are_name_parts(text: &[u8]) -> bool
    ensures { result ≡ list_all spec.is_name_part text.now }
{
    text.iter().all(|byte| is_name_part(*byte))
}

/// Whether a text is a name: a letter or an underscore, and at most 30 letters, digits and underscores.
pub fn is_name(text: &[u8]) -> bool
    ensures { result ≡ spec.is_name text.now }
{
    match text {
        [first, rest @ ..] => {
            is_name_start(*first) && are_name_parts(rest) && rest.len() <= LONGEST_REST
        }
        [] => false,
    }
}

fn is_word_start(byte: u8) -> bool
    ensures { result ≡ spec.is_word_start byte }
{
    is_name_start(byte) || byte == b'.'
}

fn is_word_part(byte: u8) -> bool
    ensures { result ≡ spec.is_word_part byte }
{
    is_name_part(byte) || byte == b'.'
}

fn are_word_parts(text: &[u8]) -> bool
    ensures { result ≡ list_all spec.is_word_part text.now }
{
    text.iter().all(|byte| is_word_part(*byte))
}

/// Whether a text may stand where a mnemonic stands: as a name, also with points, and of any length.
pub fn is_word(text: &[u8]) -> bool
    ensures { result ≡ spec.is_word text.now }
{
    match text {
        [first, rest @ ..] => is_word_start(*first) && are_word_parts(rest),
        [] => false,
    }
}
