// Names: which bytes begin one and go on in one, how long one is, and whether two are the same.
ghost use Rattle.std.specs.Prelude.{◌≡◌, ◌≤◌, length};
ghost use Rattle.std.specs.List.{prefix_len};
ghost use Rattle.std.specs.Str.{bytes_eq};
ghost use Rattle.vocabulary.specs.Names.{is_letter, is_name_start, is_name_byte, is_short_name, name_size};

use super::limits::MOST_NAME_BYTES;

fn is_letter(byte: u8) -> bool
    ensures answer { result ≡ is_letter byte }
{
    byte.is_ascii_alphabetic()
}

pub fn is_name_start(byte: u8) -> bool
    ensures answer { result ≡ is_name_start byte }
{
    matches!(byte, b'a'..=b'z' | b'A'..=b'Z' | b'_' | b':')
}

pub fn is_name_byte(byte: u8) -> bool
    ensures answer { result ≡ is_name_byte byte }
{
    is_letter(byte) || matches!(byte, b'0'..=b'9' | b'-' | b'.' | b':' | b'_')
}

// How many bytes at the front go on in a name.
fn inner_len(rest: &[u8]) -> usize
    ensures answer { result ≡ prefix_len is_name_byte rest.now }
    ensures within { result ≤ length rest.now }
{
    rest.iter().take_while(|byte| is_name_byte(**byte)).count()
}

// How long the name at the front is. Where none begins that is 0, and not None: a length is what callers add up.
pub fn name_len(rest: &[u8]) -> usize
    ensures answer { result ≡ name_size rest.now }
    ensures within { result ≤ length rest.now }
{
    match rest {
        [first, after @ ..] if is_name_start(*first) => 1 + inner_len(after),
        _ => 0,
    }
}

// Whether all of it is one name of 1 to 32 bytes.
pub fn is_short_name(text: &[u8]) -> bool
    ensures answer { result ≡ is_short_name text.now }
{
    (1..=MOST_NAME_BYTES).contains(&text.len()) && name_len(text) == text.len()
}

// Whether two names are the same, byte for byte.
pub fn is_same_name(a: &[u8], b: &[u8]) -> bool
    ensures answer { result ≡ bytes_eq a.now b.now }
{
    a == b
}
