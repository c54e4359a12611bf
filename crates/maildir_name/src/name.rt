// Names of files in a Maildir, and which of them are this converter's.
ghost use Rattle.std.specs.Prelude.{◌≡◌, ◌==◌, ◌&&◌, nat_le, length, slice_index, string_bytes};
ghost use Rattle.std.specs.List.{list_all};
ghost use Rattle.maildir_name.specs.Names.{base, is_converter_name as converter_name};
ghost use Rattle.maildir_name.specs.Names.{is_lower_hex_digit as digit};
ghost use Rattle.maildir_name.specs.Names.{is_occurrence as occurrence};

use std::marker::Model;

/// The name of a file. Contracts see the list of its bytes.
#[derive(Drop)]
pub struct Name {
    text: String,
}

impl Model for Name {
    ghost use Rattle.std.specs.Prelude.{List, ℕ, string_bytes};

    ghost Value = { List ℕ };

    ghost view = { λ name. string_bytes name.text };
}

impl Name {
    /// The name with this text.
    pub fn new(text: String) -> Name
        ensures { result ≡ string_bytes text }
    {
        Name { text }
    }

    /// The text of the name.
    pub fn as_str(&self) -> &str
        ensures { result.now ≡ self.now }
    {
        &self.text
    }
}

/// The base of a name: its text before the first colon, or all of it ("Using maildir format").
pub fn base_of(name: &str) -> &str
    ensures { result.now ≡ base name.now }
{
    match name.split_once(':') {
        Some((base, _)) => base,
        None => name,
    }
}

/// Whether a name is this converter's: its base is 64 digits of `0` to `9` and `a` to `f`, a dot,
/// and a number from 1 to 18446744073709551615 without leading zeros (this project's own rule).
pub fn is_converter_name(name: &str) -> bool
    ensures { result ≡ converter_name name.now }
{
    match base_of(name).split_once('.') {
        Some((digest, number)) => is_digest(digest.as_bytes()) && is_occurrence(number),
        None => false,
    }
}

// Whether a text is 64 digits of `0` to `9` and `a` to `f`.
fn is_digest(text: &[u8]) -> bool
    ensures { result ≡ (length text.now == 64 && list_all digit text.now) }
{
    text.len() == 64 && are_lower_hex_digits(text)
}

// Whether each byte is one of `0` to `9` and `a` to `f`.
fn are_lower_hex_digits(text: &[u8]) -> bool
    ensures { result ≡ list_all digit text.now }
{
    text.iter().all(|byte| is_lower_hex_digit(*byte))
}

// Whether a byte is one of `0` to `9` and `a` to `f`.
fn is_lower_hex_digit(byte: u8) -> bool
    ensures { result ≡ digit byte }
{
    matches!(byte, b'0'..=b'9' | b'a'..=b'f')
}

// Whether a text is an occurrence number.
fn is_occurrence(text: &str) -> bool
    ensures { result ≡ occurrence text.now }
{
    begins_with_1_to_9(text.as_bytes()) && text.parse::<u64>().is_ok()
}

// Whether a text begins with a digit other than zero.
fn begins_with_1_to_9(text: &[u8]) -> bool
    ensures { result ≡ (nat_le 49 (slice_index text.now 0) && nat_le (slice_index text.now 0) 57) }
{
    !text.is_empty() && matches!(text[0], b'1'..=b'9')
}
