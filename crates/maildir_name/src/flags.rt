// The flags of a message, read from the header of its body.
ghost use Rattle.std.specs.Prelude.{◌≡◌, ◌==◌, ◌||◌, ◌<◌, ◌≤◌, ◌∷◌, length, take, drop, position};
ghost use Rattle.maildir_name.specs.Flags.{flags, field, header, lines, stands_in as stands};
ghost use Rattle.maildir_name.specs.Flags.{is_blank as blank, begins_with_name as begins};

/// The flags in the header of a message: which of five letters stand in its fields Status and
/// X-Status.
#[derive(Clone, Copy, PartialEq, Eq)]
pub struct Flags {
    /// `O`: a mail program has listed the message.
    pub is_old: bool,
    /// `F`: the message is flagged.
    pub flagged: bool,
    /// `A`: the message was answered.
    pub replied: bool,
    /// `R`: the message was read.
    pub seen: bool,
    /// `D`: the message is to be deleted.
    pub trashed: bool,
}

/// The flags of a body: which letters occur in the first Status line and in the first X-Status line
/// of its header (this project's own rule, after the documentation of Python's module mailbox).
/// Reads the header alone, up to the first line that is `\n` or `\r\n`. Allocates nothing.
pub fn flags_of(body: &[u8]) -> Flags
    ensures { result ≡ flags body.now }
{
    let status = field_of(body, b"Status:");
    let x_status = field_of(body, b"X-Status:");
    Flags {
        is_old: stands_in_one(b'O', status, x_status),
        flagged: stands_in_one(b'F', status, x_status),
        replied: stands_in_one(b'A', status, x_status),
        seen: stands_in_one(b'R', status, x_status),
        trashed: stands_in_one(b'D', status, x_status),
    }
}

// Whether a letter occurs in one of two fields.
fn stands_in_one(letter: u8, one: &[u8], other: &[u8]) -> bool
    ensures { result ≡ (stands one.now letter || stands other.now letter) }
{
    stands_in(one, letter) || stands_in(other, letter)
}

// Whether a letter occurs in a field.
fn stands_in(text: &[u8], letter: u8) -> bool
    ensures { result ≡ stands text.now letter }
{
    text.iter().any(|c| *c == letter)
}

// What follows the name in the first line of the header that begins with it, or nothing.
fn field_of<'a>(body: &'a [u8], name: &[u8]) -> &'a [u8]
    ensures { result.now ≡ field name.now (header body.now) }
{
    let mut rest = body;
    while !rest.is_empty() {
        let (line, after) = rest.split_at(line_len(rest));
        if is_blank(line) {
            break;
        }
        if begins_with_name(line, name) {
            return &line[name.len()..];
        }
        rest = after;
    }
    &[]
}

// The length of the first line, its `\n` included.
fn line_len(text: &[u8]) -> usize
    requires { 0 < length text.now }
    ensures some { 0 < result }
    ensures within { result ≤ length text.now }
    ensures first { lines text.now ≡ take result text.now ∷ lines (drop result text.now) }
{
    match line_end(text) {
        Some(at) => at + 1,
        None => text.len(),
    }
}

// The index of the first `\n`.
fn line_end(text: &[u8]) -> Option<usize>
    ensures { result ≡ position (λ c. c == 10) text.now }
{
    text.iter().position(|c| *c == b'\n')
}

// Whether a line ends the header.
fn is_blank(line: &[u8]) -> bool
    ensures { result ≡ blank line.now }
{
    line == b"\n".as_slice() || line == b"\r\n".as_slice()
}

// Whether a line begins with a field's name, letters in either case.
fn begins_with_name(line: &[u8], name: &[u8]) -> bool
    ensures { result ≡ begins name.now line.now }
{
    name.len() <= line.len() && line[..name.len()].eq_ignore_ascii_case(name)
}
