// From_ lines that are built and taken apart.
use crate::rows::{Shown, same, same_bytes};
use mbox_text::{TextFault, build_from, is_from_line, is_quotable, rest_of, sender_of};
use std::alloc::Global;
use std::test::Fail;

// A sender, a rest, and the From_ line that is built of them, if one is.
type Row<'a> = (&'a str, &'a str, Result<&'a [u8], TextFault>);

/// Rows whose lines are built; the last rest is refused, since it has a line end.
pub(crate) const BUILT: &[Row<'_>] = &[
    (
        "",
        "Thu Jan  1 00:00:00 1970",
        Ok(b"From MAILER-DAEMON Thu Jan  1 00:00:00 1970"),
    ),
    ("a b", "", Ok(b"From a-b")),
    ("a\tb\nc", "  d", Ok(b"From a-b-c   d")),
    ("a", "  ", Ok(b"From a   ")),
    ("a", "b", Ok(b"From a b")),
    ("a", "x\ny", Err(TextFault::LineEndInRest)),
];

/// Builds the From_ line of a row, and once more if an allocation was refused and it may be tried
/// again.
pub(crate) fn build(alloc: Global, row: Row<'_>, again: bool) -> Result<(), Fail> {
    let (sender, rest, wanted) = row;
    let answer = match build_from(alloc, sender.as_bytes(), rest.as_bytes()) {
        Err(TextFault::OutOfMemory) if again => {
            build_from(alloc, sender.as_bytes(), rest.as_bytes())
        }
        answer => answer,
    };
    match (answer, wanted) {
        (Ok(line), Ok(wanted)) => same_bytes(&(sender, rest), line.as_slice(), wanted),
        (answer, wanted) => same(&(sender, rest), &answer.err(), &wanted.err()),
    }
}

#[test]
fn built_from_lines(rt: HostRuntime) -> Result<(), Fail> {
    for &row in BUILT {
        build(rt.alloc(), row, false)?;
    }
    Ok(())
}

// Which bytes are a From_ line, and which lines are quoted in a body; the sender and the rest of a
// From_ line.
#[test]
fn taken_from_lines(rt: HostRuntime) -> Result<(), Fail> {
    const LINES: &[(&[u8], bool, bool)] = &[
        (b"From a", true, true),
        (b"From ", true, true),
        (b"From \r", true, true),
        (b"From a\n", false, true),
        (b">From a", false, true),
        (b">>>From ", false, true),
        (b"From", false, false),
        (b"from a", false, false),
        (b" From a", false, false),
        (b"> From a", false, false),
        (b">>From", false, false),
        (b">", false, false),
        (b"", false, false),
    ];
    const PARTS: &[(&[u8], &[u8], &[u8])] = &[
        (b"From a  b c", b"a", b"b c"),
        (b"From ", b"", b""),
        (b"From a-b-c   d", b"a-b-c", b"d"),
        (b"From a   ", b"a", b""),
        (b"From  x", b"", b"x"),
    ];
    for &(line, is_one, is_quoted) in LINES {
        let got = (is_from_line(line), is_quotable(line));
        same(&Shown(line), &got, &(is_one, is_quoted))?;
    }
    for &(line, sender, rest) in PARTS {
        assert!(rt; is_from_line(line), "{:?} is no From_ line", Shown(line));
        let got = (Shown(sender_of(line)), Shown(rest_of(line)));
        same(&Shown(line), &got, &(Shown(sender), Shown(rest)))?;
    }
    Ok(())
}
