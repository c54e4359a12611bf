// How a row of a table is compared with what was got.
use std::fmt;
use std::fmt::{Debug, Formatter};
use std::test::Fail;

/// Bytes, as a row that fails shows them.
#[derive(Clone, Copy, PartialEq)]
pub(crate) struct Shown<'a>(pub &'a [u8]);

impl Debug for Shown<'_> {
    fn fmt<W: fmt::Write>(&self, f: &mut Formatter<W>) -> fmt::Result {
        write!(f, "\"{}\"", self.0.escape_ascii())
    }
}

/// Says which row it is, what was got and what was wanted, if they differ.
pub(crate) fn same<N: Debug, T: Debug + PartialEq>(
    row: &N,
    got: &T,
    wanted: &T,
) -> Result<(), Fail> {
    if got == wanted {
        return Ok(());
    }
    Err(Fail::new(format_args!("row {row:?}: got {got:?}, wanted {wanted:?}")))
}

/// The same of bytes.
pub(crate) fn same_bytes<N: Debug>(row: &N, got: &[u8], wanted: &[u8]) -> Result<(), Fail> {
    same(row, &Shown(got), &Shown(wanted))
}
