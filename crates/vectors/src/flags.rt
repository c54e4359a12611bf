// Headers and the flags that they set.
use crate::rows::same;
use maildir_name::{Flags, flags_of};
use std::test::Fail;

#[test]
fn flag_headers() -> Result<(), Fail> {
    // the header, and the letters of its flags
    const ROWS: &[(&str, &str)] = &[
        ("status: O\n\n", "O"),
        ("Subject: s\n\nStatus: R\n", ""),
        ("Status: r\n\n", ""),
        ("X-Status: RD\n", "RD"),
        ("Status: R\nStatus: O\n\n", "R"),
        ("Status:\n O\n", ""),
        ("", ""),
        ("\nStatus: R\n", ""),
        ("Status : R\n", ""),
        ("STATUS: O\r\n\r\nX-Status: A\n", "O"),
        ("X-Status: O", "O"),
        ("Status: FLAGS\n", "FA"),
        ("Subject: s\nx-status: D\nSTATUS:R\n\n", "DR"),
        ("X-Status: F\nX-Status: A\n\n", "F"),
        ("Status: RO\nX-Status: AF\n\nhi\n", "ROAF"),
    ];
    for &(header, letters) in ROWS {
        let Flags {
            is_old,
            flagged,
            replied,
            seen,
            trashed,
        } = flags_of(header.as_bytes());
        let got = [
            ('O', is_old),
            ('F', flagged),
            ('A', replied),
            ('R', seen),
            ('D', trashed),
        ];
        for (letter, is_set) in got {
            same(&(header, letter), &is_set, &letters.contains(letter))?;
        }
    }
    Ok(())
}
