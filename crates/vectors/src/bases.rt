// Bases, and which names are this converter's.
use crate::rows::same;
use maildir_name::{base_of, is_converter_name};
use std::test::Fail;

// A name that begins with the digits of the SHA-256 of `abc` (FIPS 180-4).
macro_rules! abc {
    ($rest:literal) => {
        concat!(
            "ba7816bf8f01cfea414140de5dae2223b00361a396177a9cb410ff61f20015ad",
            $rest
        )
    };
}

#[test]
fn names_and_bases() -> Result<(), Fail> {
    const NAMES: &[(&str, bool)] = &[
        (abc!(".1"), true),
        (abc!(".1:2,S"), true),
        (abc!(".1:"), true),
        (abc!(".18446744073709551615"), true),
        (abc!(""), false),
        (abc!("."), false),
        (abc!(".0"), false),
        (abc!(".01"), false),
        (abc!(".+1"), false),
        (abc!(".18446744073709551616"), false),
        (abc!(".1,S"), false),
        ("", false),
        (
            ":ba7816bf8f01cfea414140de5dae2223b00361a396177a9cb410ff61f20015ad.1",
            false,
        ),
        (
            "a7816bf8f01cfea414140de5dae2223b00361a396177a9cb410ff61f20015ad.1",
            false,
        ),
        (
            "BA7816bf8f01cfea414140de5dae2223b00361a396177a9cb410ff61f20015ad.1",
            false,
        ),
        ("1700000000.M1.host", false),
    ];
    const BASES: &[(&str, &str)] = &[
        (abc!(".1:2,S:x"), abc!(".1")),
        (":x", ""),
        ("é:2,S", "é"),
        ("u", "u"),
    ];
    for &(name, is_ours) in NAMES {
        same(&name, &is_converter_name(name), &is_ours)?;
    }
    for &(name, base) in BASES {
        same(&name, &base_of(name), &base)?;
    }
    Ok(())
}
