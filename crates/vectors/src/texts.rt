// The worked texts, and the names of their files. The digests are those of FIPS 180-4 and of
// sha256sum.
use maildir_run::Sub;

pub(crate) const EMPTY_ONE: &str =
    "e3b0c44298fc1c149afbf4c8996fb92427ae41e4649b934ca495991b7852b855.1";

pub(crate) const EMPTY_TWO: &str =
    "e3b0c44298fc1c149afbf4c8996fb92427ae41e4649b934ca495991b7852b855.2";

pub(crate) const ONE_SEEN: &str =
    "e3b0c44298fc1c149afbf4c8996fb92427ae41e4649b934ca495991b7852b855.1:2,S";

pub(crate) const TWO_SEEN: &str =
    "e3b0c44298fc1c149afbf4c8996fb92427ae41e4649b934ca495991b7852b855.2:2,S";

pub(crate) const ABC: &str = "ba7816bf8f01cfea414140de5dae2223b00361a396177a9cb410ff61f20015ad.1";

pub(crate) const ABC_OLD: &str =
    "ba7816bf8f01cfea414140de5dae2223b00361a396177a9cb410ff61f20015ad.1:2,";

pub(crate) const ABC_SEEN: &str =
    "ba7816bf8f01cfea414140de5dae2223b00361a396177a9cb410ff61f20015ad.1:2,S";

pub(crate) const ABC_LINE: &str =
    "edeaaff3f1774ad2888673770c6d64097e391bc362d7d6fb34982ddf0efd18cb.1";

pub(crate) const HELLO_LINE: &str =
    "5891b5b522d5df086d0ff0b110fbd9d21bb4fc7163af34d08286a2e846f6be03.1";

/// One message, whose last line has no `\n`.
pub(crate) const UNENDED: &[u8] = b"From x\nabc";

// One message with quoted lines, in its regular spelling.
const QUOTED: &[u8] = b"From x\n>From a\n>>From b\n> From c\n>From\n\n";

/// Two equal messages.
pub(crate) const TWO_EMPTY: &[u8] = b"From a\n\nFrom b\n\n";

/// The same two, and a third.
pub(crate) const THREE: &[u8] = b"From a\n\nFrom b\n\nFrom c\nabc";

/// Two messages; a source may fail in the second.
pub(crate) const TWO_LINES: &[u8] = b"From x\nabc\n\nFrom y\nhello\n";

/// A From_ line and a body.
pub(crate) type Message<'a> = (&'a [u8], &'a [u8]);

/// A file: its folder, its name and its bytes.
pub(crate) type File<'a> = (Sub, &'a str, &'a [u8]);

/// What a run over `THREE` places.
pub(crate) const ALL_THREE: &[File<'_>] = &[
    (Sub::New, EMPTY_ONE, b""),
    (Sub::New, EMPTY_TWO, b""),
    (Sub::New, ABC, b"abc"),
];

/// A text, its messages, their regular spelling and their table, and the files that a run makes of
/// it.
pub(crate) struct Text<'a> {
    pub name: &'a str,
    pub text: &'a [u8],
    pub messages: &'a [Message<'a>],
    pub spelling: &'a [u8],
    pub list: &'a [u8],
    pub files: &'a [File<'a>],
}

const TEXTS: &[Text<'_>] = &[
    Text {
        name: "empty_text",
        text: b"",
        messages: &[],
        spelling: b"",
        list: b"",
        files: &[],
    },
    Text {
        name: "unended_line",
        text: UNENDED,
        messages: &[(b"From x", b"abc")],
        spelling: b"From x\nabc\n\n",
        list: b"1 ba7816bf8f01cfea414140de5dae2223b00361a396177a9cb410ff61f20015ad.1 new - 3 x\n",
        files: &[(Sub::New, ABC, b"abc")],
    },
    Text {
        name: "quoting",
        text: QUOTED,
        messages: &[(b"From x", b"From a\n>From b\n> From c\n>From\n")],
        spelling: QUOTED,
        list: b"1 9cbed200d748885f7f6020b1ea28caa269815a3d0de56a9c0bee5f2f64ff8a82.1 new - 30 x\n",
        files: &[(
            Sub::New,
            "9cbed200d748885f7f6020b1ea28caa269815a3d0de56a9c0bee5f2f64ff8a82.1",
            b"From a\n>From b\n> From c\n>From\n",
        )],
    },
    Text {
        name: "last line quoted",
        text: b"From a\nx\n>>>From ",
        messages: &[(b"From a", b"x\n>>From ")],
        spelling: b"From a\nx\n>>>From \n\n",
        list: b"1 772674bf45b30e596422e8fc33f9522a70337b96664d31673c9db5d9ea93136a.1 new - 9 a\n",
        files: &[(
            Sub::New,
            "772674bf45b30e596422e8fc33f9522a70337b96664d31673c9db5d9ea93136a.1",
            b"x\n>>From ",
        )],
    },
    Text {
        name: "no_blank_line_between",
        text: b"From a\nx\nFrom b\ny\n",
        messages: &[(b"From a", b"x\n"), (b"From b", b"y\n")],
        spelling: b"From a\nx\n\nFrom b\ny\n\n",
        list: b"1 73cb3858a687a8494ca3323053016282f3dad39d42cf62ca4e79dda2aac7d9ac.1 new - 2 a\n\
            2 3bb2abb69ebb27fbfe63c7639624c6ec5e331b841a5bc8c3ebc10b9285e90877.1 new - 2 b\n",
        files: &[
            (
                Sub::New,
                "73cb3858a687a8494ca3323053016282f3dad39d42cf62ca4e79dda2aac7d9ac.1",
                b"x\n",
            ),
            (
                Sub::New,
                "3bb2abb69ebb27fbfe63c7639624c6ec5e331b841a5bc8c3ebc10b9285e90877.1",
                b"y\n",
            ),
        ],
    },
    Text {
        name: "no_blank_line_between, again",
        text: b"From a\nx\n\nFrom b\ny\n\n",
        messages: &[(b"From a", b"x\n"), (b"From b", b"y\n")],
        spelling: b"From a\nx\n\nFrom b\ny\n\n",
        list: b"1 73cb3858a687a8494ca3323053016282f3dad39d42cf62ca4e79dda2aac7d9ac.1 new - 2 a\n\
            2 3bb2abb69ebb27fbfe63c7639624c6ec5e331b841a5bc8c3ebc10b9285e90877.1 new - 2 b\n",
        files: &[
            (
                Sub::New,
                "73cb3858a687a8494ca3323053016282f3dad39d42cf62ca4e79dda2aac7d9ac.1",
                b"x\n",
            ),
            (
                Sub::New,
                "3bb2abb69ebb27fbfe63c7639624c6ec5e331b841a5bc8c3ebc10b9285e90877.1",
                b"y\n",
            ),
        ],
    },
    Text {
        name: "equal_empty_messages",
        text: TWO_EMPTY,
        messages: &[(b"From a", b""), (b"From b", b"")],
        spelling: TWO_EMPTY,
        list: b"1 e3b0c44298fc1c149afbf4c8996fb92427ae41e4649b934ca495991b7852b855.1 new - 0 a\n\
            2 e3b0c44298fc1c149afbf4c8996fb92427ae41e4649b934ca495991b7852b855.2 new - 0 b\n",
        files: &[(Sub::New, EMPTY_ONE, b""), (Sub::New, EMPTY_TWO, b"")],
    },
    Text {
        name: "body_of_one_line_end",
        text: b"From a\n\n\n",
        messages: &[(b"From a", b"\n")],
        spelling: b"From a\n\n\n",
        list: b"1 01ba4719c80b6fe911b091a7c05124b64eeece964e09c058ef8f9805daca546b.1 new - 1 a\n",
        files: &[(
            Sub::New,
            "01ba4719c80b6fe911b091a7c05124b64eeece964e09c058ef8f9805daca546b.1",
            b"\n",
        )],
    },
    Text {
        name: "all_flags",
        text: b"From a\tb@c Thu Jan  1 00:00:00 1970\nStatus: RO\nX-Status: AF\n\nhi\n\n",
        messages: &[(
            b"From a\tb@c Thu Jan  1 00:00:00 1970",
            b"Status: RO\nX-Status: AF\n\nhi\n",
        )],
        spelling: b"From a\tb@c Thu Jan  1 00:00:00 1970\nStatus: RO\nX-Status: AF\n\nhi\n\n",
        list: b"1 6e10782762e5fa1e91d5bfce9779c600776be9832f251fd48a19b758b735a824.1 cur 2,FRS 28 a?b@c\n",
        files: &[(
            Sub::Cur,
            "6e10782762e5fa1e91d5bfce9779c600776be9832f251fd48a19b758b735a824.1:2,FRS",
            b"Status: RO\nX-Status: AF\n\nhi\n",
        )],
    },
    Text {
        name: "carriage_returns",
        text: b"From a\r\nx\r\n\r\n",
        messages: &[(b"From a\r", b"x\r\n\r\n")],
        spelling: b"From a\r\nx\r\n\r\n\n",
        list: b"1 5ffb1299c251e89766c7448c6d4609b9be1b5a07143345552c6da2e9d87ff025.1 new - 5 a?\n",
        files: &[(
            Sub::New,
            "5ffb1299c251e89766c7448c6d4609b9be1b5a07143345552c6da2e9d87ff025.1",
            b"x\r\n\r\n",
        )],
    },
    Text {
        name: "no sender",
        text: b"From \n",
        messages: &[(b"From ", b"")],
        spelling: b"From \n\n",
        list: b"1 e3b0c44298fc1c149afbf4c8996fb92427ae41e4649b934ca495991b7852b855.1 new - 0 -\n",
        files: &[(Sub::New, EMPTY_ONE, b"")],
    },
    Text {
        name: "a space for the sender",
        text: b"From  x\nStatus: O\n\n\n",
        messages: &[(b"From  x", b"Status: O\n\n")],
        spelling: b"From  x\nStatus: O\n\n\n",
        list: b"1 8a5868e83419304256d0099b35489c50bd0de59ff9e9b30895f5aa064337dc8e.1 cur 2, 11 -\n",
        files: &[(
            Sub::Cur,
            "8a5868e83419304256d0099b35489c50bd0de59ff9e9b30895f5aa064337dc8e.1:2,",
            b"Status: O\n\n",
        )],
    },
    Text {
        name: "odd bytes",
        text: b"From \0\xff\n\0\x80",
        messages: &[(b"From \0\xff", b"\0\x80")],
        spelling: b"From \0\xff\n\0\x80\n\n",
        list: b"1 085edad400785fca7e7e90b1fac4beb776fc2beee5aa24352d5f39b5d57efcad.1 new - 2 ??\n",
        files: &[(
            Sub::New,
            "085edad400785fca7e7e90b1fac4beb776fc2beee5aa24352d5f39b5d57efcad.1",
            b"\0\x80",
        )],
    },
];

/// The worked texts. A function hands them out, so that the prover reads their bytes once and not
/// in each test.
pub(crate) fn texts() -> &'static [Text<'static>] {
    TEXTS
}

/// Texts that are no mbox texts.
pub(crate) const REFUSED: &[(&str, &[u8])] = &[
    ("a header line first", b"Subject: x\n"),
    ("a part of a From_ line", b"Fro"),
    ("an empty line first", b"\nFrom a\n"),
];
