// The targets of bodies. Digests are FIPS 180-4's examples or another program's.
use crate::rows::same;
use crate::texts::{ABC, EMPTY_ONE, EMPTY_TWO};
use maildir_name::{NameFault, Namer, Place};
use std::alloc::Global;
use std::test::Fail;

// A body, and its base, its folder and the info of its name.
type Row<'a> = (&'a str, &'a str, &'a str, &'a str);

// The bodies of one text.
const ROWS: &[Row<'_>] = &[
    ("", EMPTY_ONE, "new", ""),
    ("abc", ABC, "new", ""),
    ("", EMPTY_TWO, "new", ""),
    (
        "abcdbcdecdefdefgefghfghighijhijkijkljklmklmnlmnomnopnopq",
        "248d6a61d20638b8e5c026930c3e6039a33ce45964ff2167f6ecedd419db06c1.1",
        "new",
        "",
    ),
    (
        "status: O\n\n",
        "7e0e86d8ec65e420809e8a72cf9dd0f2afc440013fa6437d56df5ed1c891c331.1",
        "cur",
        ":2,",
    ),
    (
        "Subject: s\n\nStatus: R\n",
        "3fb80a2fb19f4a5323be3623a446b73ad569ca61458c7f131d91e8839223bda2.1",
        "new",
        "",
    ),
    (
        "Status: r\n\n",
        "097e55b3b6d57f506555b678e6a12c2c47023bf58879eb6e1666d85f5efb09b4.1",
        "new",
        "",
    ),
    (
        "X-Status: RD\n",
        "2a66991d128f1c4b732a44c32c2af01118d5008d86ab7aa9946dd6d94a0f8da3.1",
        "cur",
        ":2,ST",
    ),
    (
        "Status: R\nStatus: O\n\n",
        "48b17a9abbac72fd62f0ed41f12c8aa4b50f3150ef954d7277a55286ef12b4a7.1",
        "cur",
        ":2,S",
    ),
    (
        "Status:\n O\n",
        "86803acea6ed15db1420145286b222f37823976582d4cc8a152be14f90f72449.1",
        "new",
        "",
    ),
    (
        "Status: RO\nX-Status: AF\n\nhi\n",
        "6e10782762e5fa1e91d5bfce9779c600776be9832f251fd48a19b758b735a824.1",
        "cur",
        ":2,FRS",
    ),
    (
        "X-Status: DRAFT\n",
        "cfdf34dc5f5cde940f4df5929f0714c2d3cd00d9dfc58ea171015bcec6b51a85.1",
        "cur",
        ":2,FRST",
    ),
    (
        "Status: O\n",
        "918baf65b8d8809bb29fe7f8c5ba96d0bb3fafca806accd54d5db6f9be7196e4.1",
        "cur",
        ":2,",
    ),
    (
        "Status: O\n",
        "918baf65b8d8809bb29fe7f8c5ba96d0bb3fafca806accd54d5db6f9be7196e4.2",
        "cur",
        ":2,",
    ),
    (
        "",
        "e3b0c44298fc1c149afbf4c8996fb92427ae41e4649b934ca495991b7852b855.3",
        "new",
        "",
    ),
    (
        "X-Status: RD\n",
        "2a66991d128f1c4b732a44c32c2af01118d5008d86ab7aa9946dd6d94a0f8da3.2",
        "cur",
        ":2,ST",
    ),
];

// Asks for the next target, and once more if an allocation was refused and it may be asked for
// again.
fn target(namer: &mut Namer, row: Row<'_>, again: bool) -> Result<(), Fail> {
    let (body, base, place, info) = row;
    let answer = match namer.target(body.as_bytes()) {
        Err(NameFault::OutOfMemory) if again => namer.target(body.as_bytes()),
        answer => answer,
    };
    match answer {
        Ok(target) => {
            let folder = match target.place {
                Place::New => "new",
                Place::Cur => "cur",
            };
            let rest = target.name.as_str().strip_prefix(base);
            let got = (target.base.as_str(), folder, rest);
            same(&body, &got, &(base, place, Some(info)))
        }
        Err(fault) => same(&body, &Some(fault), &None),
    }
}

/// The targets of the bodies, each of which may be asked for again.
pub(crate) fn targets(alloc: Global, again: bool) -> Result<(), Fail> {
    let mut namer = Namer::new(alloc);
    for &row in ROWS {
        target(&mut namer, row, again)?;
    }
    Ok(())
}

#[test]
fn one_body_and_equal_ones(rt: HostRuntime) -> Result<(), Fail> {
    targets(rt.alloc(), false)
}
