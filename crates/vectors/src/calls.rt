// Which calls open a Maildir on a file system that answers each call as a script says. The calls
// that are wanted are worked by hand, from what docs/PROMISES.md says of answers; errors have Linux's
// numbers.
use crate::rows::same;
use maildir_calls::{Facts, MaildirAt, Paths, open_folders};
use maildir_disk::{OpenFault, System};
use maildir_memory::{Answer, Handle, MemCalls};
use maildir_name::Place;
use maildir_run::{FolderFault, Sub};
use std::test::Fail;
use std::time::{Duration, Instant, UNIX_EPOCH};

pub(crate) const NOT_FOUND: Answer = Answer::Fails(2);

const INTERRUPTED: Answer = Answer::Fails(4);

const LOCK_HELD: Answer = Answer::Fails(11);

pub(crate) const NO_RIGHT: Answer = Answer::Fails(13);

pub(crate) const EXISTS: Answer = Answer::Fails(17);

pub(crate) const NO_SPACE: Answer = Answer::Fails(28);

const NO_LOCKS: Answer = Answer::Fails(95);

pub(crate) const FOLDER: Answer = Answer::Found(Facts {
    mode: 0o040_700,
    ..OWN
});

pub(crate) const OWN: Facts = Facts {
    mode: 0o100_600,
    links: 1,
    owner: 1000,
    device: 1,
    number: 7,
    seconds: 1,
    nanos: 0,
};

/// A file system with this script.
pub(crate) fn calls_of(rt: HostRuntime, script: &[Answer]) -> Result<MemCalls, Fail> {
    let script = Vec::from_slice(rt.alloc(), script)?;
    Ok(MemCalls::new(rt.alloc(), UNIX_EPOCH, Instant::now(&rt)?, script))
}

/// These calls were made, and no others.
pub(crate) fn made(
    rt: HostRuntime,
    name: &str,
    calls: &MemCalls,
    wanted: &[&str],
) -> Result<(), Fail> {
    for (at, (call, &wanted)) in calls.made().iter().zip(wanted).enumerate() {
        let told = format!(in rt.alloc(); "{call}")?;
        same(&(name, at), &told.as_str(), &wanted)?;
    }
    same(&name, &calls.made().len(), &wanted.len())
}

/// A name, what the calls answer, which are made, and what follows.
pub(crate) type Row<'a, T> = (&'a str, &'a [Answer], &'a [&'a str], T);

// The calls that opened the parent that is kept and the file with the lock.
type Opened = Result<(Option<usize>, usize), OpenFault>;

const FAILED: Opened = Err(OpenFault::Folder(FolderFault::Failed));

const OPENINGS: &[Row<'_, Opened>] = &[
    (
        "nothing is there",
        &[],
        &[
            "mkdir(m, 700)",
            "open(m/..)",
            "open(m)",
            "flock(2)",
            "mkdir(m/tmp, 700)",
            "mkdir(m/new, 700)",
            "mkdir(m/cur, 700)",
        ],
        Ok((Some(1), 2)),
    ),
    (
        "all is there",
        &[
            EXISTS,
            FOLDER,
            Answer::Done,
            Answer::Done,
            EXISTS,
            FOLDER,
            EXISTS,
            FOLDER,
            EXISTS,
            FOLDER,
        ],
        &[
            "mkdir(m, 700)",
            "stat(m)",
            "open(m)",
            "flock(2)",
            "mkdir(m/tmp, 700)",
            "stat(m/tmp)",
            "mkdir(m/new, 700)",
            "stat(m/new)",
            "mkdir(m/cur, 700)",
            "stat(m/cur)",
        ],
        Ok((None, 2)),
    ),
    (
        "another program has the lock",
        &[EXISTS, FOLDER, Answer::Done, LOCK_HELD],
        &["mkdir(m, 700)", "stat(m)", "open(m)", "flock(2)"],
        Err(OpenFault::Locked),
    ),
    (
        "the lock is interrupted",
        &[EXISTS, FOLDER, Answer::Done, INTERRUPTED],
        &["mkdir(m, 700)", "stat(m)", "open(m)", "flock(2)"],
        FAILED,
    ),
    (
        "there are no locks",
        &[EXISTS, FOLDER, Answer::Done, NO_LOCKS],
        &[
            "mkdir(m, 700)",
            "stat(m)",
            "open(m)",
            "flock(2)",
            "mkdir(m/tmp, 700)",
            "mkdir(m/new, 700)",
            "mkdir(m/cur, 700)",
        ],
        Ok((None, 2)),
    ),
    (
        "the parent may not be opened",
        &[Answer::Done, NO_RIGHT],
        &["mkdir(m, 700)", "open(m/..)", "rmdir(m)"],
        FAILED,
    ),
    (
        "a file is in its place",
        &[EXISTS, Answer::Found(OWN)],
        &["mkdir(m, 700)", "stat(m)"],
        FAILED,
    ),
    (
        "there is no parent",
        &[NOT_FOUND, NOT_FOUND],
        &["mkdir(m, 700)", "stat(m)"],
        FAILED,
    ),
    (
        "a folder cannot be made",
        &[
            Answer::Done,
            Answer::Done,
            Answer::Done,
            Answer::Done,
            Answer::Done,
            NO_SPACE,
            NOT_FOUND,
        ],
        &[
            "mkdir(m, 700)",
            "open(m/..)",
            "open(m)",
            "flock(2)",
            "mkdir(m/tmp, 700)",
            "mkdir(m/new, 700)",
            "stat(m/new)",
        ],
        FAILED,
    ),
];

#[test]
fn openings(rt: HostRuntime) -> Result<(), Fail> {
    for &(name, script, wanted, ref follows) in OPENINGS {
        let mut calls = calls_of(rt, script)?;
        let paths = Paths::new(rt.alloc(), "m")?;
        let held = match open_folders(&mut calls, &paths) {
            Ok(held) => Ok((held.parent.map(|parent| parent.call), held.lock.call)),
            Err(fault) => Err(fault),
        };
        same(&name, &held, follows)?;
        made(rt, name, &calls, wanted)?;
    }
    Ok(())
}

const OPENED_AND_CALLED: &[&str] = &[
    "mkdir(m, 700)",
    "open(m/..)",
    "open(m)",
    "flock(2)",
    "mkdir(m/tmp, 700)",
    "mkdir(m/new, 700)",
    "mkdir(m/cur, 700)",
    "readdir(m/tmp)",
    "stat(m/cur)",
    "clock",
    "instant",
    "wait",
    "open(m/tmp/f, O_EXCL, 600)",
    "write(12, 3)",
    "fsync(12)",
    "rename(m/tmp/f, m/cur/t)",
    "unlink(m/tmp/f)",
    "open(m/cur)",
    "fsync(17)",
    "open(m)",
    "fsync(19)",
    "fsync(1)",
];

// Makes each call of a Maildir that is open once.
fn call_all(maildir: &mut MaildirAt<MemCalls, Handle>) {
    let _ = maildir.names(Sub::Tmp);
    let _ = maildir.stamp(Sub::Cur);
    let _ = maildir.now();
    let _ = maildir.instant();
    maildir.sleep(Duration::from_millis(1));
    if let Ok(mut file) = maildir.create("f") {
        let _ = maildir.append(&mut file, b"abc");
        let _ = maildir.sync_file(&file);
    }
    let _ = maildir.rename("f", Place::Cur, "t");
    let _ = maildir.unlink("f");
    let _ = maildir.sync_folder(Place::Cur);
    let _ = maildir.sync_root();
}

// A Maildir makes its calls at the paths that its folders and names say, through what it opened.
#[test]
fn maildir_at(rt: HostRuntime) -> Result<(), Fail> {
    let calls = match MaildirAt::open(calls_of(rt, &[])?, rt.alloc(), "m") {
        Ok(mut maildir) => {
            call_all(&mut maildir);
            maildir.into_calls()
        }
        Err((calls, _)) => calls,
    };
    made(rt, "a new Maildir", &calls, OPENED_AND_CALLED)
}
