// The texts of faults.
use crate::rows::same;
use maildir_commands::Fault;
use maildir_disk::OpenFault;
use maildir_name::NameFault;
use maildir_run::{FolderFault, RunFault};
use mbox_text::TextFault;
use std::fmt::{Debug, Display};
use std::test::Fail;

const OF_TEXTS: &[(TextFault, &str)] = &[
    (TextFault::NoFromLine, "no From line at the start"),
    (
        TextFault::LineEndInRest,
        "a line end in the rest of a From line",
    ),
    (TextFault::Failed, "an earlier call was refused"),
    (TextFault::OutOfMemory, "out of memory"),
    (TextFault::WriteFault, "the output could not be written"),
];

const OF_FOLDERS: &[(FolderFault, &str)] = &[
    (FolderFault::Absent, "a file in tmp is gone"),
    (FolderFault::Failed, "the folder call failed"),
    (FolderFault::OutOfMemory, "out of memory"),
];

const OF_RUNS: &[(RunFault, &str)] = &[
    (RunFault::NoFromLine, "no From line at the start"),
    (RunFault::ReadFault, "the source could not be read"),
    (RunFault::TooManyReads, "too many reads"),
    (RunFault::FolderAbsent, "a file in tmp is gone"),
    (RunFault::FolderFailed(7), "folder call 7 failed"),
    (RunFault::OutputFault, "the output could not be written"),
    (RunFault::OutOfMemory, "out of memory"),
];

const OF_OPENING: &[(OpenFault, &str)] = &[
    (OpenFault::Locked, "the Maildir is locked"),
    (
        OpenFault::Folder(FolderFault::Failed),
        "the folder call failed",
    ),
    (OpenFault::Folder(FolderFault::OutOfMemory), "out of memory"),
];

const OF_COMMANDS: &[(Fault, &str)] = &[
    (Fault::Source, "cannot open the source"),
    (Fault::Folder, "cannot open the folder"),
    (Fault::Locked, "another converter is at work in the folder"),
    (
        Fault::Run(RunFault::NoFromLine),
        "no From line at the start",
    ),
    (
        Fault::Run(RunFault::FolderFailed(18_446_744_073_709_551_615)),
        "folder call 18446744073709551615 failed",
    ),
];

#[test]
fn fault_texts(rt: HostRuntime) -> Result<(), Fail> {
    check_texts(&rt, OF_TEXTS)?;
    check_texts(&rt, &[(NameFault::OutOfMemory, "out of memory")])?;
    check_texts(&rt, OF_FOLDERS)?;
    check_texts(&rt, OF_RUNS)?;
    check_texts(&rt, OF_OPENING)?;
    check_texts(&rt, OF_COMMANDS)
}

fn check_texts<F: Debug + Display>(rt: &HostRuntime, rows: &[(F, &str)]) -> Result<(), Fail> {
    for (fault, wanted) in rows {
        let got = format!(in rt.alloc(); "{fault}")?;
        same(fault, &got.as_str(), wanted)?;
    }
    Ok(())
}
