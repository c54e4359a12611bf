// The examples that the libraries' pages show.
use crate::disk_folder::fresh_path;
use crate::mem_system::system_of;
use crate::planning::names;
use maildir_calls::{Facts, check_own};
use maildir_commands::run;
use maildir_disk::DiskFolder;
use maildir_host::OpenAt;
use maildir_memory::{MemMachine, MemSystem, Stamps};
use maildir_name::{Namer, Place};
use maildir_run::{Folder, MemFolder, Sub, convert};
use mbox_text::{split_all, write_entry};
use std::fs;
use std::io::BufWriter;
use std::test::Fail;
use std::time::{Instant, UNIX_EPOCH};

#[test]
fn of_mbox_text(rt: HostRuntime) -> Result<(), Fail> {
    let alloc = rt.alloc();
    let mut out = Vec::new(alloc);
    for entry in &split_all(alloc, b"From x\n>From a\nabc")? {
        assert!(rt; entry.body.as_slice() == b"From a\nabc".as_slice());
        write_entry(entry, &mut out)?;
    }
    assert!(rt; out.as_slice() == b"From x\n>From a\nabc\n\n".as_slice());
    Ok(())
}

#[test]
fn of_maildir_name(rt: HostRuntime) -> Result<(), Fail> {
    let alloc = rt.alloc();
    let mut namer = Namer::new(alloc);
    let first = namer.target(b"Status: RO\n\nhello\n")?;
    assert!(rt; first.place == Place::Cur);
    assert!(rt; first.name.as_str().ends_with(".1:2,S"));
    Ok(())
}

#[test]
fn of_maildir_run(rt: HostRuntime) -> Result<(), Fail> {
    let alloc = rt.alloc();
    let mut folder = MemFolder::new(alloc);
    let mut mailbox: &[u8] = b"From x\nabc";
    let report = convert(alloc, &mut folder, &mut mailbox, 1000)?;
    assert!(rt; report.messages == 1 && report.placed == 1);
    Ok(())
}

#[test]
fn of_maildir_disk(rt: HostRuntime) -> Result<(), Fail> {
    let system = system_of(rt, Stamps::Fine, &[], &[], 1)?;
    let mut folder = DiskFolder::new(system);
    folder.write("v", b"abc")?;
    folder.place("v", Place::New, "v")?;
    folder.sync()?;
    assert!(rt; folder.list(Sub::New)?.len() == 1);
    Ok(())
}

#[test]
fn of_maildir_commands(rt: HostRuntime) -> Result<(), Fail> {
    let alloc = rt.alloc();
    let mut machine = MemMachine::new(alloc, &[]);
    let words = names(alloc, &["list"])?;
    let words = words.as_slice();
    let mut err = Vec::new(alloc);
    let mut input: &[u8] = b"From x\nabc";
    let mut out = BufWriter::with_capacity(alloc, 4096, Vec::new(alloc))?;
    let status = run(&mut machine, alloc, words, &mut input, &mut out, &mut err);
    assert!(rt; status == 0);
    Ok(())
}

#[test]
fn of_maildir_memory(rt: HostRuntime) -> Result<(), Fail> {
    let alloc = rt.alloc();
    let clock = UNIX_EPOCH;
    let instant = Instant::now(&rt)?;
    let nobody = Vec::new(alloc);
    let system = MemSystem::new(
        alloc,
        MemFolder::new(alloc),
        Stamps::Fine,
        clock,
        instant,
        nobody,
    );
    let mut folder = DiskFolder::new(system);
    assert!(rt; folder.list(Sub::New)?.is_empty());
    Ok(())
}

#[test]
fn of_maildir_calls(rt: HostRuntime) -> Result<(), Fail> {
    let found = Facts {
        mode: 0o100_600,
        links: 1,
        owner: 1000,
        device: 1,
        number: 2,
        seconds: 1,
        nanos: 0,
    };
    assert!(rt; check_own(&found, 1000).is_ok());
    assert!(rt; check_own(&found, 0).is_err());
    Ok(())
}

#[test]
fn of_maildir_host(rt: HostRuntime) -> Result<(), Fail> {
    let root = fresh_path(rt)?;
    let path = root.as_str();
    let mut folder = DiskFolder::open_at(&rt, rt.alloc(), path)?;
    assert!(rt; folder.list(Sub::Cur)?.is_empty());
    fs::remove_dir_all(&rt, path)?;
    Ok(())
}
