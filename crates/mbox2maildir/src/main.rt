//! Turns an mbox text into files of a Maildir, and can be started again after any stop.
#![tactic(auto)]

use maildir_commands::start;
use maildir_host::Computer;
use std::io::BufWriter;
use std::process::ExitCode;
use std::{env, io};

// How many bytes of output are written at once.
const OUTPUT_BYTES: usize = 1 << 16;

fn main(rt: HostRuntime) -> ExitCode {
    ExitCode::from(start(
        &mut Computer::new(&rt, rt.alloc()),
        rt.alloc(),
        words(&rt),
        &mut rt.stdin(),
        &mut BufWriter::with_capacity(rt.alloc(), OUTPUT_BYTES, rt.stdout()),
        &mut rt.stderr(),
    ))
}

// The words that the program was started with.
fn words(rt: &HostRuntime) -> io::Result<Vec<String>> {
    Ok(env::args(rt)?.collect(rt.alloc())?)
}
