// What the program does with its words, its streams and its status.
ghost use Rattle.std.specs.Prelude.{◌≡◌, ◌⊎◌, ◌^◌, [], drop, map, string_bytes};
ghost use Rattle.std.specs.Prelude.{IfErr, IfOk, IsErr, IsOk, OnOk};
ghost use Rattle.std.specs.Io.Buffered.{writer_buffer, writer_contents};
ghost use Rattle.maildir_run.specs.Output.{WritesMessages};
ghost use Rattle.maildir_commands.specs.Output.{output_of};
ghost use Rattle.maildir_commands.specs.Program.{RanOn, RefusesWords};
ghost use Rattle.maildir_commands.specs.Seen.{seen_with, streams};
ghost use Rattle.maildir_commands.specs.Words.Request.{ToWrite};
ghost use Rattle.maildir_commands.specs.Private.Serving.{Serves};
ghost use Rattle.maildir_commands.specs.Private.Words.{name_of};

use crate::command::{Command, Form};
use crate::fault::Fault;
use crate::line::{tell_fault, tell_wrong_words};
use crate::machine::Machine;
use crate::sources::{READS, deliver_sources, flush, open};
use maildir_disk::is_failed_allocation;
use maildir_run::{RunFault, list_text, rewrite};
use std::alloc::Global;
use std::io;
use std::io::{BufWriter, Read, Write};

/// Runs the program with the words that it was started with, of which the first is its own name,
/// and returns the status. If the words could not be read, or a buffer for the output could not be
/// allocated, it says so on standard error, ends with status 1 or 2, and does nothing else.
pub fn start<M: Machine, I: Read, W: Write + Drop, E: Write>(
    machine: &mut M,
    alloc: Global,
    words: io::Result<Vec<String>>,
    input: &mut I,
    out: &mut io::Result<BufWriter<W>>,
    err: &mut E,
) -> u8
    ensures ran { IfOk words (λ all. IfOk out.old (λ was. IfOk out.new (λ is.
        RanOn M.at (drop 1 (map string_bytes all.items)) result machine.old machine.new
        (streams (I.remaining input.old) (writer_contents W.contents was) (E.contents err.old))
        (streams (I.remaining input.new) (writer_contents W.contents is)
        (E.contents err.new))))) }
    ensures output { OnOk out.old (IsOk out.new) }
    ensures handed { result ≡ 0 → IfOk out.new (λ is. writer_buffer is ≡ []) }
    ensures no_words { IfErr words
        (λ error. RefusesWords error result (E.contents err.old) (E.contents err.new)) }
    ensures no_output { OnOk words (IfErr out.old
        (λ error. RefusesWords error result (E.contents err.old) (E.contents err.new))) }
    ensures nothing { IsErr words ⊎ IsErr out.old →
        (machine.new ≡ machine.old) × (input.new ≡ input.old) × (out.new ≡ out.old) }
{
    let words = match words {
        Ok(words) => words,
        Err(error) => return refuse(&error, err),
    };
    let out = match out {
        Ok(out) => out,
        Err(error) => return refuse(error, err),
    };
    match words.split_first() {
        Some((_own_name, rest)) => run(machine, alloc, rest, input, out, err),
        None => run(machine, alloc, &[], input, out, err),
    }
}

/// Does the program's work, and returns its status: 0 if it is done; 1 after a fault and 2 for
/// wrong words, each with one line on standard error, or a prefix of it. A fault in writing to
/// standard error changes no status. The output goes through the buffer, which is flushed once the
/// work is done.
pub fn run<M: Machine, I: Read, W: Write + Drop, E: Write>(
    machine: &mut M,
    alloc: Global,
    words: &[String],
    input: &mut I,
    out: &mut BufWriter<W>,
    err: &mut E,
) -> u8
    ensures ran { RanOn M.at (map string_bytes words.now) result machine.old machine.new
        (streams (I.remaining input.old) (writer_contents W.contents out.old) (E.contents err.old))
        (streams (I.remaining input.new) (writer_contents W.contents out.new)
        (E.contents err.new)) }
    ensures handed { result ≡ 0 → writer_buffer out.new ≡ [] }
    ensures untouched { result ≡ 2 → out.new ≡ out.old }
{
    let Some(command) = Command::of(words) else {
        let _ = tell_wrong_words(err);
        return 2;
    };
    let answer = match command {
        Command::Write(form, file) => write_out(machine, alloc, form, file, input, out),
        Command::Convert(maildir, files) => {
            deliver_sources(machine, alloc, maildir, files, input, out)
        }
    };
    // What was written is flushed after a fault too.
    match answer.and(flush(out)) {
        Ok(()) => 0,
        Err(fault) => {
            let _ = tell_fault(fault, err);
            1
        }
    }
}

// Writes to standard error why there are no words, or no buffer for the output, and returns the
// status: 1 if an allocation failed, otherwise 2, since words that are not UTF-8 are of no form.
fn refuse<E: Write>(error: &io::Error, err: &mut E) -> u8
    ensures { RefusesWords error.now result (E.contents err.old) (E.contents err.new) }
{
    if is_failed_allocation(error) {
        let _ = tell_fault(Fault::Run(RunFault::OutOfMemory), err);
        return 1;
    }
    let _ = tell_wrong_words(err);
    2
}

// Writes the messages of the file, or of standard input if no file is named.
fn write_out<M: Machine, I: Read, W: Write>(
    machine: &mut M,
    alloc: Global,
    form: Form,
    file: Option<&str>,
    input: &mut I,
    out: &mut W,
) -> Result<(), Fault>
    ensures does { let at = M.at in
        Serves (ToWrite form (name_of file.entry)) result
        (seen_with (at machine.old) (I.remaining input.old) (W.contents out.old))
        (seen_with (at machine.new) (I.remaining input.new) (W.contents out.new)) }
{
    match file {
        None => write_text(alloc, form, input, out)?,
        Some(path) => write_text(alloc, form, &mut open(machine, path)?, out)?,
    };
    Ok(())
}

// Writes the messages of a text, and returns how many there are.
fn write_text<R: Read, W: Write>(
    alloc: Global,
    form: Form,
    source: &mut R,
    out: &mut W,
) -> Result<u64, RunFault>
    ensures { WritesMessages (output_of form) (R.remaining source.old) (R.remaining source.new)
        (W.contents out.old) (W.contents out.new) (2 ^ 40) result }
{
    match form {
        Form::Regular => rewrite(alloc, source, out, READS),
        Form::List => list_text(alloc, source, out, READS),
    }
}
