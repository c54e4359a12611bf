// The lines that the program prints, each in a buffer that has room for it.
ghost use Rattle.std.specs.Prelude.{◌≡◌, ◌≤◌, ◌<◌, ◌+◌, ◌++◌, codes, length, IfErr};
ghost use Rattle.std.specs.Fmt.{decimal};
ghost use Rattle.arrayvec.specs.ArrayVec.{array_vec_len};
ghost use Rattle.mbox_text.specs.Writing.{Writes};
ghost use Rattle.maildir_commands.specs.Faults.{fault_text, told};
ghost use Rattle.maildir_commands.specs.Report.{report_line};

use crate::fault::Fault;
use arrayvec::ArrayVec;
use itoa::Buffer;
use maildir_run::{Report, RunFault};
use mbox_text::{TextFault, write_bytes};
use std::io::Write;

// The length of the line of a report with four numbers of 20 digits.
const REPORT_BYTES: usize = 115;

// The length of the longest line of a fault, that of `Locked`.
const FAULT_BYTES: usize = 57;

/// The line of a report. It allocates nothing, and its buffer always has room.
pub(crate) fn report_line(report: Report) -> ArrayVec<u8, REPORT_BYTES>
    ensures { result.items ≡ report_line report }
{
    let mut line = ArrayVec::new();
    add(&mut line, "messages ");
    add_number(&mut line, report.messages);
    add(&mut line, ", there ");
    add_number(&mut line, report.there);
    add(&mut line, ", placed ");
    add_number(&mut line, report.placed);
    add(&mut line, ", swept ");
    add_number(&mut line, report.swept);
    add(&mut line, "\n");
    line
}

/// Writes the line of a fault to standard error, in one piece.
///
/// Errors: `WriteFault` if the writer failed or took no byte; then a prefix of the line was taken.
pub(crate) fn tell_fault<E: Write>(fault: Fault, err: &mut E) -> Result<(), TextFault>
    ensures told { Writes (E.contents err.old) (E.contents err.new) result
        (told (fault_text fault)) }
    ensures causes { IfErr result (λ fault. fault ≡ TextFault.WriteFault) }
{
    write_bytes(line_of(fault).as_slice(), err)
}

/// Writes to standard error that the words are of no form, in one piece.
///
/// Errors: `WriteFault` if the writer failed or took no byte; then a prefix of the line was taken.
pub(crate) fn tell_wrong_words<E: Write>(err: &mut E) -> Result<(), TextFault>
    ensures told { Writes (E.contents err.old) (E.contents err.new) result
        (told (codes "wrong words")) }
    ensures causes { IfErr result (λ fault. fault ≡ TextFault.WriteFault) }
{
    write_bytes(b"mbox2maildir: wrong words\n", err)
}

// The line of a fault. It allocates nothing, and its buffer always has room.
fn line_of(fault: Fault) -> ArrayVec<u8, FAULT_BYTES>
    ensures { result.items ≡ told (fault_text fault) }
{
    let mut told = ArrayVec::new();
    add(&mut told, "mbox2maildir: ");
    add_fault(&mut told, fault);
    add(&mut told, "\n");
    told
}

// Appends the text of a fault.
fn add_fault(line: &mut ArrayVec<u8, FAULT_BYTES>, fault: Fault)
    requires { array_vec_len line.old ≡ 14 }
    ensures text { line.new.items ≡ line.old.items ++ fault_text fault }
    ensures short { array_vec_len line.new < 57 }
{
    match fault {
        Fault::Source => add(line, "cannot open the source"),
        Fault::Folder => add(line, "cannot open the folder"),
        Fault::Locked => add(line, "another converter is at work in the folder"),
        Fault::Run(RunFault::NoFromLine) => add(line, "no From line at the start"),
        Fault::Run(RunFault::ReadFault) => add(line, "the source could not be read"),
        Fault::Run(RunFault::TooManyReads) => add(line, "too many reads"),
        Fault::Run(RunFault::FolderAbsent) => add(line, "a file in tmp is gone"),
        Fault::Run(RunFault::FolderFailed(number)) => {
            add(line, "folder call ");
            add_number(line, number);
            add(line, " failed");
        }
        Fault::Run(RunFault::OutputFault) => add(line, "the output could not be written"),
        Fault::Run(RunFault::OutOfMemory) => add(line, "out of memory"),
    }
}

// Appends text to a line.
fn add<const ROOM: usize>(line: &mut ArrayVec<u8, ROOM>, text: &str)
    requires { array_vec_len line.old + length text.now ≤ ROOM }
    ensures { line.new.items ≡ line.old.items ++ text.now }
{
    line.try_extend_from_slice(text.as_bytes()).unwrap();
}

// Appends a number to a line, in decimal: 20 digits at most.
fn add_number<const ROOM: usize>(line: &mut ArrayVec<u8, ROOM>, number: u64)
    requires { array_vec_len line.old + 20 ≤ ROOM }
    ensures added { line.new.items ≡ line.old.items ++ decimal number }
    ensures short { array_vec_len line.new ≤ array_vec_len line.old + 20 }
{
    add(line, Buffer::new().format(number));
}
