// The sources of a conversion, each with a run of its own and its line.
ghost use Rattle.std.specs.Prelude.{◌≡◌, ◌⊎◌, ◌+◌, ◌*◌, [], map, string_bytes};
ghost use Rattle.std.specs.Prelude.{IfErr, OnOk};
ghost use Rattle.std.specs.Io.Buffered.{writer_buffer, writer_contents};
ghost use Rattle.std.specs.Io.KnownBytes.{Keeps};
ghost use Rattle.mbox_text.specs.Writing.{Writes};
ghost use Rattle.maildir_run.specs.Counting.{capped};
ghost use Rattle.maildir_commands.specs.Opening.{OpensSource};
ghost use Rattle.maildir_commands.specs.Report.{report_line};
ghost use Rattle.maildir_commands.specs.Seen.{seen_with};
ghost use Rattle.maildir_commands.specs.Sources.{DeliversSource, seen_folder};
ghost use Rattle.maildir_commands.specs.Words.Request.{ToConvert};
ghost use Rattle.maildir_commands.specs.Private.Report.{DeliversFiles};
ghost use Rattle.maildir_commands.specs.Private.Serving.{Serves};

use crate::fault::Fault;
use crate::line::report_line;
use crate::machine::Machine;
use maildir_disk::{DiskFolder, System};
use maildir_run::{Folder, Report, RunFault, convert};
use mbox_text::write_bytes;
use std::alloc::Global;
use std::io::{BufWriter, Read, Write};

/// How many reads a run makes at most.
pub(crate) const READS: u64 = 1 << 40;

/// Delivers the messages of each file, or of standard input if no file is named, into the Maildir.
/// The first file is opened before the Maildir, so that a file that cannot be opened leaves no
/// folder behind.
pub(crate) fn deliver_sources<M: Machine, I: Read, W: Write + Drop>(
    machine: &mut M,
    alloc: Global,
    maildir: &str,
    files: &[String],
    input: &mut I,
    out: &mut BufWriter<W>,
) -> Result<(), Fault>
    ensures does { let at = M.at in
        Serves (ToConvert maildir.now (map string_bytes files.now)) result
        (seen_with (at machine.old) (I.remaining input.old) (writer_contents W.contents out.old))
        (seen_with (at machine.new) (I.remaining input.new) (writer_contents W.contents out.new)) }
{
    let Some((first, rest)) = files.split_first() else {
        let mut folder = DiskFolder::new(machine.open_maildir(maildir)?);
        let answer = deliver(alloc, &mut folder, input, out);
        machine.close_maildir(maildir, folder.into_system());
        return answer;
    };
    let mut source = open(machine, first.as_str())?;
    let mut folder = DiskFolder::new(machine.open_maildir(maildir)?);
    let answer = deliver_each(machine, alloc, &mut folder, &mut source, rest, out);
    machine.close_maildir(maildir, folder.into_system());
    answer
}

// Delivers the messages of the source, and then of each further file.
fn deliver_each<M: Machine, W: Write + Drop>(
    machine: &mut M,
    alloc: Global,
    folder: &mut DiskFolder<M::Maildir>,
    first: &mut M::Source,
    rest: &[String],
    out: &mut BufWriter<W>,
) -> Result<(), Fault>
    ensures does { let at = M.at in let folder_at = seen_folder M.Maildir.System in
        DeliversFiles (M.Source.remaining first.old) (map string_bytes rest.now) result
        (at machine.old) (at machine.new)
        (folder_at folder.old) (folder_at folder.new) (writer_contents W.contents out.old)
        (writer_contents W.contents out.new) }
{
    deliver(alloc, folder, first, out)?;
    for path in rest {
        let mut source = open(machine, path.as_str())?;
        deliver(alloc, folder, &mut source, out)?;
    }
    Ok(())
}

/// Delivers the messages of one source by a run of its own, and syncs the Maildir. Only then it
/// prints the run's line and flushes it, so that each printed line stays true whatever becomes of
/// the next source, and through a power cut (this project's own rule).
///
/// Errors: the fault of the run; the fault of the sync, as that of the folder call after the run's
/// last one, or `OutOfMemory`; or `OutputFault` if the line could not be written.
pub fn deliver<S: System, I: Read, W: Write + Drop>(
    alloc: Global,
    folder: &mut DiskFolder<S>,
    source: &mut I,
    out: &mut BufWriter<W>,
) -> Result<(), Fault>
    ensures does { let at = seen_folder S.System in
        DeliversSource result (I.remaining source.old) (I.remaining source.new)
        (writer_contents W.contents out.old) (writer_contents W.contents out.new) (at folder.old)
        (at folder.new) }
    ensures handed { OnOk result (writer_buffer out.new ≡ []) }
{
    let report = convert(alloc, folder, source, READS)?;
    folder
        .sync()
        .map_err(|fault| Fault::of_sync(fault, calls_of(report)))?;
    print_report(report, out)
}

// How many calls of the folder a run with this report made: three listings, a removal for each file
// that was swept, and a write and a placement for each message that was placed.
fn calls_of(report: Report) -> u64
    ensures { result ≡ capped (3 + report.swept + 2 * report.placed) }
{
    report
        .placed
        .saturating_mul(2)
        .saturating_add(report.swept)
        .saturating_add(3)
}

// Prints the line of a run, and flushes it.
fn print_report<W: Write + Drop>(report: Report, out: &mut BufWriter<W>) -> Result<(), Fault>
    ensures printed { Writes (writer_contents W.contents out.old)
        (writer_contents W.contents out.new) result (report_line report) }
    ensures handed { OnOk result (writer_buffer out.new ≡ []) }
    ensures causes { IfErr result (λ fault. fault ≡ Fault.Run RunFault.OutputFault) }
{
    match write_bytes(report_line(report).as_slice(), out) {
        Ok(()) => flush(out),
        Err(_) => Err(Fault::Run(RunFault::OutputFault)),
    }
}

/// Opens a file that is named as a source.
pub(crate) fn open<M: Machine>(machine: &mut M, path: &str) -> Result<M::Source, Fault>
    ensures opens { OpensSource M.Source.remaining (λ fault. fault ≡ Fault.Source) path.now result
        (M.at machine.old) (M.at machine.new) }
    ensures causes { IfErr result (λ fault. (fault ≡ Fault.Source) ⊎
        (fault ≡ Fault.Run RunFault.OutOfMemory)) }
{
    match machine.open_source(path) {
        Ok(source) => Ok(source),
        Err(error) => Err(Fault::of_source(&error)),
    }
}

/// Flushes all that was written.
pub(crate) fn flush<W: Write + Drop>(out: &mut BufWriter<W>) -> Result<(), Fault>
    ensures same { Keeps (writer_contents W.contents out.old) (writer_contents W.contents out.new) }
    ensures handed { OnOk result (writer_buffer out.new ≡ []) }
    ensures causes { IfErr result (λ fault. fault ≡ Fault.Run RunFault.OutputFault) }
{
    out.flush().map_err(|_| RunFault::OutputFault)?;
    Ok(())
}
