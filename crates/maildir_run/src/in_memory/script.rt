// A script for the folder in memory: what other programs do before its calls, and which of its
// calls fail or come twice.
ghost use Rattle.std.specs.Prelude.{◌≡◌};
ghost use Rattle.maildir_run.specs.Script.{mode_of};

use crate::folder::Sub;

/// What another program does to the files. If its condition fails, it does nothing.
#[derive(Drop)]
pub enum Act {
    /// Moves the first name of `new` to the second of `cur`, if the first is there, the second is
    /// free and both have the same base.
    ToCur(String, String),
    /// Renames the first name of `cur` to the second, on the same conditions.
    Reflag(String, String),
    /// Removes a converter's name from `tmp`.
    DropTmp(String),
    /// Sets a file whose name is not a converter's.
    PutOther(Sub, String, Vec<u8>),
    /// Removes a file whose name is not a converter's.
    DropOther(Sub, String),
}

/// What becomes of a call.
#[derive(Clone, Copy)]
pub enum Mode {
    /// It has its effect once, and answers for it.
    Plain,
    /// It answers `Failed` without effect.
    FailBefore,
    /// It has its effect, and answers `Failed`.
    FailAfter,
    /// A write leaves the first, smaller half of its bytes in `tmp`, and answers `Failed`. Other
    /// calls fail without effect.
    Half,
    /// It has its effect twice, and answers as in `Plain`.
    Twice,
}

/// What happens at one call of a folder in memory.
#[derive(Drop)]
pub struct ScriptLine {
    /// The number of the call, counted from 1.
    pub call: u64,
    /// What other programs do before it, in this order.
    pub acts: Vec<Act>,
    /// What becomes of it. If several lines are for one call, the mode of the first one applies.
    pub mode: Mode,
}

/// The mode of a call: that of the first line with its number, and `Plain` without one. From the
/// call `fail_from` on it is `FailBefore`.
pub(crate) fn mode_of_call(lines: &[ScriptLine], fail_from: Option<u64>, call: u64) -> Mode
    ensures { result ≡ mode_of lines.now fail_from call }
{
    if let Some(first) = fail_from {
        if first <= call {
            return Mode::FailBefore;
        }
    }
    for line in lines {
        if line.call == call {
            return line.mode;
        }
    }
    Mode::Plain
}
