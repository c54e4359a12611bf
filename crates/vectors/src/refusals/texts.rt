// From_ lines that are built, and texts that are taken apart.
ghost use Rattle.std.specs.Prelude.{◌<◌};

use crate::from_lines::{BUILT, build};
use crate::messages::{are_first, feed_pieces, finish_into, same_answer};
use crate::rows::same;
use crate::splitting::refuses;
use crate::texts::{Message, REFUSED, texts};
use mbox_text::{Splitter, TextFault, split_all};
use std::alloc::Global;
use std::test::Fail;

#[test]
fn build_from_again(rt: HostRuntime) -> Result<(), Fail> {
    for &row in BUILT {
        build(rt.alloc(), row, true)?;
    }
    Ok(())
}

#[test]
fn split_all_again(rt: HostRuntime) -> Result<(), Fail> {
    for text in texts() {
        let answer = match split_all(rt.alloc(), text.text) {
            Err(TextFault::OutOfMemory) => split_all(rt.alloc(), text.text),
            answer => answer,
        };
        same_answer(&text.name, answer, text.messages)?;
    }
    for &(name, text) in REFUSED {
        refuses(rt.alloc(), name, text)?;
    }
    Ok(())
}

// Whether the messages come by pieces of this size. `OutOfMemory` says that an allocation was
// refused, that a splitter which was refused answers `Failed` then, and that a prefix of the
// messages came.
fn comes(alloc: Global, text: &[u8], size: usize, want: &[Message<'_>]) -> Result<bool, TextFault>
    requires { 0 < size }
{
    let mut splitter = Splitter::new(alloc);
    let mut out = Vec::new(alloc);
    let fed = feed_pieces(&mut splitter, text, size, &mut out);
    let again = match fed {
        Ok(()) => Ok(()),
        Err(_) => splitter.feed(text, &mut out),
    };
    let end = finish_into(splitter, &mut out);
    let refused = Err(TextFault::OutOfMemory);
    let failed = Err(TextFault::Failed);
    let is_refused = (fed, again, end) == (refused, failed, failed)
        || (fed, end) == (Ok(()), refused);
    if is_refused && are_first(&out, want) {
        return Err(TextFault::OutOfMemory);
    }
    Ok(fed.is_ok() && end.is_ok() && out.len() == want.len() && are_first(&out, want))
}

// Whether the messages come, also after one more try if an allocation was refused.
fn comes_again(
    alloc: Global,
    text: &[u8],
    size: usize,
    want: &[Message<'_>],
) -> Result<bool, TextFault>
    requires { 0 < size }
{
    match comes(alloc, text, size, want) {
        Err(TextFault::OutOfMemory) => comes(alloc, text, size, want),
        answer => answer,
    }
}

#[test]
fn splitter_again(rt: HostRuntime) -> Result<(), Fail> {
    for text in texts() {
        for size in [1, 11] {
            let got = comes_again(rt.alloc(), text.text, size, text.messages);
            same(&(text.name, size), &got, &Ok(true))?;
        }
    }
    Ok(())
}
