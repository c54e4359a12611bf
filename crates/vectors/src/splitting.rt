// Texts in memory: which messages they have.
use crate::messages::same_answer;
use crate::rows::same;
use crate::texts::{REFUSED, texts};
use mbox_text::{TextFault, split_all};
use std::alloc::Global;
use std::test::Fail;

#[test]
fn worked_texts(rt: HostRuntime) -> Result<(), Fail> {
    for text in texts() {
        same_answer(&text.name, split_all(rt.alloc(), text.text), text.messages)?;
    }
    for &(name, text) in REFUSED {
        refuses(rt.alloc(), name, text)?;
    }
    Ok(())
}

/// Splits a text whose first bytes belong to no message.
pub(crate) fn refuses(alloc: Global, name: &str, text: &[u8]) -> Result<(), Fail> {
    let fault = split_all(alloc, text).err();
    same(&name, &fault, &Some(TextFault::NoFromLine))
}
