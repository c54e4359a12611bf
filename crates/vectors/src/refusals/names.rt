// Targets of bodies.
use crate::targets::targets;
use std::test::Fail;

#[test]
fn namer_again(rt: HostRuntime) -> Result<(), Fail> {
    targets(rt.alloc(), true)
}
