//! The messages of two types of faults. A run has lines of its own for them, so only another caller can show these.

use std::test::Fail;
use undo_ring::undo_fault::UndoFault;
use why_report::why_fault::WhyFault;

#[test]
fn undo_faults(rt: HostRuntime) -> Result<(), Fail> {
    for (fault, message) in [
        (UndoFault::Nothing, "there is no edit to undo or to redo"),
        (UndoFault::Memory, "out of memory"),
    ] {
        let told = format!(in rt.alloc(); "{fault}")?;
        assert_eq!(rt; told.as_str(), message);
    }
    Ok(())
}

#[test]
fn why_faults(rt: HostRuntime) -> Result<(), Fail> {
    for (fault, message) in [
        (WhyFault::NoElement, "the path names no element"),
        (WhyFault::WriteFault, "a write failed"),
        (WhyFault::Memory, "out of memory"),
    ] {
        let told = format!(in rt.alloc(); "{fault}")?;
        assert_eq!(rt; told.as_str(), message);
    }
    Ok(())
}
