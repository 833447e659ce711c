//! The words for the faults that no program has yet: it has `OutOfFuel`, `NoRight`, `NotCovered`, `Lent` and
//! `Unwritten` alone.

use oss_report::fault_line;
use oss_syntax::FaultKind;
use std::test::Fail;

#[test]
fn faults_have_their_words(rt: HostRuntime) -> Result<(), Fail> {
    let alloc = rt.alloc();
    for (kind, line) in [
        (FaultKind::TooDeep, "fault: TooDeep at line 12\n"),
        (FaultKind::TooManyTasks, "fault: TooManyTasks at line 12\n"),
        (FaultKind::DivideByZero, "fault: DivideByZero at line 12\n"),
        (FaultKind::ShiftRange, "fault: ShiftRange at line 12\n"),
        (FaultKind::OutOfRange, "fault: OutOfRange at line 12\n"),
        (FaultKind::MixedAccess, "fault: MixedAccess at line 12\n"),
        (FaultKind::Released, "fault: Released at line 12\n"),
        (FaultKind::BadReduction, "fault: BadReduction at line 12\n"),
    ] {
        assert!(rt;
            fault_line(alloc, kind, 12)?.as_slice() == line.as_bytes(),
            "{line}"
        );
    }
    Ok(())
}
