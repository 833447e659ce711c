//! Schedules and traces, worked by hand.

use oss_model::point_text;
use oss_sched::{ScheduleRefused, TextMove, WaveRecord, read_schedule, schedule_text};
use oss_syntax::List;
use std::alloc::Global;
use std::process::Abort;
use std::test::Fail;

/// The moves of a text that is a schedule.
fn moves_of(rt: &impl Abort, alloc: Global, text: &[u8]) -> List<TextMove> {
    assert!(rt; text.len() <= 16_777_216);
    match read_schedule(alloc, text) {
        Ok(moves) => moves,
        Err(_) => panic!(rt; "the text is refused"),
    }
}

/// The waves with these lines of moves are written as this text.
fn assert_written(
    rt: &impl Abort,
    alloc: Global,
    waves: &[&[u8]],
    tasks: u64,
    widest: u64,
    text: &[u8],
) -> Result<(), Fail> {
    let mut made = List::new(alloc);
    for wave in waves {
        made.push(moves_of(rt, alloc, wave))?;
    }
    let ran = WaveRecord {
        waves: made,
        tasks,
        widest,
    };
    let written = schedule_text(alloc, &ran)?;
    assert!(rt; written.as_slice() == text);
    Ok(())
}

/// The number of the first wrong line of a text, and 0 where it has none.
fn wrong_line(rt: &impl Abort, alloc: Global, text: &[u8]) -> u32 {
    assert!(rt; text.len() <= 16_777_216);
    match read_schedule(alloc, text) {
        Ok(_) => 0,
        Err(ScheduleRefused::Line(number)) => number,
        Err(ScheduleRefused::Memory(_)) => 0,
    }
}

/// Two tasks that a weak task creates, each with its half of the cells.
const TWO_HALVES: &[u8] =
    b"# wave 1\nstep 0 3\n# wave 2\nstep 0.0 5\nlet 0.0 0 4\n# wave 3\nstep 0.0.0 5\nstep 0.0.1 5\nlet 0.0.0 0 2\nlet 0.0.1 2 2\n# wave 4\nstep 0 8\n# tasks 4 waves 4 widest 2\n";

/// A task that gives up half of its cells before its end.
const EARLY_RELEASE: &[u8] =
    b"# wave 1\nstep 0 5\n# wave 2\nstep 0.0 7\nlet 0.0 0 2\n# wave 3\nstep 0.0 4\nstep 0.1 5\nlet 0.0 2 2\nlet 0.1 0 2\nlet 0.1 4 1\n# tasks 3 waves 3 widest 2\n";

#[test]
fn traces_are_written(rt: HostRuntime) -> Result<(), Fail> {
    let alloc = rt.alloc();
    assert_written(
        &rt,
        alloc,
        &[
            b"step 0 3".as_slice(),
            b"step 0.0 5\nlet 0.0 0 4".as_slice(),
            b"step 0.0.0 5\nstep 0.0.1 5\nlet 0.0.0 0 2\nlet 0.0.1 2 2".as_slice(),
            b"step 0 8".as_slice(),
        ],
        4,
        2,
        TWO_HALVES,
    )?;
    assert_written(
        &rt,
        alloc,
        &[
            b"step 0 5".as_slice(),
            b"\nstep 0.0 7\n\nlet 0.0 0 2\n".as_slice(),
            b"step 0.0 4\nstep 0.1 5\nlet 0.0 2 2\nlet 0.1 0 2\nlet 0.1 4 1\n".as_slice(),
        ],
        3,
        2,
        EARLY_RELEASE,
    )
}

#[test]
fn traces_are_read(rt: HostRuntime) -> Result<(), Fail> {
    let alloc = rt.alloc();
    assert!(rt; moves_of(&rt, alloc, TWO_HALVES).len() == 8);
    assert!(rt; moves_of(&rt, alloc, EARLY_RELEASE).len() == 8);
    assert!(rt; moves_of(&rt, alloc, b"").is_empty());
    assert!(rt; moves_of(&rt, alloc, b"#\n\njoin 0.1 1048575 1048576").len() == 1);
    Ok(())
}

#[test]
fn wrong_lines_are_told(rt: HostRuntime) -> Result<(), Fail> {
    let alloc = rt.alloc();
    let wrong = [
        b"step 0 0".as_slice(),
        b"step 0.65536 1".as_slice(),
        b"step 1 1".as_slice(),
        b"let 0.0 1048576 1".as_slice(),
        b"step  0 1".as_slice(),
        b"step 0 1 ".as_slice(),
        b"step 00 1".as_slice(),
        b"step 0 01".as_slice(),
        b"step 0 +1".as_slice(),
        b"step 0 18446744073709551616".as_slice(),
        b"let 0.0 0 1048577".as_slice(),
        b"let 0.0 0".as_slice(),
        b"step 0 1 1".as_slice(),
        b"step\t0 1".as_slice(),
        b"step 0 1\r".as_slice(),
        b" # wave 2".as_slice(),
        b"halt 0 1".as_slice(),
    ];
    for line in wrong {
        assert!(rt; wrong_line(&rt, alloc, line) == 1);
        let mut text = Vec::from_slice(alloc, b"# wave 1\n\nstep 0 18446744073709551615\n")?;
        text.extend_from_slice(line)?;
        text.extend_from_slice(b"\nstep 0 0\n")?;
        assert!(rt; wrong_line(&rt, alloc, text.as_slice()) == 4);
    }
    Ok(())
}

#[test]
fn a_point_has_at_most_65_numbers(rt: HostRuntime) -> Result<(), Fail> {
    let alloc = rt.alloc();
    let numbers = [0; 66];
    for count in [65, 66] {
        let point = point_text(alloc, &numbers[..count])?;
        let mut text = Vec::from_slice(alloc, b"step ")?;
        text.extend_from_slice(point.as_slice())?;
        text.extend_from_slice(b" 1")?;
        let refused = wrong_line(&rt, alloc, text.as_slice()) == 1;
        assert!(rt; refused == (count == 66));
    }
    Ok(())
}
