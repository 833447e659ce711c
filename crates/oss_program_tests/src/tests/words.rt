//! Runs by waves over words, beside one over plain lists: the record is the same, also where the net is given
//! up on the way.

ghost use Rattle.std.specs.Prelude.{◌≡◌, ◌≤◌, [], false, length, ℕ};

use crate::tests::reading::code_of;
use oss_code::Code;
use oss_deps::{Deps, PlainDeps};
use oss_gen::generated;
use oss_io::NoGate;
use oss_sched::schedule_text;
use oss_syntax::Bytes;
use oss_waves::{WaveRun, waves};
use oss_word_deps::WordDeps;
use std::process::Abort;
use std::thread::Threads;

/// A task has fuel for so many ticks.
const FUEL: u32 = 1_000_000;

/// The record of a run of a code over a dependency system, as a text, and the system behind it.
fn record_over<R: Abort + AllocGlobal + Threads + Sync, D: Deps>(
    rt: &R,
    code: &Code,
    deps: D,
) -> (Bytes, D)
    requires cells { length code.now.first ≤ 1048576 }
    requires opens { (D.seen deps).opens ≡ [] }
    requires given { (t c : ℕ) → (D.seen deps).given t c ≡ false }
{
    let run = waves(rt, rt.alloc(), code, FUEL, deps, 4, &NoGate).expect(rt, "memory");
    let WaveRun {
        answer,
        waves: told,
        deps,
    } = run;
    let record = schedule_text(rt.alloc(), &told).expect(rt, "memory");
    drop((answer, told));
    (record, deps)
}

/// The code of the generated program from 7 on with 200 tasks, each with up to 16 cells.
fn generated_code(rt: &(impl Abort + AllocGlobal)) -> Code
    ensures { length result.first ≤ 1048576 }
{
    let text = generated(rt.alloc(), 7, 200).expect(rt, "memory");
    let text = String::from_utf8_lossy(rt.alloc(), text.as_slice()).expect(rt, "memory");
    code_of(rt, text.as_str())
}

#[test]
fn a_run_over_words_has_the_record_of_one_over_plain_lists(rt: HostRuntime) {
    let code = generated_code(&rt);
    let (plain, lists) = record_over(&rt, &code, PlainDeps::new(rt.alloc()));
    drop(lists);
    // a net of 64 entries is given up in the run, one of 16,777,216 is not
    let few = WordDeps::new(rt.alloc(), 64).expect(&rt, "memory");
    let (record, few) = record_over(&rt, &code, few);
    assert!(&rt; record.as_slice() == plain.as_slice());
    assert_eq!(&rt; few.entries(), None);
    drop((record, few));
    let many = WordDeps::new(rt.alloc(), 16_777_216).expect(&rt, "memory");
    let (record, many) = record_over(&rt, &code, many);
    assert!(&rt; record.as_slice() == plain.as_slice());
    assert!(&rt; many.entries().is_some());
    drop((record, many));
    drop((plain, code));
}
