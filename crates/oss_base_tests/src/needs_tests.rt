//! What clauses lack: the worked examples of the definitions, as words of a program.

use oss_needs::{Clause, Demand, Given, Lack, Need};
use oss_syntax::{Mode, Op};
use std::process::Abort;

/// `in(x)`, `out(x)`, `inout(x)`, and with weak before them.
fn clause(mode: Mode, strong: bool, fresh: bool) -> Clause {
    Clause {
        mode,
        strong,
        fresh,
    }
}

/// What a task asks that does this, in this order.
fn need_of(demands: &[Demand]) -> Need {
    let mut need = Need::none();
    for demand in demands {
        need = need.with(*demand);
    }
    need
}

/// The clauses lack nothing.
fn is_enough(lack: Lack) -> bool {
    matches!(lack, Lack::Nothing)
}

/// The clauses lack this one, beside what they say.
fn lacks(lack: Lack, wanted: Clause) -> bool {
    match lack {
        Lack::Adds(clause) => clause == wanted,
        Lack::Nothing | Lack::Replaces(_) => false,
    }
}

/// The clauses have to give way to this one.
fn wants(lack: Lack, wanted: Clause) -> bool {
    match lack {
        Lack::Replaces(clause) => clause == wanted,
        Lack::Nothing | Lack::Adds(_) => false,
    }
}

#[test]
fn tasks_without_a_clause(rt: HostRuntime) {
    let read = clause(Mode::Read, true, false);
    let rows = [
        (
            [Demand::Store, Demand::Load],
            clause(Mode::Write, true, true),
        ),
        (
            [Demand::Load, Demand::Store],
            clause(Mode::Write, true, false),
        ),
        ([Demand::Wait, Demand::Load], read),
        (
            [Demand::Wait, Demand::Wait],
            clause(Mode::Read, false, false),
        ),
        (
            [Demand::Wait, Demand::Create(read)],
            clause(Mode::Read, false, false),
        ),
        (
            [Demand::Release(Mode::Write), Demand::Wait],
            clause(Mode::Write, false, false),
        ),
        (
            [Demand::Fold(Op::Add), Demand::Fold(Op::Add)],
            clause(Mode::Fold(Op::Add), true, false),
        ),
        (
            [Demand::Fold(Op::Add), Demand::Fold(Op::Or)],
            clause(Mode::Write, true, false),
        ),
    ];
    for (demands, wanted) in rows {
        assert!(&rt; lacks(need_of(&demands).lack(Given::Nothing), wanted));
    }
    assert!(&rt; is_enough(Need::none().lack(Given::Nothing)));
    assert!(&rt; Need::none().mended(Given::Nothing).is_none());
}

#[test]
fn clauses_that_read_or_write(rt: HostRuntime) {
    let read = clause(Mode::Read, true, false);
    let write = clause(Mode::Write, true, false);
    let fresh = clause(Mode::Write, true, true);
    let weak_write = clause(Mode::Write, false, false);
    let rows = [
        (read, [Demand::Load, Demand::Store], write),
        (read, [Demand::Store, Demand::Load], fresh),
        (weak_write, [Demand::Wait, Demand::Load], read),
        (weak_write, [Demand::Load, Demand::Store], write),
        (fresh, [Demand::Load, Demand::Store], read),
        (fresh, [Demand::Fold(Op::Add), Demand::Store], read),
        (
            clause(Mode::Read, false, false),
            [Demand::Wait, Demand::Create(write)],
            weak_write,
        ),
    ];
    for (given, demands, wanted) in rows {
        assert!(&rt; lacks(need_of(&demands).lack(Given::Says(given)), wanted));
    }
    let enough = [
        (read, [Demand::Load, Demand::Create(read)]),
        (fresh, [Demand::Store, Demand::Load]),
        (write, [Demand::Fold(Op::Xor), Demand::Release(Mode::Read)]),
        (weak_write, [Demand::Create(write), Demand::Wait]),
    ];
    for (given, demands) in enough {
        assert!(&rt; is_enough(need_of(&demands).lack(Given::Says(given))));
    }
}

#[test]
fn clauses_of_reductions(rt: HostRuntime) {
    let sum = clause(Mode::Fold(Op::Add), true, false);
    let weak_sum = clause(Mode::Fold(Op::Add), false, false);
    let both = need_of(&[Demand::Fold(Op::Add), Demand::Store]);
    assert!(&rt;
        wants(
            both.lack(Given::Says(sum)),
            clause(Mode::Write, true, false)
        )
    );
    let other = need_of(&[Demand::Fold(Op::Or)]);
    assert!(&rt;
        wants(
            other.lack(Given::Says(sum)),
            clause(Mode::Fold(Op::Or), true, false)
        )
    );
    let own = need_of(&[Demand::Fold(Op::Add)]);
    assert!(&rt; lacks(own.lack(Given::Says(weak_sum)), sum));
    assert!(&rt; is_enough(own.lack(Given::Says(sum))));
    assert!(&rt; wants(own.lack(Given::Mixed), sum));
    assert!(&rt;
        wants(
            Need::none().lack(Given::Mixed),
            clause(Mode::Read, false, false)
        )
    );
}

#[test]
fn mended_clauses(rt: HostRuntime) {
    let read = clause(Mode::Read, true, false);
    let fresh = clause(Mode::Write, true, true);
    let write = clause(Mode::Write, true, false);
    let first = need_of(&[Demand::Store]);
    assert!(&rt; first.mended(Given::Says(read)) == Some(write));
    assert!(&rt; first.mended(Given::Nothing) == Some(fresh));
    assert!(&rt; need_of(&[Demand::Load]).mended(Given::Says(fresh)) == Some(write));
}
