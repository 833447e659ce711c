//! Longest chains: what `span` tells of a program is a chain for `check_chain`, which was written apart from
//! it; and no chain is one with a tick more, without one of its links, or with two of its links turned.

ghost use Rattle.std.specs.Prelude.{◌≤◌, length};

use crate::tests::programs;
use crate::tests::reading::code_of;
use oss_code::Code;
use oss_span::{Link, SpanRun, span};
use oss_span_check::check_chain;
use oss_syntax::List;
use std::process::Abort;

/// No task of these programs has so many ticks.
const FUEL: u32 = 100;

/// A copy of a link.
fn copy_of(rt: &(impl Abort + AllocGlobal), link: &Link) -> Link {
    match link {
        Link::Acts(point, first, count) => {
            Link::Acts(point.copy().expect(rt, "memory"), *first, *count)
        }
        Link::Let(point, cell) => Link::Let(point.copy().expect(rt, "memory"), *cell),
        Link::Join(point, cell) => Link::Join(point.copy().expect(rt, "memory"), *cell),
    }
}

/// The links without the one at this place.
fn without(rt: &(impl Abort + AllocGlobal), links: &[Link], left_out: usize) -> List<Link> {
    let mut kept = Vec::new(rt.alloc());
    let mut at = 0usize;
    for link in links {
        if at != left_out {
            kept.push(copy_of(rt, link)).expect(rt, "memory");
        }
        at = at.saturating_add(1);
    }
    List::from_vec(kept)
}

/// The links, the last one first.
fn turned(rt: &(impl Abort + AllocGlobal), links: &[Link]) -> List<Link> {
    let mut found = Vec::new(rt.alloc());
    for link in links {
        found.push(copy_of(rt, link)).expect(rt, "memory");
    }
    found.reverse();
    List::from_vec(found)
}

/// Whether the links are a chain with so many ticks.
fn is_chain(rt: &(impl Abort + AllocGlobal), code: &Code, links: &List<Link>, ticks: u64) -> bool
    requires { length code.now.first ≤ 1048576 }
{
    check_chain(rt.alloc(), code, FUEL, links, ticks).expect(rt, "memory")
}

/// A longest chain of a program is one for the check, and no chain is one that differs from it.
fn assert_chain(rt: &(impl Abort + AllocGlobal), text: &str, work: u64, ticks: u64) {
    let code = code_of(rt, text);
    let told: SpanRun = span(rt.alloc(), &code, FUEL).expect(rt, "memory");
    assert_eq!(rt; told.work, work, "{text}");
    assert_eq!(rt; told.span, ticks, "{text}");
    assert!(rt; is_chain(rt, &code, &told.chain, ticks), "{text}");
    assert!(rt;
        !is_chain(rt, &code, &told.chain, ticks.saturating_add(1)),
        "{text}"
    );
    let back = turned(rt, told.chain.as_slice());
    assert!(rt;
        told.chain.len() < 2 || !is_chain(rt, &code, &back, ticks),
        "{text}"
    );
    for left_out in 0..told.chain.len() {
        let less = without(rt, told.chain.as_slice(), left_out);
        assert!(rt; !is_chain(rt, &code, &less, ticks), "{left_out} of {text}");
    }
}

#[test]
fn told_chains_are_chains(rt: HostRuntime) {
    for (text, work, ticks) in [
        (programs::FLOW, 6, 4),
        (programs::DIAMOND, 10, 6),
        (programs::READERS, 10, 6),
        (programs::WEAK, 7, 5),
        (programs::REDUCTIONS, 12, 7),
    ] {
        assert_chain(&rt, text, work, ticks);
    }
}

#[test]
fn a_link_of_no_acts_is_in_no_chain(rt: HostRuntime) {
    let code = code_of(&rt, programs::FLOW);
    let none = List::new(rt.alloc());
    assert!(rt; is_chain(&rt, &code, &none, 0));
    assert!(rt; !is_chain(&rt, &code, &none, 1));
    let told = span(rt.alloc(), &code, FUEL).expect(&rt, "memory");
    let Some(Link::Acts(point, first, _)) = told.chain.as_slice().first() else {
        panic!(rt; "a chain begins with acts of main");
    };
    let empty = Link::Acts(point.copy().expect(&rt, "memory"), *first, 0);
    let links = vec![in rt.alloc(); empty].expect(&rt, "memory");
    assert!(rt; !is_chain(&rt, &code, &List::from_vec(links), 0));
}
