//! Whether links are a chain, by the record of a run, and how many ticks they have.

ghost use Rattle.std.specs.Prelude.{◌≡◌, ◌+◌, ◌-◌, ◌≤◌, ◌&&◌, nat_le, nat_lt, suc, if◌then◌else◌, Some, None};
ghost use Rattle.oss_span_check.specs.Holding.{act_waits, are_numbered, cell_waits, goes_on, holds, is_tick_in, is_told, last_act, last_of, link_ticks, link_waits, point_of};
ghost use Rattle.oss_span_check.specs.Holding.{ticks_of, ticks_with};
ghost use Rattle.oss_span_check.specs.Queries.{has_done};
ghost use Rattle.oss_span_check.specs.declared.links.Last.TheVariants as lasts;

use crate::note::Note;
use crate::queries::{has_done, is_of};
use crate::record::Record;
use crate::sought::Sought;
use crate::tasks::has_access;
use crate::waiting::{act_waits_act, act_waits_cell, cell_waits_act, cell_waits_cell, is_join};
use oss_span::Link;

/// The last event of a link.
#[derive(Clone, Copy)]
pub(crate) enum Last {
    /// The act with this number.
    Act(u64),
    /// The giving of this cell.
    Cell(u32),
}

/// The point of the task of a link.
fn point_of(link: &Link) -> &[u16]
    ensures { result.now ≡ point_of link.now }
{
    match link {
        Link::Acts(point, _, _) => point.as_slice(),
        Link::Let(point, _) => point.as_slice(),
        Link::Join(point, _) => point.as_slice(),
    }
}

/// Whether so many acts from one on are numbered.
fn are_numbered(first: u64, count: u64) -> bool
    ensures { result ≡ are_numbered first count }
{
    count <= u64::MAX - first
}

/// The last of so many acts from this one on, if the task has done them, they are numbered, and there are some.
fn last_act(r: &Record, p: &[u16], first: u64, count: u64) -> Option<Last>
    ensures { result ≡ last_act r.now p.now first count }
{
    if count >= 1 && are_numbered(first, count) && has_done(r.notes.as_slice(), p, first, count) {
        Some(Last::Act(first + (count - 1)))
    } else {
        None
    }
}

/// The giving of a cell, if the test is passed.
fn cell_if(is: bool, cell: u32) -> Option<Last>
    ensures { result ≡ if is then Some (lasts.Cell cell) else None }
{
    if is { Some(Last::Cell(cell)) } else { None }
}

/// The last event of a link, if all its events happened, and there are some.
fn last_of(r: &Record, link: &Link) -> Option<Last>
    ensures { result ≡ last_of r.now link.now }
{
    match link {
        Link::Acts(point, first, count) => last_act(r, point.as_slice(), *first, *count),
        Link::Let(point, cell) => cell_if(
            has_access(r.made.as_slice(), point.as_slice(), *cell)
                && !is_join(r, point.as_slice(), *cell),
            *cell,
        ),
        Link::Join(point, cell) => cell_if(
            has_access(r.made.as_slice(), point.as_slice(), *cell)
                && is_join(r, point.as_slice(), *cell),
            *cell,
        ),
    }
}

/// Whether an act waits for an event.
fn act_waits(r: &Record, p: &[u16], n: u64, q: &[u16], last: Last) -> bool
    ensures { result ≡ act_waits r.now p.now n q.now last }
{
    match last {
        Last::Act(m) => act_waits_act(r, p, n, q, m),
        Last::Cell(cell) => act_waits_cell(r, p, n, q, cell),
    }
}

/// Whether a cell that is given up waits for an event.
fn cell_waits(r: &Record, p: &[u16], cell: u32, q: &[u16], last: Last) -> bool
    ensures { result ≡ cell_waits r.now p.now cell q.now last }
{
    match last {
        Last::Act(m) => cell_waits_act(r, p, cell, q, m),
        Last::Cell(other) => cell_waits_cell(r, p, cell, q, other),
    }
}

/// Whether the first event of a link waits for an event.
fn link_waits(r: &Record, link: &Link, q: &[u16], last: Last) -> bool
    ensures { result ≡ link_waits r.now link.now q.now last }
{
    match link {
        Link::Acts(point, n, _) => act_waits(r, point.as_slice(), *n, q, last),
        Link::Let(point, cell) => cell_waits(r, point.as_slice(), *cell, q, last),
        Link::Join(point, cell) => cell_waits(r, point.as_slice(), *cell, q, last),
    }
}

/// Whether links go on from an event of the task with this point.
fn goes_on(r: &Record, q: &[u16], last: Last, links: &[Link]) -> bool
    ensures { result ≡ goes_on r.now q.now last links.now }
{
    let mut point = q;
    let mut event = last;
    for link in links {
        if !link_waits(r, link, point, event) {
            return false;
        }
        match last_of(r, link) {
            None => return false,
            Some(e) => event = e,
        }
        point = point_of(link);
    }
    true
}

/// Whether links are a chain of events.
fn holds(r: &Record, links: &[Link]) -> bool
    ensures { result ≡ holds r.now links.now }
{
    match links.split_first() {
        None => true,
        Some((link, rest)) => match last_of(r, link) {
            None => false,
            Some(event) => goes_on(r, point_of(link), event, rest),
        },
    }
}

/// Whether a note is of a tick of a task, one of so many acts from one on.
fn is_tick_in(p: &[u16], first: u64, count: u64, x: &Note) -> bool
    ensures { result ≡ is_tick_in p.now first count x.now }
{
    is_of(Sought::Tick, p, x) && (first <= x.number && x.number - first < count)
}

/// So many ticks, and those of these notes. The number stays at its greatest value.
fn ticks_with(p: &[u16], first: u64, count: u64, n: u64, notes: &[Note]) -> u64
    ensures { result ≡ ticks_with p.now first count n notes.now }
{
    let mut ticks = n;
    for x in notes {
        if is_tick_in(p, first, count, x) {
            ticks = ticks.saturating_add(1);
        }
    }
    ticks
}

/// So many ticks, and those of a link.
fn link_ticks(r: &Record, n: u64, link: &Link) -> u64
    ensures { result ≡ link_ticks r.now n link.now }
{
    match link {
        Link::Acts(point, first, count) => {
            ticks_with(point.as_slice(), *first, *count, n, r.notes.as_slice())
        }
        Link::Let(_, _) => n,
        Link::Join(_, _) => n,
    }
}

/// The ticks of links.
fn ticks_of(r: &Record, links: &[Link]) -> u64
    ensures { result ≡ ticks_of r.now 0 links.now }
{
    let mut ticks = 0;
    for link in links {
        ticks = link_ticks(r, ticks, link);
    }
    ticks
}

/// Whether links are a chain with so many ticks.
pub(crate) fn is_told(r: &Record, links: &[Link], ticks: u64) -> bool
    ensures { result ≡ is_told r.now links.now ticks }
{
    holds(r, links) && ticks_of(r, links) == ticks
}
