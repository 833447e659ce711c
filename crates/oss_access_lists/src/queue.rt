//! Openings and gifts post flags, and a loop delivers them. Who waits is a chain through a table, so a post
//! takes no memory.

ghost use Rattle.std.specs.Prelude.{◌≡◌, ◌<◌, ◌++◌, [], ◌∷◌, length, vec_capacity, false, true, IfOk, IsOk, OnOk, OnErr};
ghost use Rattle.oss_model.specs.Rights.{covers};
ghost use Rattle.oss_access_lists.specs.Steps.{IsGift, IsHung};
ghost use Rattle.oss_access_lists.specs.Tables.{AreTables, AreWithin, hang_at, IsQueue, left_in, number_at, new_hang, first_flags, last_in, next_link, opened_in, gift_flags, gave_in, wires_of, child_in, goes_up, no_marks, next_in, post_in, up_in};

use crate::hang::Hang;
use crate::marks::{
    Marks, hang_at, is_none, is_whole, marks_at, minus, no_marks, only_done, plus, put, to_child,
    to_next,
};
use oss_syntax::Mode;
use std::alloc::AllocError;

/// The number behind an access.
fn number_at(all: &[usize], at: usize) -> usize
    ensures { result ≡ number_at all.now at }
{
    match all.get(at) {
        Some(one) => *one,
        None => 0,
    }
}

/// Posts flags to an access, and puts it in front of those that wait, where nothing waited there. Answers who
/// is in front.
fn post(
    stand: &[Marks],
    posted: &mut [Marks],
    behind: &mut [usize],
    head: usize,
    at: usize,
    flags: Marks,
) -> usize
    requires within { at < length posted.old }
    requires as_many { length behind.old ≡ length posted.old }
    ensures posted { posted.new ≡ post_in stand.now posted.old at flags }
    ensures length { length behind.new ≡ length behind.old }
    ensures queue { (at ≡ 0 → ⊥) → IsQueue posted.old behind.old head → IsQueue posted.new behind.new result }
{
    let was = marks_at(posted, at);
    let now = plus(was, minus(flags, marks_at(stand, at)));
    put(posted, at, now);
    if is_none(was) {
        if is_none(now) {
            return head;
        }
        behind[at] = head;
        return at;
    }
    head
}

/// Posts what goes from an access to the next sibling.
fn send_next(
    hangs: &[Hang],
    stand: &[Marks],
    posted: &mut [Marks],
    behind: &mut [usize],
    head: usize,
    at: usize,
) -> usize
    requires within { AreWithin hangs.now (length posted.old) }
    requires as_many { length behind.old ≡ length posted.old }
    ensures posted { posted.new ≡ next_in hangs.now stand.now posted.old at }
    ensures length { length behind.new ≡ length behind.old }
    ensures queue { IsQueue posted.old behind.old head → IsQueue posted.new behind.new result }
{
    let one = hang_at(hangs, at);
    if one.next == 0 {
        return head;
    }
    let flags = to_next(one.mode, hang_at(hangs, one.next).mode, marks_at(stand, at));
    post(stand, posted, behind, head, one.next, flags)
}

/// Posts what goes to the first child.
fn send_child(
    hangs: &[Hang],
    stand: &[Marks],
    posted: &mut [Marks],
    behind: &mut [usize],
    head: usize,
    at: usize,
) -> usize
    requires within { AreWithin hangs.now (length posted.old) }
    requires as_many { length behind.old ≡ length posted.old }
    ensures posted { posted.new ≡ child_in hangs.now stand.now posted.old at }
    ensures length { length behind.new ≡ length behind.old }
    ensures queue { IsQueue posted.old behind.old head → IsQueue posted.new behind.new result }
{
    let one = hang_at(hangs, at);
    if one.child == 0 {
        return head;
    }
    let flags = to_child(
        one.mode,
        hang_at(hangs, one.child).mode,
        marks_at(stand, at),
    );
    post(stand, posted, behind, head, one.child, flags)
}

/// It is the last in the list of an access that is given up, and all of the list is done.
fn goes_up(hangs: &[Hang], stand: &[Marks], at: usize) -> bool
    ensures { result ≡ goes_up hangs.now stand.now at }
{
    let above = hang_at(hangs, hang_at(hangs, at).above);
    above.gave && above.last == at && is_whole(marks_at(stand, at))
}

/// Posts what goes up then.
fn send_up(
    hangs: &[Hang],
    stand: &[Marks],
    posted: &mut [Marks],
    behind: &mut [usize],
    head: usize,
    at: usize,
) -> usize
    requires within { AreWithin hangs.now (length posted.old) }
    requires as_many { length behind.old ≡ length posted.old }
    requires main { (hang_at hangs.now 0).gave ≡ false }
    ensures posted { posted.new ≡ up_in hangs.now stand.now posted.old at }
    ensures length { length behind.new ≡ length behind.old }
    ensures queue { IsQueue posted.old behind.old head → IsQueue posted.new behind.new result }
{
    if goes_up(hangs, stand, at) {
        return post(
            stand,
            posted,
            behind,
            head,
            hang_at(hangs, at).above,
            only_done(),
        );
    }
    head
}

/// Lets the flags that wait at the front stand, and sends on what goes from there. Answers who is in front then.
fn deliver(
    hangs: &[Hang],
    stand: &mut [Marks],
    posted: &mut [Marks],
    behind: &mut [usize],
    head: usize,
) -> usize
    requires tables { AreTables hangs.now stand.old posted.old behind.old head }
    requires waits { head ≡ 0 → ⊥ }
    ensures tables { AreTables hangs.now stand.new posted.new behind.new result }
    ensures less { left_in stand.new < left_in stand.old }
{
    let flags = plus(marks_at(stand, head), marks_at(posted, head));
    put(stand, head, flags);
    put(posted, head, no_marks());
    let rest = number_at(behind, head);
    let beside = send_next(hangs, stand, posted, behind, rest, head);
    let below = send_child(hangs, stand, posted, behind, beside, head);
    send_up(hangs, stand, posted, behind, below, head)
}

/// Delivers until nothing waits.
pub(crate) fn settle(
    hangs: &[Hang],
    stand: &mut [Marks],
    posted: &mut [Marks],
    behind: &mut [usize],
    front: usize,
)
    requires tables { AreTables hangs.now stand.old posted.old behind.old front }
    ensures tables { AreTables hangs.now stand.new posted.new behind.new 0 }
{
    let mut head = front;
    while head != 0 {
        head = deliver(hangs, stand, posted, behind, head);
    }
}

/// What a gift posts.
fn gift_flags(hangs: &[Hang], stand: &[Marks], at: usize) -> Marks
    ensures { result ≡ gift_flags hangs.now stand.now at }
{
    let last = hang_at(hangs, at).last;
    let done = last == 0 || is_whole(marks_at(stand, last));
    Marks {
        reads: false,
        joins: false,
        writes: false,
        given: true,
        done,
        clear: false,
    }
}

/// Notes that the cell is given up.
fn put_gave(hangs: &mut [Hang], at: usize)
    requires { at < length hangs.old }
    ensures { hangs.new ≡ gave_in hangs.old at }
{
    let one = hang_at(hangs, at);
    hangs[at] = Hang {
        hung: one.hung,
        above: one.above,
        before: one.before,
        next: one.next,
        child: one.child,
        last: one.last,
        mode: one.mode,
        gave: true,
    };
}

/// The task of this access gives up the cell: it takes no memory.
pub(crate) fn give(
    hangs: &mut [Hang],
    stand: &[Marks],
    posted: &mut [Marks],
    behind: &mut [usize],
    head: usize,
    at: usize,
) -> usize
    requires tables { AreTables hangs.old stand.now posted.old behind.old head }
    requires main { at ≡ 0 → ⊥ }
    requires within { at < length hangs.old }
    ensures tables { AreTables hangs.new stand.now posted.new behind.new result }
    ensures gave { hangs.new ≡ gave_in hangs.old at }
    ensures given { IsGift (wires_of hangs.old) (wires_of hangs.new) at }
{
    let flags = gift_flags(hangs, stand, at);
    put_gave(hangs, at);
    post(stand, posted, behind, head, at, flags)
}

/// The row of the access that is hung next.
fn new_hang(hangs: &[Hang], above: usize, mode: Mode) -> Hang
    ensures { result ≡ new_hang hangs.now above mode }
{
    Hang {
        hung: true,
        above,
        before: hang_at(hangs, above).last,
        next: 0,
        child: 0,
        last: 0,
        mode,
        gave: false,
    }
}

/// What is posted to it.
fn first_flags(hangs: &[Hang], stand: &[Marks], above: usize, mode: Mode) -> Marks
    ensures { result ≡ first_flags hangs.now stand.now above mode }
{
    let up = hang_at(hangs, above);
    if up.last == 0 {
        return to_child(up.mode, mode, marks_at(stand, above));
    }
    to_next(hang_at(hangs, up.last).mode, mode, marks_at(stand, up.last))
}

/// Notes the last of a list, and the first where there was none.
fn put_last(hangs: &mut [Hang], above: usize, at: usize)
    requires { above < length hangs.old }
    ensures { hangs.new ≡ last_in hangs.old above at }
{
    let one = hang_at(hangs, above);
    let child = if one.last == 0 { at } else { one.child };
    hangs[above] = Hang {
        hung: one.hung,
        above: one.above,
        before: one.before,
        next: one.next,
        child,
        last: at,
        mode: one.mode,
        gave: one.gave,
    };
}

/// Notes the next sibling, where there is one before.
fn put_next(hangs: &mut [Hang], before: usize, at: usize)
    requires { before < length hangs.old }
    ensures { hangs.new ≡ next_link hangs.old before at }
{
    if before == 0 {
        return;
    }
    let one = hang_at(hangs, before);
    hangs[before] = Hang {
        hung: one.hung,
        above: one.above,
        before: one.before,
        next: at,
        child: one.child,
        last: one.last,
        mode: one.mode,
        gave: one.gave,
    };
}

/// Takes the memory for one more row in each table.
pub(crate) fn reserve(
    hangs: &mut Vec<Hang>,
    stand: &mut Vec<Marks>,
    posted: &mut Vec<Marks>,
    behind: &mut Vec<usize>,
) -> Result<(), AllocError>
    ensures hangs { hangs.new.items ≡ hangs.old.items }
    ensures stand { stand.new.items ≡ stand.old.items }
    ensures posted { posted.new.items ≡ posted.old.items }
    ensures behind { behind.new.items ≡ behind.old.items }
    ensures ok { OnOk result ((length hangs.new.items < vec_capacity hangs.new) ×
        (length stand.new.items < vec_capacity stand.new) ×
        (length posted.new.items < vec_capacity posted.new) × (length behind.new.items < vec_capacity behind.new)) }
    ensures sure { length hangs.old.items < vec_capacity hangs.old →
        length stand.old.items < vec_capacity stand.old → length posted.old.items < vec_capacity posted.old →
        length behind.old.items < vec_capacity behind.old → IsOk result }
{
    hangs.reserve(1)?;
    stand.reserve(1)?;
    posted.reserve(1)?;
    behind.reserve(1)
}

/// Adds an access with these first flags at the end of the list of `above`.
fn hang_on(
    hangs: &mut Vec<Hang>,
    stand: &mut Vec<Marks>,
    posted: &mut Vec<Marks>,
    behind: &mut Vec<usize>,
    head: usize,
    above: usize,
    mode: Mode,
    flags: Marks,
) -> Result<(), AllocError>
    requires within { above < length hangs.old.items }
    requires as_far { (hang_at hangs.old.items above).last < length hangs.old.items }
    ensures hangs { OnOk result (hangs.new.items ≡ opened_in hangs.old.items above mode) }
    ensures stand { OnOk result (stand.new.items ≡ stand.old.items ++ no_marks ∷ []) }
    ensures posted { OnOk result (posted.new.items ≡ posted.old.items ++ flags ∷ []) }
    ensures behind { OnOk result (behind.new.items ≡ behind.old.items ++ head ∷ []) }
    ensures same { OnErr result ((hangs.new.items ≡ hangs.old.items) × (stand.new.items ≡ stand.old.items) ×
        (posted.new.items ≡ posted.old.items) × (behind.new.items ≡ behind.old.items)) }
    ensures sure { length hangs.old.items < vec_capacity hangs.old →
        length stand.old.items < vec_capacity stand.old → length posted.old.items < vec_capacity posted.old →
        length behind.old.items < vec_capacity behind.old → IsOk result }
{
    reserve(hangs, stand, posted, behind)?;
    let at = hangs.len();
    let before = hang_at(hangs.as_slice(), above).last;
    let one = new_hang(hangs.as_slice(), above, mode);
    hangs.push(one)?;
    stand.push(no_marks())?;
    posted.push(flags)?;
    behind.push(head)?;
    put_last(hangs.as_mut_slice(), above, at);
    put_next(hangs.as_mut_slice(), before, at);
    Ok(())
}

/// Hangs an access at the end of the list of `above`. Answers who is in front of those that wait.
pub(crate) fn open(
    hangs: &mut Vec<Hang>,
    stand: &mut Vec<Marks>,
    posted: &mut Vec<Marks>,
    behind: &mut Vec<usize>,
    head: usize,
    above: usize,
    mode: Mode,
) -> Result<usize, AllocError>
    requires tables { AreTables hangs.old.items stand.old.items posted.old.items behind.old.items head }
    requires within { above < length hangs.old.items }
    requires held { (hang_at hangs.old.items above).gave ≡ false }
    requires covered { covers (hang_at hangs.old.items above).mode mode ≡ true }
    ensures tables { IfOk result (λ to. AreTables hangs.new.items stand.new.items posted.new.items
        behind.new.items to) }
    ensures opened { OnOk result (hangs.new.items ≡ opened_in hangs.old.items above mode) }
    ensures hung { OnOk result (IsHung (wires_of hangs.old.items) (wires_of hangs.new.items) above
        (length hangs.old.items)) }
    ensures same { OnErr result ((hangs.new.items ≡ hangs.old.items) × (stand.new.items ≡ stand.old.items) ×
        (posted.new.items ≡ posted.old.items) × (behind.new.items ≡ behind.old.items)) }
    ensures sure { length hangs.old.items < vec_capacity hangs.old →
        length stand.old.items < vec_capacity stand.old → length posted.old.items < vec_capacity posted.old →
        length behind.old.items < vec_capacity behind.old → IsOk result }
{
    let at = hangs.len();
    let flags = first_flags(hangs.as_slice(), stand.as_slice(), above, mode);
    hang_on(hangs, stand, posted, behind, head, above, mode, flags)?;
    if is_none(flags) {
        return Ok(head);
    }
    Ok(at)
}
