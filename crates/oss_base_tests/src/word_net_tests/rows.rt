//! A row of siblings below a weak access that is given up: the net on which threads are tried.

ghost use Rattle.std.specs.Prelude.{◌≡◌, ◌<◌, ◌≤◌, ◌+◌, ◌-◌, ◌*◌, ℕ, [], IfOk};
ghost use Rattle.oss_word_net.specs.Known.{first_known};
ghost use Rattle.oss_word_net.specs.Moves.{drew};
ghost use Rattle.oss_word_net.specs.Rows.{Row, Keeps, ToGive, info_above, info_below};

use oss_syntax::Mode;
use oss_word_net::{WordNet, WordSeat};
use oss_words::{After, EntryInfo};
use std::alloc::{AllocError, Global};
use std::process::Abort;

/// Delivers until the seat holds nothing.
pub(crate) fn settle(net: &WordNet, seat: &mut WordSeat)
    requires net { seat.old.net ≡ net.now.table }
    ensures same { (seat.new.net ≡ seat.old.net) × (seat.new.id ≡ seat.old.id) }
    ensures keeps { Keeps seat.old.known seat.new.known }
    ensures empty { seat.new.known.view.held ≡ [] }
{
    while net.holding(seat) {
        net.deliver(seat);
    }
}

/// The weak access above.
fn upper() -> EntryInfo
    ensures { result ≡ info_above }
{
    EntryInfo {
        mode: Mode::Write,
        strong: false,
        depth: 1,
        parent: 0,
        task: 1,
    }
}

/// A sibling below it.
fn lower(parent: u32) -> EntryInfo
    ensures { result ≡ info_below parent }
{
    EntryInfo {
        mode: Mode::Write,
        strong: true,
        depth: 2,
        parent,
        task: 2,
    }
}

/// Links the access above.
fn link_upper(net: &WordNet, seat: &mut WordSeat, top: u32, _siblings: u32)
    requires net { seat.old.net ≡ net.now.table }
    requires main { 0 < top }
    requires drawn { seat.old.known ≡ drew (1 + _siblings) top (first_known net.now.entries) }
    ensures same { (seat.new.net ≡ seat.old.net) × (seat.new.id ≡ seat.old.id) }
    ensures row { Row seat.new.known top 0 _siblings }
{
    net.link(seat, top, upper(), After::FirstOfMain);
}

/// Links the first sibling.
fn link_first(net: &WordNet, seat: &mut WordSeat, top: u32, _siblings: u32)
    requires net { seat.old.net ≡ net.now.table }
    requires row { Row seat.old.known top 0 _siblings × (0 < _siblings) × (top + _siblings < 16777216) }
    ensures same { (seat.new.net ≡ seat.old.net) × (seat.new.id ≡ seat.old.id) }
    ensures row { Row seat.new.known top 1 _siblings }
{
    net.link(seat, top + 1, lower(top), After::FirstOf(top));
    settle(net, seat);
}

/// Links a sibling behind so many others.
fn link_next(net: &WordNet, seat: &mut WordSeat, top: u32, before: u32, _siblings: u32)
    requires net { seat.old.net ≡ net.now.table }
    requires row { Row seat.old.known top before _siblings × (0 < before) × (before < _siblings) ×
        (top + _siblings < 16777216) }
    ensures same { (seat.new.net ≡ seat.old.net) × (seat.new.id ≡ seat.old.id) }
    ensures row { Row seat.new.known top (before + 1) _siblings }
{
    net.link(
        seat,
        top + before + 1,
        lower(top),
        After::Sibling(top + before),
    );
    settle(net, seat);
}

/// Links the access above, and so many siblings below it.
fn link_row(net: &WordNet, seat: &mut WordSeat, top: u32, siblings: u32)
    requires net { seat.old.net ≡ net.now.table }
    requires main { (0 < top) × (0 < siblings) × (top + siblings < 16777216) }
    requires drawn { seat.old.known ≡ drew (1 + siblings) top (first_known net.now.entries) }
    ensures same { (seat.new.net ≡ seat.old.net) × (seat.new.id ≡ seat.old.id) }
    ensures row { Row seat.new.known top siblings siblings }
{
    link_upper(net, seat, top, siblings);
    link_first(net, seat, top, siblings);
    for before in 1..siblings {
        link_next(net, seat, top, before, siblings);
    }
}

/// Gives up the access above.
fn give_upper(net: &WordNet, seat: &mut WordSeat, top: u32, _siblings: u32)
    requires net { seat.old.net ≡ net.now.table }
    requires row { Row seat.old.known top _siblings _siblings }
    ensures same { (seat.new.net ≡ seat.old.net) × (seat.new.id ≡ seat.old.id) }
    ensures may { ToGive seat.new.known (top + 1) (top + 1 + _siblings) }
    ensures parts { (seat.new.known.view.parts ≡ 65537) × (seat.new.known.view.splits ≡ 0) }
{
    net.give(seat, top);
    settle(net, seat);
}

/// A net with a weak access that is given up, and so many siblings below it that are not: the net, its seat and
/// the weak access.
pub(crate) fn open_row(
    rt: &impl Abort,
    alloc: Global,
    siblings: u32,
) -> Result<(WordNet, WordSeat, u32), AllocError>
    requires some { (0 < siblings) × (siblings ≤ 1000) }
    ensures seat { IfOk result (λ r. (r.1.net ≡ r.0.table) × (r.1.id ≡ 0)) }
    ensures may { IfOk result (λ r. ToGive r.1.known (r.2 + 1) (r.2 + 1 + siblings) × (r.2 < 2000)) }
    ensures parts { IfOk result (λ r. (r.1.known.view.parts ≡ 65537) × (r.1.known.view.splits ≡ 0)) }
{
    let (net, mut seat) = WordNet::new(alloc, 2 + siblings)?;
    let Some(top) = net.draw(&mut seat, 1 + siblings) else {
        panic!(rt; "too few entries were left")
    };
    link_row(&net, &mut seat, top, siblings);
    give_upper(&net, &mut seat, top, siblings);
    Ok((net, seat, top))
}
