//! The words of two writes, one behind the other, worked by hand from the bits.

ghost use Rattle.std.specs.Prelude.{◌≡◌};

use crate::word_net_tests::rows::settle;
use oss_syntax::Mode;
use oss_word_net::WordNet;
use oss_words::{After, EntryInfo};
use std::test::Fail;

/// A write of a child of main.
fn write_of(task: u32) -> EntryInfo
    ensures { (result.parent ≡ 0) × (result.depth ≡ 1) × (result.task ≡ task) }
{
    EntryInfo {
        mode: Mode::Write,
        strong: true,
        depth: 1,
        parent: 0,
        task,
    }
}

#[test]
fn a_write_waits_for_the_one_before_it(rt: HostRuntime) -> Result<(), Fail> {
    let (net, mut seat) = WordNet::new(rt.alloc(), 8)?;
    let Some(first) = net.draw(&mut seat, 2) else {
        panic!(rt; "fewer than 2 entries were left")
    };
    net.link(&mut seat, first, write_of(1), After::FirstOfMain);
    net.link(&mut seat, first + 1, write_of(2), After::Sibling(first));
    settle(&net, &mut seat);
    let before = [net.flags(&mut seat, first), net.flags(&mut seat, first + 1)];
    net.give(&mut seat, first);
    settle(&net, &mut seat);
    let after = net.flags(&mut seat, first + 1);
    let states = net.close(seat)?;
    assert!(rt; first == 1);
    assert!(rt; before == [131_175, 0]);
    assert!(rt; after == 37);
    assert!(rt; states.as_slice() == [0, 131_199, 37, 0, 0, 0, 0, 0].as_slice());
    Ok(())
}
