//! What each step keeps, whatever table the words stand in, and what the rule gives: laws, each carried by a
//! function that does nothing. A crate above calls the function, and then has the law.

ghost use Rattle.oss_words.specs.Laws.{BeginningsKeep, BegunGivesKeep, DeliveriesKeep, DrawsKeep, FillsKeep, FirstFillsKeep, GivesKeep, HeldIsUnset};
ghost use Rattle.oss_words.specs.Laws.{JoinsKeep, LastLinksKeep, LinksKeep, ReadsKeep};
ghost use Rattle.oss_words.specs.Laws.{RestIsExact, RoomIsBounded, SplitsKeep, ViewsTell, WholeSeatsKnow, WorkIsBounded};
ghost use Rattle.oss_words.specs.Laws.{ChildlessAreUnheaded, LastsAreUnlinked, OwnersKnowChildren, OwnersKnowGives, OwnersKnowLists, UngivenAreUndone};

/// A delivery keeps the rule.
pub fn deliveries_keep()
    ensures { DeliveriesKeep }
{}

/// A give of an entry with no children keeps the rule.
pub fn gives_keep()
    ensures { GivesKeep }
{}

/// The first step of a give of an entry with children keeps the rule.
pub fn begun_gives_keep()
    ensures { BegunGivesKeep }
{}

/// The second step of a give, the link of the last child to the entry, keeps the rule.
pub fn last_links_keep()
    ensures { LastLinksKeep }
{}

/// The link of a new entry behind a sibling or below a parent keeps the rule.
pub fn links_keep()
    ensures { LinksKeep }
{}

/// A fill of a word of an entry that hangs nowhere keeps the rule.
pub fn fills_keep()
    ensures { FillsKeep }
{}

/// The last fill of an entry that begins a list of main's children keeps the rule; by it the entry hangs.
pub fn first_fills_keep()
    ensures { FirstFillsKeep }
{}

/// A read of a word keeps the rule, and what was read still stands later.
pub fn reads_keep()
    ensures { ReadsKeep }
{}

/// A draw of new entries keeps the rule.
pub fn draws_keep()
    ensures { DrawsKeep }
{}

/// A split of the first seat keeps the rule.
pub fn splits_keep()
    ensures { SplitsKeep }
{}

/// A join of one seat to another keeps the rule.
pub fn joins_keep()
    ensures { JoinsKeep }
{}

/// The rule holds at the start.
pub fn beginnings_keep()
    ensures { BeginningsKeep }
{}

/// A seat never holds more than 390 messages.
pub fn room_is_bounded()
    ensures { RoomIsBounded }
{}

/// All seats together never deliver more than six messages for each entry.
pub fn work_is_bounded()
    ensures { WorkIsBounded }
{}

/// The seat with which a net was made knows that the words are at rest where it holds nothing and every seat
/// that was split off has been joined.
pub fn whole_seats_know()
    ensures { WholeSeatsKnow }
{}

/// The views name exactly the links and gives of which the rule speaks.
pub fn views_tell()
    ensures { ViewsTell }
{}

/// At rest each flag stands exactly where its condition holds, over the links and gives that the views name.
pub fn rest_is_exact()
    ensures { RestIsExact }
{}

/// A flag whose message is held does not stand yet.
pub fn held_is_unset()
    ensures { HeldIsUnset }
{}

/// The owner of a parent knows what hangs behind each child.
pub fn owners_know_lists()
    ensures { OwnersKnowLists }
{}

/// The owner of an entry knows whether it has a child.
pub fn owners_know_children()
    ensures { OwnersKnowChildren }
{}

/// The owner of an entry knows whether it is given up.
pub fn owners_know_gives()
    ensures { OwnersKnowGives }
{}

/// The last of a list below an entry that is not given up has no next link.
pub fn lasts_are_unlinked()
    ensures { LastsAreUnlinked }
{}

/// An entry with no first child has no child link.
pub fn childless_are_unheaded()
    ensures { ChildlessAreUnheaded }
{}

/// An entry that is not given up is not done.
pub fn ungiven_are_undone()
    ensures { UngivenAreUndone }
{}
