//! What each step keeps of the words alone, for a table whose seats are told in another way: laws, each carried
//! by a function that does nothing.

ghost use Rattle.oss_words.specs.WordLaws.{WordBeginsKeep, WordBegunGivesKeep, WordDeliveriesKeep, WordFillsKeep, WordGivesKeep};
ghost use Rattle.oss_words.specs.WordLaws.{WordJoinedBegunGivesKeep, WordJoinedGivesKeep, WordLastLinksKeep, WordLeavesKeep, WordLinksKeep};
ghost use Rattle.oss_words.specs.WordLaws.{WordLooksKeep, WordNewSeatsKeep};

/// A delivery keeps the words.
pub fn word_deliveries_keep()
    ensures { WordDeliveriesKeep }
{}

/// A give of an entry with no children keeps the words.
pub fn word_gives_keep()
    ensures { WordGivesKeep }
{}

/// The first step of a give of an entry with children keeps the words.
pub fn word_begun_gives_keep()
    ensures { WordBegunGivesKeep }
{}

/// The link of the last child to the entry that was given up keeps the words.
pub fn word_last_links_keep()
    ensures { WordLastLinksKeep }
{}

/// The link of a new entry keeps the words.
pub fn word_links_keep()
    ensures { WordLinksKeep }
{}

/// A fill keeps the words.
pub fn word_fills_keep()
    ensures { WordFillsKeep }
{}

/// The words are kept where an entry begins a list of main's children.
pub fn word_begins_keep()
    ensures { WordBeginsKeep }
{}

/// A step that leaves what its seat holds keeps the words.
pub fn word_looks_keep()
    ensures { WordLooksKeep }
{}

/// A new seat, which holds nothing, keeps the words.
pub fn word_new_seats_keep()
    ensures { WordNewSeatsKeep }
{}

/// Where the value of a reduction is left, the words are kept.
pub fn word_leaves_keep()
    ensures { WordLeavesKeep }
{}

/// The give of a reduction that was joined, with no children, keeps the words.
pub fn word_joined_gives_keep()
    ensures { WordJoinedGivesKeep }
{}

/// The first step of the give of a reduction that was joined, with children, keeps the words.
pub fn word_joined_begun_gives_keep()
    ensures { WordJoinedBegunGivesKeep }
{}
