//! A law about pieces.

ghost use Rattle.oss_pieces.specs.Claims.{OneList};

/// A set of cells has one list of pieces over the globals of a program, and no other.
pub fn a_set_has_one_list()
    ensures { OneList }
{}
