//! Laws of the definitions, with nothing to run: each is the contract of a function with an empty body.

ghost use Rattle.oss_grammar.specs.Formats.{HasItsPiecesAlone};
ghost use Rattle.oss_grammar.specs.Jumps.{BadJumpsAreTold};
ghost use Rattle.oss_grammar.specs.Redeclarations.{RedeclarationsAreTold};
ghost use Rattle.oss_grammar.specs.RuleOrder.{RulesRise, RulesOfTextRise};
ghost use Rattle.oss_grammar.specs.UnknownNames.{UnknownNamesAreTold};

use oss_syntax::{List, Program, Token};

/// A string of `printf` has the pieces that are computed of it, it is their spellings one behind the other, and
/// it has no other pieces.
#[tactic(auto, using(crate::proofs::PieceLemmas::its_pieces_alone))]
pub fn a_string_has_its_pieces_alone(format: &[u8])
    ensures { HasItsPiecesAlone format.now }
{}

/// BadJump is among the rules that a program breaks, with a line, exactly where a `break` or `continue` stands
/// on that line outside of every loop of its task or function, a `break` whose nearest loop is a task loop, or
/// a `return` in a task statement or in a task loop.
#[tactic(auto, using(crate::proofs::JumpLemmas::bad_jumps_are_told))]
pub fn bad_jumps_are_told(program: &Program)
    ensures { BadJumpsAreTold program.now }
{}

/// DuplicateName is among the rules that a program breaks, with a line, exactly where the name of an item or a
/// local is declared on that line and was declared before in the same scope.
#[tactic(auto, using(crate::proofs::AgainPlaces::redeclarations_are_told))]
pub fn redeclarations_are_told(program: &Program)
    ensures { RedeclarationsAreTold program.now }
{}

/// UnknownName is among the rules that a program breaks, with a line, exactly where a name is used on that line
/// that is there neither a local in scope nor a global or a function.
#[tactic(auto, using(crate::proofs::UsePlaces::unknown_names_are_told))]
pub fn unknown_names_are_told(program: &Program)
    ensures { UnknownNamesAreTold program.now }
{}

/// Where tokens are a program and their lines rise, the lines of the rules that the program breaks rise too,
/// NoMain aside, and each is the line of a token. So a program is refused for a rule on the least line on which
/// it breaks one.
#[tactic(auto, using(crate::proofs::ProgramLines::rules_rise))]
pub fn rules_rise(tokens: &List<Token>)
    ensures { RulesRise tokens.now }
{}

/// The same of the program that a text is.
#[tactic(auto, using(crate::proofs::ProgramLines::rules_of_text_rise))]
pub fn rules_of_a_text_rise(text: &[u8])
    ensures { RulesOfTextRise text.now }
{}
