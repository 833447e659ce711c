//! A law of the answers of the call.

ghost use Rattle.oss_grammar.specs.Refusals.{IsAnsweredOnce, pragmas};

use oss_syntax::{List, Token};

/// A law, with nothing to run: from a place of the tokens there is at most one pragma and place behind it, or
/// one refusal, and not both.
#[tactic(auto, using(crate::proofs::ExactAnswers::pragma_once))]
pub fn a_pragma_has_one_answer(tokens: &List<Token>, at: u32)
    ensures { IsAnsweredOnce pragmas tokens.now at }
{}
