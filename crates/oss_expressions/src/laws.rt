//! A law of the answers of the call.

ghost use Rattle.oss_grammar.specs.Refusals.{IsAnsweredOnce, expressions};

use oss_syntax::{List, Token};

/// A law, with nothing to run: from a place of the tokens there is at most one expression and place behind it,
/// or one refusal, and not both.
#[tactic(auto, using(crate::proofs::ExactAnswers::expression_once))]
pub fn an_expression_has_one_answer(tokens: &List<Token>, at: u32)
    ensures { IsAnsweredOnce expressions tokens.now at }
{}
