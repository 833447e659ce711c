//! A law of the tokens of a text, carried by a function that does nothing. A crate above calls it, and then has
//! the law.
ghost use Rattle.oss_grammar.specs.Tokens.{IsReadOnce};

/// A law, with nothing to run: a text has at most one list of tokens, none where it is refused, and at most one
/// refusal.
#[tactic(auto, using(crate::proofs::OneReading::read_once))]
pub fn a_text_has_one_reading(text: &[u8])
    ensures { IsReadOnce text.now }
{}
