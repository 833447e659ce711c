//! The law of the answers of the reader.

ghost use Rattle.oss_grammar.specs.Parsing.{IsParsedOnce};

/// A law, with nothing to run: a text is at most one program, or has at most one refusal, and not both.
#[tactic(auto, using(crate::proofs::OneProgram::parsed_once))]
pub fn a_text_has_one_parse(text: &[u8])
    ensures { IsParsedOnce text.now }
{}
