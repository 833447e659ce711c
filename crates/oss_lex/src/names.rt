//! Names and keywords (C11 6.4.1, 6.4.2). A name has at most 63 bytes: C promises of no more that they count
//! (C11 5.2.4.1).
ghost use Rattle.std.specs.Prelude.{◌≡◌, ◌≤◌, length};
ghost use Rattle.std.specs.List.{prefix_len};
ghost use Rattle.oss_grammar.specs.Words.{is_name_byte};
ghost use Rattle.oss_lex.specs.Reading.{AnswersAs, name_at};

use crate::bytes::goes_on_name;
use crate::keywords::is_reserved;
use crate::taken::{Taken, long_name};
use oss_syntax::{Name, Refusal, TokenKind};
use std::alloc::Global;

/// How many bytes from the front on are letters, digits or `_`.
pub(crate) fn word_len(text: &[u8]) -> usize
    ensures value { result ≡ prefix_len is_name_byte text.now }
    ensures within { result ≤ length text.now }
{
    text.iter().take_while(|b| goes_on_name(**b)).count()
}

/// The name or keyword at the front of a text that begins with a letter.
#[tactic(auto, unfolding(crate::specs::Reading::name_at, crate::specs::Reading::name_answer))]
pub(crate) fn read_name(alloc: Global, text: &[u8], line: u32) -> Result<Taken<'_>, Refusal>
    ensures { AnswersAs (name_at text.now) line result }
{
    let (word, rest) = text.split_at(word_len(text));
    if is_reserved(word) {
        let what = TokenKind::Keyword(Name::from_slice(alloc, word)?);
        return Ok(Taken { what, rest });
    }
    if word.len() > 63 {
        return Err(long_name(line));
    }
    let what = TokenKind::Name(Name::from_slice(alloc, word)?);
    Ok(Taken { what, rest })
}
