//! Punctuators (C11 6.4.6). Of those that stand at a place the longest is taken (C11 6.4p4).
ghost use Rattle.std.specs.Prelude.{◌≡◌, ◌≤◌, length};
ghost use Rattle.oss_grammar.specs.Words.{is_one, is_three, is_two};
ghost use Rattle.oss_lex.specs.Reading.{AnswersAs, symbol_at, symbol_len};

use crate::blanks::begins_comment;
use crate::bytes::byte_at;
use crate::taken::{Taken, no_token};
use oss_syntax::{Name, Refusal, TokenKind};
use std::alloc::Global;

/// Whether a byte alone is a punctuator.
#[tactic(auto, unfolding(oss_grammar::specs::Words::is_one))]
fn is_symbol(a: u8) -> bool
    ensures { result ≡ is_one a }
{
    a == b'+'
        || a == b'-'
        || a == b'*'
        || a == b'/'
        || a == b'%'
        || a == b'&'
        || a == b'|'
        || a == b'^'
        || a == b'~'
        || a == b'!'
        || a == b'<'
        || a == b'>'
        || a == b'='
        || a == b'('
        || a == b')'
        || a == b'['
        || a == b']'
        || a == b'{'
        || a == b'}'
        || a == b';'
        || a == b','
        || a == b':'
        || a == b'?'
        || a == b'.'
}

/// Whether two bytes together are a punctuator, which is taken before the first of them alone.
#[tactic(auto, unfolding(oss_grammar::specs::Words::is_two))]
fn is_symbol_of_two(a: u8, b: u8) -> bool
    ensures { result ≡ is_two a b }
{
    (b == b'='
        && (a == b'+'
            || a == b'-'
            || a == b'*'
            || a == b'/'
            || a == b'%'
            || a == b'&'
            || a == b'|'
            || a == b'^'
            || a == b'<'
            || a == b'>'
            || a == b'='
            || a == b'!'))
        || (b == b'+' && a == b'+')
        || (b == b'-' && a == b'-')
        || (b == b'<' && a == b'<')
        || (b == b'>' && a == b'>')
        || (b == b'&' && a == b'&')
        || (b == b'|' && a == b'|')
        || (b == b'>' && a == b'-')
}

/// Whether three bytes together are a punctuator: a shift with an assignment.
#[tactic(auto, unfolding(oss_grammar::specs::Words::is_three))]
fn is_symbol_of_three(a: u8, b: u8, c: u8) -> bool
    ensures { result ≡ is_three a b c }
{
    c == b'=' && ((a == b'<' && b == b'<') || (a == b'>' && b == b'>'))
}

/// How many bytes the longest symbol at the front of a text has, and 0 where there is none.
#[tactic(auto, unfolding(crate::specs::Reading::symbol_len))]
fn longest_symbol(text: &[u8]) -> usize
    ensures { result ≡ symbol_len text.now }
{
    let (a, b, c) = (byte_at(text, 0), byte_at(text, 1), byte_at(text, 2));
    if is_symbol_of_three(a, b, c) {
        3
    } else if is_symbol_of_two(a, b) {
        2
    } else if is_symbol(a) {
        1
    } else {
        0
    }
}

/// The longest symbol at the front of a text, from which the caller has taken the comments that end: where a comment
/// begins there, whether it ends or not, the answer is a refusal.
#[tactic(auto, using(crate::proofs::SymbolWords::symbol_len_within), unfolding(crate::specs::Reading::symbol_at, crate::specs::Reading::symbol_told))]
pub(crate) fn read_symbol(alloc: Global, text: &[u8], line: u32) -> Result<Taken<'_>, Refusal>
    ensures { AnswersAs (symbol_at text.now) line result }
{
    if begins_comment(text) {
        return Err(no_token(line));
    }
    let len = longest_symbol(text);
    if len == 0 {
        return Err(no_token(line));
    }
    let (word, rest) = text.split_at(len);
    let what = TokenKind::Symbol(Name::from_slice(alloc, word)?);
    Ok(Taken { what, rest })
}
