//! Why tokens are refused, and where.

ghost use Rattle.std.specs.Prelude.{◌≡◌, ◌≤◌, false, length};
ghost use Rattle.oss_grammar.specs.Reading.Stop.{Deep, Syntax};
ghost use Rattle.oss_grammar.specs.Refusals.{is_in_pragma, is_left_out, is_left_out_word, is_open_behind, is_pragma_edge, kind_of, opened_by};
ghost use Rattle.oss_grammar.specs.Words.{is_left_out_keyword};
ghost use Rattle.oss_expressions.specs.ToldAt.{IsRefusalFor, count_before, refused_at};

use crate::cursor::Unread;
use crate::kinds::{symbol_is, word_is};
use oss_syntax::{Refusal, Refused, RefusedKind, Token, TokenKind};

/// Whether a word is a keyword of C that the language leaves out.
#[tactic(auto, unfolding(oss_grammar::specs::Words::is_left_out_keyword))]
fn keyword_is_left_out(word: &[u8]) -> bool
    ensures { result ≡ is_left_out_keyword word.now }
{
    word == b"auto".as_slice()
        || word == b"case".as_slice()
        || word == b"char".as_slice()
        || word == b"const".as_slice()
        || word == b"default".as_slice()
        || word == b"do".as_slice()
        || word == b"double".as_slice()
        || word == b"enum".as_slice()
        || word == b"extern".as_slice()
        || word == b"float".as_slice()
        || word == b"goto".as_slice()
        || word == b"inline".as_slice()
        || word == b"register".as_slice()
        || word == b"restrict".as_slice()
        || word == b"short".as_slice()
        || word == b"signed".as_slice()
        || word == b"sizeof".as_slice()
        || word == b"static".as_slice()
        || word == b"struct".as_slice()
        || word == b"switch".as_slice()
        || word == b"typedef".as_slice()
        || word == b"union".as_slice()
        || word == b"volatile".as_slice()
}

/// Whether a token is left out of the language.
#[tactic(auto, unfolding(oss_grammar::specs::Refusals::is_left_out))]
fn is_left_out(what: &TokenKind) -> bool
    ensures { result ≡ is_left_out what.now }
{
    match what {
        TokenKind::Directive => true,
        TokenKind::Keyword(word) => keyword_is_left_out(word.as_slice()),
        TokenKind::Symbol(_) => {
            symbol_is(b"?", what) || symbol_is(b".", what) || symbol_is(b"->", what)
        }
        _ => false,
    }
}

/// Whether a token is a word of OmpSs-2 that is left out in pragmas.
#[tactic(auto, unfolding(oss_grammar::specs::Refusals::is_left_out_word))]
fn word_is_left_out(what: &TokenKind) -> bool
    ensures { result ≡ is_left_out_word what.now }
{
    word_is(b"assert", what)
        || word_is(b"atomic", what)
        || word_is(b"commutative", what)
        || word_is(b"concurrent", what)
        || word_is(b"cost", what)
        || word_is(b"critical", what)
        || word_is(b"device", what)
        || word_is(b"firstprivate", what)
        || word_is(b"onready", what)
        || word_is(b"private", what)
        || word_is(b"shared", what)
        || word_is(b"taskfor", what)
        || word_is(b"taskiter", what)
        || word_is(b"weakcommutative", what)
}

/// Why a token is refused that fits nowhere, in a pragma or not.
#[tactic(auto, unfolding(oss_grammar::specs::Refusals::kind_of))]
fn kind_of(in_pragma: bool, what: &TokenKind) -> RefusedKind
    ensures { result ≡ kind_of in_pragma what.now }
{
    if is_left_out(what) {
        RefusedKind::Unsupported
    } else if in_pragma {
        if word_is_left_out(what) {
            RefusedKind::Unsupported
        } else {
            RefusedKind::BadPragma
        }
    } else {
        RefusedKind::Syntax
    }
}

/// Whether a token is the first or the last one of a pragma.
fn is_edge(what: &TokenKind) -> bool
    ensures { result ≡ is_pragma_edge what.now }
{
    matches!(what, TokenKind::PragmaOss | TokenKind::PragmaEnd)
}

/// Whether a pragma is open behind a token, where one is open before it or not.
fn opened_by(what: &TokenKind, open_before: bool) -> bool
    ensures { result ≡ opened_by what.now open_before }
{
    match what {
        TokenKind::PragmaOss => true,
        TokenKind::PragmaEnd => false,
        _ => open_before,
    }
}

/// Whether a pragma is open behind these tokens.
fn is_open_behind(before: &[Token]) -> bool
    ensures { result ≡ is_open_behind false before.now }
{
    let mut is_open = false;
    for token in before {
        is_open = opened_by(&token.what, is_open);
    }
    is_open
}

/// Whether a token stands in a pragma, behind these tokens.
#[tactic(auto, unfolding(oss_grammar::specs::Refusals::is_in_pragma))]
fn is_in_pragma(before: &[Token], what: &TokenKind) -> bool
    ensures { result ≡ is_in_pragma before.now what.now }
{
    is_edge(what) || is_open_behind(before)
}

/// How many tokens stand before those that are left.
pub fn count_before(tokens: &[Token], left: &[Token]) -> u32
    requires { length tokens.now ≤ 4294967295 }
    ensures { result ≡ count_before tokens.now left.now }
{
    tokens.len().saturating_sub(left.len()) as u32
}

/// The refusal of tokens whose reading stopped at a token that fits nowhere.
fn misfit(tokens: &[Token], left: &[Token]) -> Refused
    requires { length tokens.now ≤ 4294967295 }
    ensures { result ≡ refused_at tokens.now (Syntax left.now) }
{
    let count = count_before(tokens, left);
    let Some(token) = left.first() else {
        return Refused {
            kind: RefusedKind::Syntax,
            line: 0,
            token: count,
        };
    };
    let in_pragma = is_in_pragma(&tokens[..count as usize], &token.what);
    Refused {
        kind: kind_of(in_pragma, &token.what),
        line: token.line,
        token: count,
    }
}

/// The refusal of tokens whose reading stopped at a token that passes a limit.
fn too_large(left: &[Token]) -> Refused
    ensures { result ≡ refused_at left.now (Deep left.now) }
{
    let line = match left.first() {
        Some(token) => token.line,
        None => 0,
    };
    Refused {
        kind: RefusedKind::TooLarge,
        line,
        token: 0,
    }
}

/// The refusal of tokens of which these are left where nothing was read.
pub fn refusal(tokens: &[Token], left: &[Token], unread: Unread) -> Refusal
    requires { length tokens.now ≤ 4294967295 }
    ensures { IsRefusalFor unread tokens.now left.now result }
{
    match unread {
        Unread::Syntax => Refusal::Refused(misfit(tokens, left)),
        Unread::Deep => Refusal::Refused(too_large(left)),
        Unread::Memory(e) => Refusal::Memory(e),
    }
}
