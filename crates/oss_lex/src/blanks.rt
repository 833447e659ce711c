//! What may stand between two tokens: blanks, comments (C11 6.4.9), and newlines behind a backslash (C11 5.1.1.2).
ghost use Rattle.std.specs.Prelude.{◌≡◌, ◌≤◌, false, length};
ghost use Rattle.oss_grammar.specs.Words.{opens_comment};
ghost use Rattle.oss_grammar.specs.Tokens.{ends_line, is_blank, newlines};
ghost use Rattle.oss_lex.specs.Reading.{close_len, gap_len, gaps_len, remark_len};

use crate::bytes::{byte_at, first};

/// Whether a byte is a blank. A newline is none, since it may end a directive.
#[tactic(auto, unfolding(oss_grammar::specs::Tokens::is_blank))]
fn is_space(b: u8) -> bool
    ensures { result ≡ is_blank b }
{
    b == b' ' || b == b'\t' || b == b'\r'
}

/// How many bytes stand up to the first `*/`, with it, and 0 where there is none.
#[tactic(auto, unfolding(crate::specs::Reading::close_len, crate::specs::Reading::lengthened))]
fn to_close(text: &[u8]) -> usize
    ensures value { result ≡ close_len text.now }
    ensures within { result ≤ length text.now }
{
    let mut count = 0usize;
    let mut rest = text;
    'bytes: while let Some((b, after)) = first(rest) {
        if b == b'*' && byte_at(after, 0) == b'/' {
            return count + 2;
        }
        count += 1;
        rest = after;
    }
    0
}

/// How many bytes stand up to the end of the line, which a newline behind a backslash is not.
#[tactic(auto, unfolding(crate::specs::Reading::remark_len, oss_grammar::specs::Tokens::ends_line))]
fn to_line_end(text: &[u8]) -> usize
    ensures value { result ≡ remark_len false text.now }
    ensures within { result ≤ length text.now }
{
    let mut count = 0usize;
    let mut backslash = false;
    let mut rest = text;
    'bytes: while let Some((b, after)) = first(rest) {
        if b == b'\n' && !backslash {
            return count;
        }
        backslash = b == b'\\';
        count += 1;
        rest = after;
    }
    count
}

/// Whether a comment begins at the front of a text.
#[tactic(auto, unfolding(oss_grammar::specs::Words::opens_comment))]
pub(crate) fn begins_comment(text: &[u8]) -> bool
    ensures { result ≡ opens_comment text.now }
{
    byte_at(text, 0) == b'/' && (byte_at(text, 1) == b'*' || byte_at(text, 1) == b'/')
}

/// How many bytes the blank or comment at the front of a text has, and 0 where there is none that ends.
#[tactic(auto, unfolding(crate::specs::Reading::gap_len, crate::specs::Reading::gap_len_behind, crate::specs::Reading::lengthened))]
pub(crate) fn blank_len(text: &[u8]) -> usize
    ensures value { result ≡ gap_len text.now }
    ensures within { result ≤ length text.now }
{
    let Some((a, behind)) = first(text) else {
        return 0;
    };
    if is_space(a) {
        return 1;
    }
    let Some((b, more)) = first(behind) else {
        return 0;
    };
    if a == b'\\' && b == b'\n' {
        2
    } else if a == b'/' && b == b'*' {
        let len = to_close(more);
        if len == 0 { 0 } else { 2 + len }
    } else if a == b'/' && b == b'/' {
        2 + to_line_end(more)
    } else {
        0
    }
}

/// How many bytes all blanks and comments at the front of a text have. A bare newline is not counted, and
/// nothing behind it; one in a comment or behind a backslash is.
#[tactic(auto, using(crate::proofs::GapRuns::gaps_len_step, crate::proofs::GapRuns::gaps_len_none))]
pub(crate) fn blanks_len(text: &[u8]) -> usize
    ensures value { result ≡ gaps_len 0 text.now }
    ensures within { result ≤ length text.now }
{
    let mut count = 0usize;
    let mut rest = text;
    'blanks: loop {
        let len = blank_len(rest);
        if len == 0 {
            return count;
        }
        let (_, after) = rest.split_at(len);
        count += len;
        rest = after;
    }
}

/// How many newlines stand in a text.
pub(crate) fn newlines_in(text: &[u8]) -> usize
    ensures value { result ≡ newlines text.now }
    ensures within { result ≤ length text.now }
{
    text.iter().filter(|b| **b == b'\n').count()
}
