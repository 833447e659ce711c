//! Integer constants (C11 6.4.4.1), decimal, octal and hexadecimal, with their suffixes. Each is a number of 64
//! bits, signed or unsigned.
ghost use Rattle.std.specs.Prelude.{◌≡◌, ◌≤◌, ◌<◌, ◌^◌, ℕ, length};
ghost use Rattle.std.specs.List.{prefix_len};
ghost use Rattle.std.specs.Option.{SomeIff};
ghost use Rattle.oss_grammar.specs.Words.{digit_of, is_digit_in, is_signed_suffix, is_unsigned_suffix, value_in};
ghost use Rattle.oss_lex.specs.Reading.{AnswersAs, hexadecimal_of, marked, number_at, number_in, number_of, zero_number_of};

use crate::bytes::{begins_number, first};
use crate::names::word_len;
use crate::taken::{Taken, no_token};
use oss_syntax::{Refusal, TokenKind};

/// The digit that a byte stands for, and 16 where it stands for none.
#[tactic(auto, unfolding(oss_grammar::specs::Words::digit_of, oss_grammar::specs::Words::is_digit))]
fn digit(b: u8) -> u8
    ensures value { result ≡ digit_of b }
    ensures small { result ≤ 16 }
{
    if begins_number(b) {
        b - b'0'
    } else if b >= b'a' && b <= b'f' {
        b - b'a' + 10
    } else if b >= b'A' && b <= b'F' {
        b - b'A' + 10
    } else {
        16
    }
}

/// How many bytes from the front on are digits in this base.
#[tactic(auto, unfolding(oss_grammar::specs::Words::is_digit_in))]
fn digits_len(base: u8, word: &[u8]) -> usize
    ensures value { result ≡ prefix_len (is_digit_in base) word.now }
    ensures within { result ≤ length word.now }
{
    word.iter().take_while(|b| digit(**b) < base).count()
}

/// The value of digits in this base, where it has at most 64 bits.
#[tactic(auto, using(crate::proofs::Digits::value_in_over))]
fn value(base: u8, digits: &[u8]) -> Option<u64>
    requires { 0 < base }
    ensures { SomeIff result (value_in base digits.now < 2 ^ 64) (value_in base digits.now) }
{
    let mut sum = 0u64;
    for b in digits {
        sum = sum.checked_mul(base as u64)?.checked_add(digit(*b) as u64)?;
    }
    Some(sum)
}

/// Whether a suffix says nothing of the sign, as an empty one. Then the value tells whether the number is signed.
#[tactic(auto, unfolding(oss_grammar::specs::Words::is_signed_suffix))]
fn keeps_sign(suffix: &[u8]) -> bool
    ensures { result ≡ is_signed_suffix suffix.now }
{
    suffix == b"".as_slice()
        || suffix == b"l".as_slice()
        || suffix == b"L".as_slice()
        || suffix == b"ll".as_slice()
        || suffix == b"LL".as_slice()
}

/// Whether a suffix makes the number unsigned: a `u` of either case, alone or beside an `l` or `ll` of one case.
#[tactic(auto, unfolding(oss_grammar::specs::Words::is_unsigned_suffix))]
fn takes_sign(suffix: &[u8]) -> bool
    ensures { result ≡ is_unsigned_suffix suffix.now }
{
    suffix == b"u".as_slice()
        || suffix == b"ul".as_slice()
        || suffix == b"uL".as_slice()
        || suffix == b"ull".as_slice()
        || suffix == b"uLL".as_slice()
        || suffix == b"lu".as_slice()
        || suffix == b"Lu".as_slice()
        || suffix == b"llu".as_slice()
        || suffix == b"LLu".as_slice()
        || suffix == b"U".as_slice()
        || suffix == b"Ul".as_slice()
        || suffix == b"UL".as_slice()
        || suffix == b"Ull".as_slice()
        || suffix == b"ULL".as_slice()
        || suffix == b"lU".as_slice()
        || suffix == b"LU".as_slice()
        || suffix == b"llU".as_slice()
        || suffix == b"LLU".as_slice()
}

/// The number that a value and its suffix make, and whether it is unsigned.
#[tactic(auto, unfolding(crate::specs::Reading::marked))]
fn with_suffix(value: u64, suffix: &[u8]) -> Option<(u64, bool)>
    ensures { result ≡ marked value suffix.now }
{
    if takes_sign(suffix) {
        Some((value, true))
    } else if keeps_sign(suffix) {
        Some((value, value > 9223372036854775807))
    } else {
        None
    }
}

/// The number of these digits in a base with the suffix behind them.
#[tactic(auto, unfolding(crate::specs::Reading::number_in, crate::specs::Reading::marked))]
fn number_with_base(base: u8, word: &[u8]) -> Option<(u64, bool)>
    requires { 0 < base }
    ensures { result ≡ number_in base word.now }
{
    let (digits, suffix) = word.split_at(digits_len(base, word));
    let Some(value) = value(base, digits) else {
        return None;
    };
    with_suffix(value, suffix)
}

/// The number behind `0x`.
#[tactic(auto, unfolding(crate::specs::Reading::hexadecimal_of))]
fn hexadecimal(word: &[u8]) -> Option<(u64, bool)>
    ensures { result ≡ hexadecimal_of word.now }
{
    if digits_len(16, word) == 0 {
        return None;
    }
    number_with_base(16, word)
}

/// The number behind a leading 0.
#[tactic(auto, unfolding(crate::specs::Reading::zero_number_of))]
fn behind_zero(word: &[u8]) -> Option<(u64, bool)>
    ensures { result ≡ zero_number_of word.now }
{
    let Some((x, more)) = first(word) else {
        return number_with_base(8, word);
    };
    if x == b'x' || x == b'X' {
        hexadecimal(more)
    } else {
        number_with_base(8, word)
    }
}

/// The value of a word of letters and digits that begins with a digit, and whether it is unsigned.
#[tactic(auto, unfolding(crate::specs::Reading::number_of))]
fn number(word: &[u8]) -> Option<(u64, bool)>
    ensures { result ≡ number_of word.now }
{
    let Some((d, more)) = first(word) else {
        return None;
    };
    if d == b'0' {
        behind_zero(more)
    } else {
        number_with_base(10, word)
    }
}

/// The number at the front of a text that begins with a digit.
#[tactic(auto, unfolding(crate::specs::Reading::number_at, crate::specs::Reading::number_told))]
pub(crate) fn read_number(text: &[u8], line: u32) -> Result<Taken<'_>, Refusal>
    ensures { AnswersAs (number_at text.now) line result }
{
    let (word, rest) = text.split_at(word_len(text));
    let Some((value, unsigned)) = number(word) else {
        return Err(no_token(line));
    };
    Ok(Taken {
        what: TokenKind::Number(value, unsigned),
        rest,
    })
}
