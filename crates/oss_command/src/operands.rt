//! Operands, and the words that a command may have.

ghost use Rattle.std.specs.Prelude.{◌≡◌, map, option_map};
ghost use Rattle.std.specs.String.{string_bytes};
ghost use Rattle.oss_command.specs.Commands.{all_by, is_listed, is_operand, is_flag_word, is_fuel_word, is_soak_word, is_trace_word, operands_in, the_one, the_two};

use crate::values::behind;

/// Whether a word may be an operand: it is not empty and does not begin with `-`.
fn can_be_operand(word: &str) -> bool
    ensures { result ≡ is_operand word.now }
{
    match word.as_bytes() {
        [] => false,
        [first, ..] => *first != b'-',
    }
}

/// Whether a word may stand behind `run`.
fn can_be_listed(word: &str) -> bool
    ensures { result ≡ is_listed word.now }
{
    let bytes = word.as_bytes();
    can_be_operand(word)
        || behind(b"--mode=", bytes).is_some()
        || behind(b"--deps=", bytes).is_some()
        || behind(b"--workers=", bytes).is_some()
        || behind(b"--fuel=", bytes).is_some()
        || is_flag(word)
}

/// Whether a word is an option without a value.
fn is_flag(word: &str) -> bool
    ensures { result ≡ is_flag_word word.now }
{
    word == "--dump" || word == "--who" || word == "--order"
}

/// Whether a word may stand behind `trace`.
fn can_be_trace_word(word: &str) -> bool
    ensures { result ≡ is_trace_word word.now }
{
    let bytes = word.as_bytes();
    can_be_operand(word)
        || behind(b"--deps=", bytes).is_some()
        || behind(b"--fuel=", bytes).is_some()
}

/// Whether a word may stand behind `soak`.
fn can_be_soak_word(word: &str) -> bool
    ensures { result ≡ is_soak_word word.now }
{
    let bytes = word.as_bytes();
    can_be_operand(word)
        || behind(b"--mode=", bytes).is_some()
        || behind(b"--deps=", bytes).is_some()
        || behind(b"--workers=", bytes).is_some()
}

/// Whether a word may stand behind `replay`, `span`, `audit`, `explain`, `graph` and `missing`.
fn can_be_fuel_word(word: &str) -> bool
    ensures { result ≡ is_fuel_word word.now }
{
    can_be_operand(word) || behind(b"--fuel=", word.as_bytes()).is_some()
}

/// Whether each of the words may be an operand.
pub(crate) fn are_operands(words: &[String]) -> bool
    ensures { result ≡ all_by is_operand (map string_bytes words.now) }
{
    for word in words {
        if !can_be_operand(word.as_str()) {
            return false;
        }
    }
    true
}

/// Whether each of the words may stand behind `run`.
pub(crate) fn are_listed(words: &[String]) -> bool
    ensures { result ≡ all_by is_listed (map string_bytes words.now) }
{
    for word in words {
        if !can_be_listed(word.as_str()) {
            return false;
        }
    }
    true
}

/// Whether each of the words may stand behind `replay`, `span`, `audit`, `explain`, `graph` and `missing`.
pub(crate) fn are_fuel_words(words: &[String]) -> bool
    ensures { result ≡ all_by is_fuel_word (map string_bytes words.now) }
{
    for word in words {
        if !can_be_fuel_word(word.as_str()) {
            return false;
        }
    }
    true
}

/// Whether each of the words may stand behind `trace`.
pub(crate) fn are_trace_words(words: &[String]) -> bool
    ensures { result ≡ all_by is_trace_word (map string_bytes words.now) }
{
    for word in words {
        if !can_be_trace_word(word.as_str()) {
            return false;
        }
    }
    true
}

/// Whether each of the words may stand behind `soak`.
pub(crate) fn are_soak_words(words: &[String]) -> bool
    ensures { result ≡ all_by is_soak_word (map string_bytes words.now) }
{
    for word in words {
        if !can_be_soak_word(word.as_str()) {
            return false;
        }
    }
    true
}

/// The one operand among the words; none where there is none, or more.
pub(crate) fn the_operand(words: &[String]) -> Option<&str>
    ensures { option_map (λ file. file.now) result ≡ the_one (operands_in (map string_bytes words.now)) }
{
    let mut found: Option<&str> = None;
    for word in words {
        if can_be_operand(word.as_str()) {
            if found.is_some() {
                return None;
            }
            found = Some(word.as_str());
        }
    }
    found
}

/// The two operands among the words, in their order; none where there are fewer, or more.
pub(crate) fn the_two_operands(words: &[String]) -> Option<(&str, &str)>
    ensures { option_map (λ two. (two.0.now, two.1.now)) result ≡ the_two (operands_in (map string_bytes words.now)) }
{
    let mut left = words;
    'words: while let [word, rest @ ..] = left {
        if can_be_operand(word.as_str()) {
            let second = the_operand(rest)?;
            return Some((word.as_str(), second));
        }
        left = rest;
    }
    None
}
