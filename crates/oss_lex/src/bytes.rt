//! Single bytes of a text: letters and digits (C11 6.4.2.1), the first byte, and the byte at a place.
ghost use Rattle.std.specs.Prelude.{◌≡◌, [], ◌∷◌, MatchOption, slice_index};
ghost use Rattle.oss_grammar.specs.Words.{is_letter, is_digit, is_name_byte};

/// Whether a byte is a letter or `_`.
#[tactic(auto, unfolding(oss_grammar::specs::Words::is_letter))]
pub(crate) fn begins_name(b: u8) -> bool
    ensures { result ≡ is_letter b }
{
    (b >= b'a' && b <= b'z') || (b >= b'A' && b <= b'Z') || b == b'_'
}

/// Whether a byte is a digit of base 10.
#[tactic(auto, unfolding(oss_grammar::specs::Words::is_digit))]
pub(crate) fn begins_number(b: u8) -> bool
    ensures { result ≡ is_digit b }
{
    b >= b'0' && b <= b'9'
}

/// Whether a byte may stand in a name.
#[tactic(auto, unfolding(oss_grammar::specs::Words::is_name_byte))]
pub(crate) fn goes_on_name(b: u8) -> bool
    ensures { result ≡ is_name_byte b }
{
    begins_name(b) || begins_number(b)
}

/// The first byte of a text and what stands behind it.
pub(crate) fn first(text: &[u8]) -> Option<(u8, &[u8])>
    ensures { MatchOption result (text.now ≡ []) (λ parts. text.now ≡ parts.0 ∷ parts.1.now) }
{
    let (b, rest) = text.split_first()?;
    Some((*b, rest))
}

/// The byte at a place of a text, and 0 behind its end.
pub(crate) fn byte_at(text: &[u8], at: usize) -> u8
    ensures { result ≡ slice_index text.now at }
{
    text.get(at).copied().unwrap_or(0)
}
