//! How the text of a schedule is cut into lines, and a line into words.
ghost use Rattle.std.specs.Prelude.{◌≡◌, ◌≤◌, ◌<◌, ◌∷◌, [], None, Some, IfSome, MatchOption, drop, length};
ghost use Rattle.std.specs.List.{prefix_len};
ghost use Rattle.oss_sched.specs.Schedules.{lines_of};
ghost use Rattle.oss_sched.specs.Reading.{cut_at, goes_on};

/// How many bytes of a text stand before the first that is this one, or in all where none is.
fn front_len(stop: u8, text: &[u8]) -> usize
    ensures value { result ≡ prefix_len (goes_on stop) text.now }
    ensures within { result ≤ length text.now }
{
    text.iter().take_while(|b| **b != stop).count()
}

/// A text without its first byte, if it has one.
fn behind_first(text: &[u8]) -> &[u8]
    ensures { result.now ≡ drop 1 text.now }
{
    match text.split_first() {
        Some((_first, rest)) => rest,
        None => text,
    }
}

/// The word before the first blank of a text, and what stands behind that blank; `None` where there is no blank.
#[tactic(auto, unfolding(crate::specs::Reading::cut_at))]
pub(crate) fn cut(text: &[u8]) -> Option<(&[u8], &[u8])>
    ensures { MatchOption result (cut_at text.now ≡ None) (λ parts. cut_at text.now ≡ Some (parts.0.now, parts.1.now)) }
{
    let (word, rest) = text.split_at(front_len(b' ', text));
    let (_blank, behind) = rest.split_first()?;
    Some((word, behind))
}

/// The first line of a text, and the text behind it; `None` where the text is at its end.
#[tactic(auto, using(crate::proofs::LineLemmas::first_line_is))]
pub(crate) fn first_line(text: &[u8]) -> Option<(&[u8], &[u8])>
    ensures lines { MatchOption result (text.now ≡ []) (λ parts. lines_of text.now ≡ parts.0.now ∷
        lines_of parts.1.now) }
    ensures shorter { IfSome result (λ parts. length parts.1.now < length text.now) }
{
    if text.is_empty() {
        return None;
    }
    let (line, rest) = text.split_at(front_len(b'\n', text));
    Some((line, behind_first(rest)))
}
