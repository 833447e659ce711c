//! Decimal numbers in their exact form, without sign and leading zeros, so that each number has one text.
ghost use Rattle.std.specs.Prelude.{◌≡◌, ◌≤◌, None, IfSome};
ghost use Rattle.oss_sched.specs.Reading.{number_from, number_in, number_with};

/// The number that a word is in its exact decimal form, if it is at least the one and at most the other of these.
#[tactic(auto, unfolding(crate::specs::Reading::number_in))]
pub fn number_within(least: u64, most: u64, word: &[u8]) -> Option<u64>
    ensures value { result ≡ number_in least most word.now }
    ensures within { IfSome result (λ n. (least ≤ n) × (n ≤ most)) }
{
    let number = number_of(word)?;
    if least <= number && number <= most {
        Some(number)
    } else {
        None
    }
}

/// The number of 64 bits that a word is in its exact decimal form.
fn number_of(word: &[u8]) -> Option<u64>
    ensures { result ≡ number_from None word.now }
{
    let mut number = None;
    for b in word {
        number = continued(number, *b);
        if number.is_none() {
            return None;
        }
    }
    number
}

/// The number of the digits so far, with one more byte.
fn continued(number: Option<u64>, b: u8) -> Option<u64>
    ensures { result ≡ number_with number b }
{
    if b < b'0' || b > b'9' {
        return None;
    }
    let digit = u64::from(b - b'0');
    match number {
        None => Some(digit),
        Some(0) => None,
        Some(n) => n.checked_mul(10)?.checked_add(digit),
    }
}
