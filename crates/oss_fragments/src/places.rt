//! A search by halving in numbers that rise.

ghost use Rattle.std.specs.Prelude.{◌≡◌, ℕ, IfNone, IfSome, Some, slice_get};
ghost use Rattle.oss_retire.specs.Remainder.{AreRising};

/// Where a number stands among numbers that rise. It costs the logarithm of how many there are, and one look where
/// all smaller numbers stand before it: then its place is the number itself.
pub(crate) fn place_of(numbers: &[usize], number: usize) -> Option<usize>
    requires { AreRising numbers.now }
    ensures found { IfSome result (λ at. slice_get numbers.now at ≡ Some number) }
    ensures none { IfNone result ((at : ℕ) → slice_get numbers.now at ≡ Some number → ⊥) }
{
    if number < numbers.len() && numbers[number] == number {
        return Some(number);
    }
    let mut lo = 0;
    let mut hi = numbers.len();
    'halves: while lo < hi {
        let middle = lo + (hi - lo) / 2;
        let here = numbers[middle];
        if here == number {
            return Some(middle);
        }
        if here < number {
            lo = middle + 1;
        } else {
            hi = middle;
        }
    }
    None
}
