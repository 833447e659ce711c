//! Points of tasks, one beside another.

ghost use Rattle.std.specs.Prelude.{◌≡◌, ◌<◌, length, if◌then◌else◌, Some, None, IfSome};
ghost use Rattle.oss_span_check.specs.Points.{below, parted};

/// Whether the second is the point of a task below that with the first.
pub(crate) fn is_below(upper: &[u16], lower: &[u16]) -> bool
    ensures { result ≡ below upper.now lower.now }
{
    upper.len() < lower.len() && upper == &lower[..upper.len()]
}

/// Where two points part, if the second has the smaller number there.
pub(crate) fn part(later: &[u16], earlier: &[u16]) -> Option<usize>
    ensures place { result ≡ parted 0 later.now earlier.now }
    ensures within { IfSome result (λ at. (at < length later.now) × (at < length earlier.now)) }
{
    let mut at = 0;
    while at < later.len() && at < earlier.len() {
        if later[at] != earlier[at] {
            return when(earlier[at] < later[at], at);
        }
        at += 1;
    }
    None
}

/// The number, if the test is passed.
fn when(is: bool, n: usize) -> Option<usize>
    ensures { result ≡ if is then Some n else None }
{
    if is { Some(n) } else { None }
}
