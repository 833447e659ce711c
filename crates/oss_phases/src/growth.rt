//! How tables grow from one phase to the next.

ghost use Rattle.std.specs.Prelude.{◌≡◌, ◌≤◌, ◌<◌, IfNone, IfSome};

/// How many entries the next table has: as many as the last one if what is needed is at most half of them, and else twice as
/// many, as often as it takes to have room for what is needed, but never more than `most`. `None` exactly if more than
/// `most` are needed.
pub(crate) fn grown(entries: u32, needed: u64, most: u32) -> Option<u32>
    requires entries { (0 < entries) × (entries ≤ most) }
    requires most { most ≤ 16777216 }
    ensures some { IfSome result (λ next. (needed ≤ next) × (entries ≤ next) × (next ≤ most)) }
    ensures none { IfNone result (most < needed) }
{
    if needed > most as u64 {
        return None;
    }
    let mut next = entries;
    if needed * 2 > entries as u64 {
        next = twice(next, most);
    }
    while needed > next as u64 {
        next = twice(next, most);
    }
    Some(next)
}

/// Twice as many, but at most `most`.
fn twice(entries: u32, most: u32) -> u32
    requires { (0 < entries) × (entries ≤ most) × (most ≤ 16777216) }
    ensures { (entries ≤ result) × (result ≤ most) × ((entries < most) → entries < result) }
{
    (entries * 2).min(most)
}
