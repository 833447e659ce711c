//! Points of tasks, one beside another.

ghost use Rattle.std.specs.Prelude.{◌≡◌};
ghost use Rattle.oss_graph_text.specs.Points.{above as point_above, is_deep as lies_deep, is_main as names_main, same_point, stands_below};

/// Whether two points are one.
pub(crate) fn is_same(point: &[u16], other: &[u16]) -> bool
    ensures { result ≡ same_point point.now other.now }
{
    point == other
}

/// Whether the second is the point of a task below that with the first.
pub(crate) fn is_below(upper: &[u16], lower: &[u16]) -> bool
    ensures { result ≡ stands_below upper.now lower.now }
{
    upper.len() < lower.len() && upper == &lower[..upper.len()]
}

/// Whether it is the point of main.
pub(crate) fn is_main(point: &[u16]) -> bool
    ensures { result ≡ names_main point.now }
{
    point.len() == 1
}

/// Whether it is the point of a task that main has not created.
pub(crate) fn is_deep(point: &[u16]) -> bool
    ensures { result ≡ lies_deep point.now }
{
    point.len() > 2
}

/// The point of the creator of a task.
pub(crate) fn above(point: &[u16]) -> &[u16]
    ensures { result.now ≡ point_above point.now }
{
    &point[..point.len().saturating_sub(1)]
}
