//! Where a global lies.
ghost use Rattle.std.specs.Prelude.{◌<◌};
ghost use Rattle.std.specs.Option.{ForSome};

use oss_syntax::Range;

/// Where a global lies.
#[derive(Clone, Copy)]
pub struct GlobalPlace {
    /// Its cells.
    pub range: Range,
    /// How many of them make a row of an array of two dimensions; `None` for every other global.
    pub columns: Option<u32>,
    pub ghost wide: { ForSome columns (λ m. 0 < m) },
}
