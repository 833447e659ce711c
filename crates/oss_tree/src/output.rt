//! The output of a run. Prints come in any order of time, and are put in point order when the output is asked for.
ghost use Rattle.std.specs.Prelude.{◌≡◌, IfOk, map};
ghost use Rattle.oss_tree.specs.Output.{IsOutput, is_up_to as passes, up_to};

use oss_model::Point;
use oss_syntax::Bytes;
use std::alloc::{AllocError, Global};

/// A print: the point at which it stands, and what was printed.
#[derive(Drop)]
pub struct Print {
    /// The point of the act that printed.
    pub at: Point,
    pub text: Bytes,
}

impl Print {
    /// Whether it stands at this point or before it.
    fn is_up_to(&self, last: &Point) -> bool
        ensures { result ≡ passes last.now self.now }
    {
        self.at <= *last
    }
}

/// The texts of all prints in point order.
pub(crate) fn output(alloc: Global, prints: &[Print]) -> Result<Bytes, AllocError>
    ensures { IfOk result (λ output. IsOutput prints.now output) }
{
    let mut shown = Vec::with_capacity(alloc, prints.len())?;
    for print in prints {
        shown.push(print)?;
    }
    in_order(alloc, shown)
}

/// The texts of the prints whose points are not past this one, in point order.
pub(crate) fn output_before(
    alloc: Global,
    prints: &[Print],
    last: &Point,
) -> Result<Bytes, AllocError>
    ensures { IfOk result (λ output. IsOutput (up_to last.now prints.now) output) }
{
    let mut shown = Vec::new(alloc);
    for print in prints {
        if print.is_up_to(last) {
            shown.push(print)?;
        }
    }
    in_order(alloc, shown)
}

/// The texts of these prints in point order.
fn in_order(alloc: Global, mut shown: Vec<&Print>) -> Result<Bytes, AllocError>
    ensures { IfOk result (λ output. IsOutput (map (λ print. print.now) shown.entry.items) output) }
{
    shown.sort_by(|a, b| a.at.cmp(&b.at))?;
    let mut texts = Bytes::new(alloc);
    for print in &shown {
        texts.extend(print.text.as_slice())?;
    }
    Ok(texts)
}
