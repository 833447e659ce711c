//! The labels of a program, as they are kept and found.

ghost use Rattle.std.specs.Prelude.{◌≡◌, ◌∷◌, []};
ghost use Rattle.std.specs.Option.{option_copied};
ghost use Rattle.oss_labels.specs.Lists.{IsCut, Rise, label_at};

use oss_syntax::{Bytes, List};
use std::alloc::Global;
use std::marker::Model;

/// The label of a task, and the instruction with which the body of the task begins.
pub struct Labelled {
    pub entry: u32,
    pub label: Bytes,
}

// By hand, so that who lets one go calls this, and does not take it apart at each exit.
impl Drop for Labelled {
    fn drop(self) {
        let Labelled { entry: _, label } = self;
        drop(label);
    }
}

/// The labels of a program's tasks, by the instructions with which their bodies begin. Contracts see the list of them, in
/// which the instructions rise.
#[derive(Drop)]
pub struct Labels {
    list: List<Labelled>,
}

impl Model for Labels {
    ghost use Rattle.std.specs.Prelude.{List as Items};
    ghost use Rattle.oss_labels.specs.declared.labels.Labelled.{Labelled};
    ghost use Rattle.oss_labels.specs.Lists.{Rise};

    ghost Value = { Items Labelled };

    ghost view = { λ labels. labels.list };

    ghost invariant = { λ labels. Rise 0 labels.list };
}

impl Labels {
    /// Those of a program without labels.
    pub fn none(alloc: Global) -> Labels
        ensures { result ≡ [] }
    {
        Labels::of(List::new(alloc))
    }

    /// These labels.
    pub(crate) fn of(list: List<Labelled>) -> Labels
        requires { Rise 0 list }
        ensures { result ≡ list }
    {
        Labels { list }
    }

    /// The label of the task whose body begins with this instruction; `None` exactly where none that has a label begins
    /// there. It takes no memory, and costs the logarithm of how many labels there are.
    pub fn at(&self, entry: u32) -> Option<&[u8]>
        ensures { option_copied result ≡ label_at self.now entry }
    {
        let before = before(self.list.as_slice(), entry);
        match self.list.get(before) {
            Some(labelled) => label_for(labelled, entry),
            None => None,
        }
    }
}

/// The label, if it is that of this entry.
fn label_for(labelled: &Labelled, entry: u32) -> Option<&[u8]>
    ensures { option_copied result ≡ label_at (labelled.now ∷ []) entry }
{
    if labelled.entry == entry {
        return Some(labelled.label.as_slice());
    }
    None
}

/// How many of the entries stand before this one.
fn before(list: &[Labelled], entry: u32) -> usize
    requires { Rise 0 list.now }
    ensures { IsCut list.now entry result }
{
    let mut lo = 0;
    let mut hi = list.len();
    'halves: while lo < hi {
        let middle = lo + (hi - lo) / 2;
        if list[middle].entry < entry {
            lo = middle + 1;
        } else {
            hi = middle;
        }
    }
    lo
}
