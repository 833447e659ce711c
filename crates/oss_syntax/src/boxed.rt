//! Boxes, for the trees of a program. A contract does not see where one lies.
ghost use Rattle.std.specs.Prelude.{◌≡◌, IfOk};

use std::alloc::{AllocError, Global};
use std::marker::Model;

/// A `Box` that contracts see as the value in it, so that two trees are equal where they mean the same,
/// wherever they lie.
#[derive(Drop)]
pub struct Boxed<T> {
    place: Box<T>,
}

impl<T> Model for Boxed<T> {
    ghost Value = { T };

    ghost coded = { T.code };

    ghost view = { λ boxed. boxed.place.value };
}

impl<T> Boxed<T> {
    /// The value in the box.
    pub fn get(&self) -> &T
        ensures { result.now ≡ self.now }
    {
        &self.place
    }

    /// The value, out of its box.
    pub fn into_inner(self) -> T
        ensures { result ≡ self }
    {
        let Boxed { place } = self;
        Box::into_inner(place)
    }
}

impl<T: Drop> Boxed<T> {
    /// A box with this value.
    pub fn new(alloc: Global, value: T) -> Result<Boxed<T>, AllocError>
        ensures { IfOk result (λ boxed. boxed ≡ value) }
    {
        let place = Box::new(alloc, value)?;
        Ok(Boxed { place })
    }
}
