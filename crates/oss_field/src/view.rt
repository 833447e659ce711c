//! What a seat knows, for proofs alone.

ghost use Rattle.oss_field.specs.Known.{Known};
ghost use base.Fml.{ftrue};

use std::marker::Model;

/// What a seat knows. It takes no bytes, and no value of it is made: it stands in proofs alone.
pub(crate) struct SeatView {
    pub(crate) ghost known: { Known },
}

impl Model for SeatView {
    ghost also_owns = { λ _. ftrue };
}
