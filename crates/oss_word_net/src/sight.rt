//! What a seat knows, for proofs alone.

ghost use Rattle.oss_word_net.specs.Known.{Known};
ghost use base.Fml.{ftrue};

use std::marker::Model;

/// What a seat knows. It takes no bytes, and no value of it is made: it stands in proofs alone.
pub(crate) struct Sight {
    pub(crate) ghost known: { Known },
}

impl Model for Sight {
    ghost also_owns = { λ _. ftrue };
}
