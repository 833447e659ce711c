//! A thread's seat at a net.

ghost use Rattle.oss_word_net.specs.Standing.{Settled, Standing};
ghost use Rattle.std.specs.Prelude.{◌≡◌, ◌≤◌, ◌+◌, ◌*◌, [], vec_capacity};

use crate::held::Held;
use crate::steps::Place;
use std::marker::Model;

/// A thread's seat at a net: what it knows, and the messages that its steps have sent and that it has not
/// delivered yet. It has room for 1,024 messages from the start. A seat may go to another thread. It is seen as
/// the net's table, its own number, and what it knows.
#[derive(Drop)]
pub struct WordSeat {
    /// The seat at the table, by which each step is made.
    pub(crate) place: Place,
    /// The messages that wait for their delivery.
    pub(crate) held: Vec<Held>,
}

impl Model for WordSeat {
    ghost Value = { Standing };

    ghost view = { λ w. record { net = w.place.table_id; id = w.place.id; known = w.place.me.0.known } };

    ghost invariant = { λ w. Settled w.held.items w.place.me.0.known × (w.place.me.1 ≡ []) ×
        (1024 ≤ vec_capacity w.held) × (w.place.table_id.words ≡ 1 + 2 * w.place.me.0.known.entries) };
}
