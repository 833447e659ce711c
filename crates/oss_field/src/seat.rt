//! A thread's seat at a field.

ghost use Rattle.std.specs.Prelude.{◌≡◌, ◌≢◌, ◌<◌, ◌≤◌, [], vec_capacity, IfNone, IfSome, MatchBool};
ghost use Rattle.oss_field.specs.Asks.{AreInside};
ghost use Rattle.oss_field.specs.Messages.{JoinFirst, NoJoinFirst, Settled};
ghost use Rattle.oss_field.specs.Standing.{Standing, carried};

use crate::held::{Held, has_some, join_of};
use crate::touched::Touched;
use crate::words::Place;
use std::marker::Model;

/// A thread's seat at a field: what it knows, which jobs it holds, and the messages that its steps have sent and that it
/// has not delivered yet. It has room for 1,024 messages from the start. A seat may go to another thread. It is seen as
/// the field's table, its own number, and what it knows.
#[derive(Drop)]
pub struct FieldSeat {
    /// The seat at the table, by which each step is made.
    pub(crate) place: Place,
    /// The messages that wait for their delivery.
    pub(crate) held: Vec<Held>,
    /// What the last delivery touched.
    pub(crate) last: Touched,
}

impl Model for FieldSeat {
    ghost Value = { Standing };

    ghost view = { λ w. record { field = w.place.table_id; id = w.place.id; known = w.place.me.0.known } };

    ghost invariant = { λ w. (w.place.me.1 ≡ carried w.place.me.0.known.bears) ×
        AreInside w.place.table_id w.place.me.0.known.bears ×
        Settled w.held.items w.place.table_id.slots w.place.me.0.known × (1024 ≤ vec_capacity w.held) ×
        (w.last ≡ w.place.me.0.known.last) × (0 < w.place.me.0.known.words.parts) };
}

impl FieldSeat {
    /// Whether the seat holds a message. It takes no step.
    pub fn holding(&self) -> bool
        ensures { MatchBool result (self.now.known.words.held ≢ []) (self.now.known.words.held ≡ []) }
    {
        has_some(&self.held)
    }

    /// The entry whose join comes first among the messages that the seat holds. `None` exactly if no join does. It takes
    /// no step.
    pub fn next_join(&self) -> Option<u32>
        ensures some { IfSome result (λ e. JoinFirst self.now.known e) }
        ensures none { IfNone result (NoJoinFirst self.now.known) }
    {
        join_of(&self.held)
    }

    /// The entry that the seat's last delivery touched, with its state word after it and its info word. A fold delivers
    /// the join of its entry. Before the first delivery all three are 0. Who waits for the entry `Touched::entry_info`
    /// and `Field::peek_info` tell.
    pub fn touched(&self) -> Touched
        ensures { result ≡ self.now.known.last }
    {
        self.last
    }
}
