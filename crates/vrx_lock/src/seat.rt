//! A seat, which each thread has of its own.

ghost use Rattle.std.specs.Prelude.{◌≡◌};
ghost use Rattle.vrx_lock.specs.Seats.{IsSeat};

use crate::view::View;
use atomic_table::Badge;
use std::marker::Model;

/// A seat of a receiver: the right to make calls, and what is known from those made.
///
/// It can go to another thread. It has an actor, which its entries in the journal bear, and a share of the receiver:
/// `Receiver::split` gives half of the share away, and `Receiver::join` adds another seat's. A seat is whole if it has all.
#[derive(Drop)]
pub struct Seat {
    pub(crate) badge: Badge<View>,
    pub(crate) actor: u32,
    pub(crate) calls: u64,
}

impl Model for Seat {
    ghost use Rattle.vrx_lock.specs.Seats.{SeatParts};
    ghost use Rattle.vrx_lock.specs.inside.Steps.{Seated, known_in};

    ghost Value = { SeatParts };

    ghost view = { λ s. record { table = s.badge.table_id; known = known_in s.badge.views } };

    ghost invariant = { λ s. Seated s.badge.views s.actor s.calls };
}

impl Seat {
    /// The actor, which the entries of this seat's calls bear.
    pub fn actor(&self) -> u32
        ensures { result ≡ self.now.known.actor }
    {
        self.actor
    }

    /// A law: what holds of every seat. It runs nothing.
    pub fn is_seat(&self)
        ensures { IsSeat self.now.known }
    {
        let _ = &self.badge;
    }
}
