//! The rule of the table, and what each kind of step tells. Of the eight kinds, `out` and `in` move the value of the
//! slot, and change no view: they are `Shared::exchange`.

ghost use Rattle.std.specs.Prelude.{ℕ};
ghost use Rattle.vrx_core.specs.declared.event.Event.{Event};
ghost use Rattle.vrx_lock.specs.declared.entry.Entry.{Entry};
ghost use Rattle.vrx_lock.specs.Journal.{entry};
ghost use Rattle.vrx_lock.specs.inside.Steps.{Appended, Claimed, Looked, Released, Settled, both_views, left_view, right_view, spent_view};

use crate::kept::Kept;
use crate::known::Setup;
use crate::view::View;
use atomic_table::{Join, Play, Shared, Split, TableRule};
use std::marker::{Brand, PhantomData};
use vrx_codec::Codec;

/// The rule: `specs/inside/Rule.antt`.
pub struct Law;

impl<C: Codec> TableRule<Option<Kept<C>>, View, Setup> for Law {
    ghost use Rattle.vrx_lock.specs.inside.Rule.{Ruled, first_view};

    ghost holds = { Ruled };

    ghost first = { first_view };
}

/// The table, as threads see it: word 0 is the turn, word 1 the count of entries, and slot 0 has the engine.
pub(crate) type Desk<C> = Shared<Option<Kept<C>>, View, Setup, Law>;

/// A seat of the table.
pub(crate) type Place<C> = atomic_table::Seat<Option<Kept<C>>, View>;

/// A claim of the turn.
pub(crate) struct Claim;

impl<C: Codec> Play<Option<Kept<C>>, View> for Claim {
    ghost then = { λ st m found n. Claimed m found n };
}

/// The entry of an append, which its caller picks.
pub trait Asked {
    ghost asked: { Entry };
}

impl Asked for Brand {
    ghost asked = { entry 0 0 (Event.Tick 0) };
}

/// One entry more.
pub(crate) struct Append<B: Asked> {
    of: PhantomData<B>,
}

impl<C: Codec, B: Asked> Play<Option<Kept<C>>, View> for Append<B> {
    ghost then = { λ st m found n. Appended B.asked m found n };
}

/// The turn is given back.
pub(crate) struct Release;

impl<C: Codec> Play<Option<Kept<C>>, View> for Release {
    ghost then = { λ st m found n. Released m n };
}

/// A look at the count.
pub(crate) struct Look;

impl<C: Codec> Play<Option<Kept<C>>, View> for Look {
    ghost then = { λ st m found n. Looked m found n };
}

/// A look after a join.
pub(crate) struct Settle;

impl<C: Codec> Play<Option<Kept<C>>, View> for Settle {
    ghost then = { λ st m found n. Settled m found n };
}

/// The actor of a new seat, which its caller picks.
pub trait Called {
    ghost called: { ℕ };
}

impl Called for Brand {
    ghost called = { 0 };
}

/// A seat is split.
pub(crate) struct Cut<B: Called> {
    of: PhantomData<B>,
}

impl<B: Called> Split<View> for Cut<B> {
    ghost left = { left_view };

    ghost right = { right_view B.called };
}

/// Two seats are joined.
pub(crate) struct Glue;

impl Join<View> for Glue {
    ghost both = { both_views };

    ghost spent = { spent_view };
}
