//! An offer, step by step, with a seat of the table.

ghost use Rattle.std.specs.Prelude.{◌≡◌, ◌<◌, ◌≤◌, [], ◌∷◌, length, Some, None, IfOk, IfErr};
ghost use Rattle.vrx_lock.specs.declared.limits.TheConstants.{MOST_ENTRIES};
ghost use Rattle.vrx_lock.specs.Lists.{BeginsWith};
ghost use Rattle.vrx_lock.specs.inside.Steps.{Appended, Began, Claimed, Finished, Found, Glued, IsHolding, IsIdle, IsNoted, IsTable, Looked, Released, Stopped, left_view, newest, right_view};

use crate::kept::Kept;
use crate::law::{Append, Asked, Called, Claim, Cut, Desk, Glue, Look, Place, Release, Settle};
use std::marker::Brand;
use vrx_codec::Codec;

/// Tries the turn once. The word found is 0 if it was free, and else one more than the actor that has it.
fn claim<C: Codec>(desk: &Desk<C>, place: &mut Place<C>, actor: u32) -> u64
    requires table { (place.old.table_id ≡ desk.now.table_id) × IsTable desk.now.table_id }
    requires idle { IsIdle place.old.me × (actor ≡ place.old.me.0.known.actor) }
    ensures table { place.new.table_id ≡ place.old.table_id }
    ensures claimed { Claimed place.old.me result place.new.me }
{
    desk.compare_exchange::<Claim>(place, 0, 0, u64::from(actor) + 1)
}

/// Tries the turn once, and takes the value out if it got it. Else the word found comes back.
pub(crate) fn begin<C: Codec>(
    desk: &Desk<C>,
    place: &mut Place<C>,
    actor: u32,
) -> Result<Kept<C>, u64>
    requires table { (place.old.table_id ≡ desk.now.table_id) × IsTable desk.now.table_id }
    requires idle { IsIdle place.old.me × (actor ≡ place.old.me.0.known.actor) }
    ensures table { place.new.table_id ≡ place.old.table_id }
    ensures ok { IfOk result (λ kept. Began place.old.me kept place.new.me) }
    ensures err { IfErr result (λ holder. Found place.old.me holder place.new.me) }
{
    let found = claim(desk, place, actor);
    if found != 0 {
        return Err(found);
    }
    match desk.exchange(place, 0, None) {
        Some(kept) => Ok(kept),
        None => unreachable!(),
    }
}

/// Counts the entry that the value in hand has beyond the journal of the view. Its place comes back.
fn append<C: Codec, B: Asked>(desk: &Desk<C>, place: &mut Place<C>, kept: &Kept<C>) -> u64
    requires table { (place.old.table_id ≡ desk.now.table_id) × IsTable desk.now.table_id }
    requires noted { IsNoted place.old.me kept.now }
    requires asked { newest kept.now.journal ≡ B.asked }
    ensures table { place.new.table_id ≡ place.old.table_id }
    ensures appended { Appended B.asked place.old.me result place.new.me }
{
    desk.fetch_add::<Append<B>>(place, 1, 1)
}

/// Looks at the count, with the turn.
fn look<C: Codec>(desk: &Desk<C>, place: &mut Place<C>, kept: &Kept<C>) -> u64
    requires table { (place.old.table_id ≡ desk.now.table_id) × IsTable desk.now.table_id }
    requires holding { IsHolding kept.now.journal None place.old.me }
    ensures table { place.new.table_id ≡ place.old.table_id }
    ensures looked { Looked place.old.me result place.new.me }
{
    desk.load::<Look>(place, 1)
}

/// Puts the value in, and gives the turn back.
pub(crate) fn give_back<C: Codec>(desk: &Desk<C>, place: &mut Place<C>, kept: Kept<C>)
    requires table { (place.old.table_id ≡ desk.now.table_id) × IsTable desk.now.table_id }
    requires holding { IsHolding kept.journal None place.old.me × (kept.setup ≡ place.old.me.0.known.setup) }
    ensures table { place.new.table_id ≡ place.old.table_id }
    ensures released { Released place.old.me place.new.me }
{
    desk.exchange(place, 0, Some(kept));
    desk.store::<Release>(place, 0, 0);
}

/// Counts the new entry of the value in hand, puts the value in, and gives the turn back. The entry's place comes back.
pub(crate) fn finish<C: Codec>(desk: &Desk<C>, place: &mut Place<C>, kept: Kept<C>) -> u64
    requires table { (place.old.table_id ≡ desk.now.table_id) × IsTable desk.now.table_id }
    requires noted { IsNoted place.old.me kept }
    ensures table { place.new.table_id ≡ place.old.table_id }
    ensures finished { Finished place.old.me kept.journal result place.new.me }
{
    let number = append::<C, Brand>(desk, place, &kept);
    give_back(desk, place, kept);
    number
}

/// Looks at the count of a full journal, puts the value in, and gives the turn back.
pub(crate) fn refuse_full<C: Codec>(desk: &Desk<C>, place: &mut Place<C>, kept: Kept<C>)
    requires table { (place.old.table_id ≡ desk.now.table_id) × IsTable desk.now.table_id }
    requires holding { IsHolding kept.journal None place.old.me × (kept.setup ≡ place.old.me.0.known.setup) }
    ensures table { place.new.table_id ≡ place.old.table_id }
    ensures stopped { Stopped place.old.me kept.journal place.new.me }
{
    look(desk, place, &kept);
    give_back(desk, place, kept);
}

/// Looks at the count, without the turn.
pub(crate) fn glance<C: Codec>(desk: &Desk<C>, place: &mut Place<C>) -> u64
    requires table { (place.old.table_id ≡ desk.now.table_id) × IsTable desk.now.table_id }
    requires idle { IsIdle place.old.me }
    ensures table { place.new.table_id ≡ place.old.table_id }
    ensures looked { Looked place.old.me result place.new.me }
{
    desk.load::<Look>(place, 1)
}

/// Gives half of the share to a new seat with this actor.
pub(crate) fn cut<C: Codec, B: Called>(desk: &Desk<C>, place: &mut Place<C>, actor: u32) -> Place<C>
    requires table { (place.old.table_id ≡ desk.now.table_id) × IsTable desk.now.table_id }
    requires idle { IsIdle place.old.me }
    requires called { actor ≡ B.called }
    ensures table { (place.new.table_id ≡ place.old.table_id) × (result.table_id ≡ place.old.table_id) }
    ensures left { (place.new.me.0 ≡ left_view place.old.me.0) × (place.new.me.1 ≡ []) }
    ensures right { (result.me.0 ≡ right_view actor place.old.me.0) × (result.me.1 ≡ []) }
{
    desk.split_seat::<Cut<B>>(place)
}

/// Makes two seats one, and looks at the count.
pub(crate) fn glue<C: Codec>(desk: &Desk<C>, place: &mut Place<C>, other: Place<C>)
    requires table { (place.old.table_id ≡ desk.now.table_id) × (other.table_id ≡ desk.now.table_id) × IsTable desk.now.table_id }
    requires idle { IsIdle place.old.me × IsIdle other.me }
    ensures table { place.new.table_id ≡ place.old.table_id }
    ensures glued { Glued place.old.me.0 other.me.0 place.new.me }
{
    desk.join_seat::<Glue>(place, other);
    desk.load::<Settle>(place, 1);
}
