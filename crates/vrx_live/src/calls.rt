//! A call of a worker: one event is offered until the receiver's turn is free.

ghost use Rattle.std.specs.Prelude.{◌≡◌, Ok, IfOk, IfErr};
ghost use Rattle.vrx_core.specs.declared.event.Event.{Event};
ghost use Rattle.vrx_lock.specs.Seats.{RefusedAt, TickRefusedAt};
ghost use Rattle.vrx_lock.specs.declared.known.Known.{Known};
ghost use Rattle.vrx_live.specs.declared.calls.Stop.{Stop};
ghost use Rattle.vrx_live.specs.inside.Worker.{CallFailed, CallMade, CallStopped};

use crate::gate::Gate;
use crate::pieces::Piece;
use std::alloc::Global;
use std::sync::Wait;
use std::thread::yield_now;
use vrx_codec::Codec;
use vrx_core::Event;
use vrx_lock::{Done, OfferFault, Receiver, Seat, TickFault};
use vrx_num::NoMemory;
use vrx_text::{text_of_handled, text_of_pulled, text_of_tick};

/// Why a worker ends before its list does.
#[derive(Clone, Copy, Debug, PartialEq, Eq)]
pub(crate) enum Stop {
    /// The journal has all the entries that it takes.
    Full,
    /// No memory was to be had.
    NoMemory,
}

/// A call that was done, with the lines of its reply, unless there was no memory for them.
type Made = Done<Result<Vec<u8>, NoMemory>>;

/// Offers a datagram once.
fn offer_datagram<C: Codec>(
    alloc: Global,
    receiver: &Receiver<C>,
    seat: &mut Seat,
    k: u32,
    moment: u64,
    bytes: &[u8],
) -> Result<Made, OfferFault>
    requires own { seat.old.table ≡ receiver.now.table }
    ensures table { seat.new.table ≡ seat.old.table }
    ensures made { IfOk result (λ made. CallMade C.meaning seat.old.known seat.new.known k (Event.Datagram moment bytes.now) made.place made.reply) }
    ensures refused { IfErr result (λ fault. RefusedAt seat.old.known seat.new.known fault) }
{
    match receiver.offer_datagram(seat, moment, bytes) {
        Ok(done) => Ok(Done {
            place: done.place,
            reply: text_of_handled(alloc, k, &done.reply),
        }),
        Err(fault) => Err(fault),
    }
}

/// The fault of a tick as that of an offer.
fn offer_fault(fault: TickFault) -> OfferFault
    ensures { (old new : Known) → TickRefusedAt old new fault → RefusedAt old new result }
{
    match fault {
        TickFault::Busy { holder } => OfferFault::Busy { holder },
        TickFault::JournalFull => OfferFault::JournalFull,
    }
}

/// Offers a tick once.
fn offer_tick<C: Codec>(
    alloc: Global,
    receiver: &Receiver<C>,
    seat: &mut Seat,
    k: u32,
    moment: u64,
) -> Result<Made, OfferFault>
    requires own { seat.old.table ≡ receiver.now.table }
    ensures table { seat.new.table ≡ seat.old.table }
    ensures made { IfOk result (λ made. CallMade C.meaning seat.old.known seat.new.known k (Event.Tick moment) made.place made.reply) }
    ensures refused { IfErr result (λ fault. RefusedAt seat.old.known seat.new.known fault) }
{
    match receiver.offer_tick(seat, moment) {
        Ok(done) => Ok(Done {
            place: done.place,
            reply: text_of_tick(alloc, k, &done.reply),
        }),
        Err(fault) => Err(offer_fault(fault)),
    }
}

/// Offers a pull once.
fn offer_pull<C: Codec>(
    alloc: Global,
    receiver: &Receiver<C>,
    seat: &mut Seat,
    k: u32,
    moment: u64,
) -> Result<Made, OfferFault>
    requires own { seat.old.table ≡ receiver.now.table }
    ensures table { seat.new.table ≡ seat.old.table }
    ensures made { IfOk result (λ made. CallMade C.meaning seat.old.known seat.new.known k (Event.Pull moment) made.place made.reply) }
    ensures refused { IfErr result (λ fault. RefusedAt seat.old.known seat.new.known fault) }
{
    match receiver.offer_pull(seat, moment) {
        Ok(done) => Ok(Done {
            place: done.place,
            reply: text_of_pulled(alloc, k, &done.reply),
        }),
        Err(fault) => Err(fault),
    }
}

/// Offers an event once.
fn offer<C: Codec>(
    alloc: Global,
    receiver: &Receiver<C>,
    seat: &mut Seat,
    k: u32,
    event: &Event,
) -> Result<Made, OfferFault>
    requires own { seat.old.table ≡ receiver.now.table }
    ensures table { seat.new.table ≡ seat.old.table }
    ensures made { IfOk result (λ made. CallMade C.meaning seat.old.known seat.new.known k event.now made.place made.reply) }
    ensures refused { IfErr result (λ fault. RefusedAt seat.old.known seat.new.known fault) }
{
    match event {
        Event::Datagram { moment, bytes } => {
            offer_datagram(alloc, receiver, seat, k, *moment, bytes.as_slice())
        }
        Event::Tick { moment } => offer_tick(alloc, receiver, seat, k, *moment),
        Event::Pull { moment } => offer_pull(alloc, receiver, seat, k, *moment),
    }
}

/// Offers an event until the turn is free.
fn offer_until<R: Wait, C: Codec>(
    rt: &R,
    alloc: Global,
    receiver: &Receiver<C>,
    seat: &mut Seat,
    k: u32,
    event: &Event,
) -> Result<Made, Stop>
    requires own { seat.old.table ≡ receiver.now.table }
    ensures table { seat.new.table ≡ seat.old.table }
    ensures made { IfOk result (λ made. CallMade C.meaning seat.old.known seat.new.known k event.now made.place made.reply) }
    ensures stopped { IfErr result (λ stop. CallStopped seat.old.known seat.new.known stop) }
{
    for _ in rt.forever() {
        match offer(alloc, receiver, seat, k, event) {
            Ok(made) => return Ok(made),
            Err(OfferFault::Busy { holder: _ }) => yield_now(),
            Err(OfferFault::JournalFull) => return Err(Stop::Full),
            Err(OfferFault::NoMemory) => return Err(Stop::NoMemory),
        }
    }
    unreachable!()
}

/// A piece of a call that was done, if there was memory for its text.
fn piece_of(k: u32, made: Made) -> Result<Piece, Stop>
    ensures ok { IfOk result (λ piece. (piece.k ≡ k) × (piece.place ≡ made.place) × (made.reply ≡ Ok piece.text)) }
    ensures err { IfErr result (λ stop. stop ≡ Stop.NoMemory) }
{
    let Done { place, reply } = made;
    match reply {
        Ok(text) => Ok(Piece { place, k, text }),
        Err(NoMemory) => Err(Stop::NoMemory),
    }
}

/// Makes the call of this turn, between the two calls of the gate.
pub(crate) fn call<R: Wait, C: Codec, G: Gate>(
    rt: &R,
    alloc: Global,
    receiver: &Receiver<C>,
    seat: &mut Seat,
    turn: u64,
    k: u32,
    event: &Event,
    gate: &G,
) -> Result<Piece, Stop>
    requires own { seat.old.table ≡ receiver.now.table }
    ensures table { seat.new.table ≡ seat.old.table }
    ensures made { IfOk result (λ piece. (piece.k ≡ k) ×
        CallMade C.meaning seat.old.known seat.new.known k event.now piece.place (Ok piece.text)) }
    ensures failed { IfErr result (λ stop. CallFailed seat.old.known seat.new.known event.now stop) }
{
    let actor = seat.actor();
    gate.before(actor, turn);
    let answer = offer_until(rt, alloc, receiver, seat, k, event);
    gate.after(actor, turn);
    match answer {
        Ok(made) => piece_of(k, made),
        Err(stop) => Err(stop),
    }
}
