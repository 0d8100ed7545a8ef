//! One worker: the calls of one list, in order.

ghost use Rattle.std.specs.Prelude.{◌≡◌, [], ◌∷◌, ◌++◌, length, Ok, IfErr, OnOk};
ghost use Rattle.vrx_live.specs.declared.calls.Stop.{Stop};
ghost use Rattle.vrx_live.specs.declared.pieces.Piece.{Piece};
ghost use Rattle.vrx_live.specs.inside.Worker.{CallFailed, CallMade, Ended};

use crate::calls::{Stop, call};
use crate::gate::Gate;
use crate::pieces::Piece;
use std::alloc::Global;
use std::sync::Wait;
use vrx_codec::Codec;
use vrx_core::Event;
use vrx_lock::{Receiver, Seat};

/// What a worker leaves: its seat, and the texts of all its calls, unless it ended early.
#[derive(Drop)]
pub struct Worked {
    pub(crate) seat: Seat,
    pub(crate) pieces: Result<Vec<Piece>, Stop>,
}

/// Puts a piece last, unless memory runs out.
fn keep(pieces: &mut Vec<Piece>, piece: Piece) -> Result<(), Stop>
    ensures ok { OnOk result (pieces.new.items ≡ pieces.old.items ++ piece ∷ []) }
    ensures err { IfErr result (λ stop. stop ≡ Stop.NoMemory) }
{
    match pieces.push(piece) {
        Ok(()) => Ok(()),
        Err(_) => Err(Stop::NoMemory),
    }
}

/// Makes the call of this turn, and keeps its text.
fn step<R: Wait, C: Codec, G: Gate>(
    rt: &R,
    alloc: Global,
    receiver: &Receiver<C>,
    seat: &mut Seat,
    turn: u64,
    line: &(u32, Event),
    gate: &G,
    pieces: &mut Vec<Piece>,
) -> Result<(), Stop>
    requires own { seat.old.table ≡ receiver.now.table }
    ensures table { seat.new.table ≡ seat.old.table }
    ensures made { OnOk result ((piece : Piece) × (pieces.new.items ≡ pieces.old.items ++ piece ∷ []) × (piece.k ≡ line.now.0) ×
        CallMade C.meaning seat.old.known seat.new.known line.now.0 line.now.1 piece.place (Ok piece.text)) }
    ensures failed { IfErr result (λ stop. CallFailed seat.old.known seat.new.known line.now.1 stop) }
{
    let (k, event) = line;
    match call(rt, alloc, receiver, seat, turn, *k, event, gate) {
        Ok(piece) => keep(pieces, piece),
        Err(stop) => Err(stop),
    }
}

/// Offers the events of these lines in order, with a seat that has made no call.
pub(crate) fn work<R: Wait, C: Codec, G: Gate>(
    rt: &R,
    alloc: Global,
    receiver: &Receiver<C>,
    mut seat: Seat,
    lines: &[(u32, Event)],
    gate: &G,
) -> Worked
    requires own { seat.table ≡ receiver.now.table }
    requires fresh { seat.known.places ≡ [] }
    ensures table { result.seat.table ≡ seat.table }
    ensures ended { Ended C.meaning seat.known result.seat.known lines.now result.pieces }
{
    let mut pieces = Vec::new(alloc);
    for (i, line) in lines.iter().enumerate() {
        let turn = i as u64 + 1;
        match step(
            rt,
            alloc,
            receiver,
            &mut seat,
            turn,
            line,
            gate,
            &mut pieces,
        ) {
            Ok(()) => {}
            Err(stop) => {
                return Worked {
                    seat,
                    pieces: Err(stop),
                };
            }
        }
    }
    Worked {
        seat,
        pieces: Ok(pieces),
    }
}
