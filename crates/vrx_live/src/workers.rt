//! Three workers at once.

ghost use Rattle.std.specs.Prelude.{◌≡◌, ◌≢◌, ◌+◌, ◌≤◌, [], length, Ok, Err, Vec, IfOk, OnErr};
ghost use Rattle.std.specs.Global.{Global};
ghost use Rattle.vrx_lock.specs.Journal.{IsLegal};
ghost use Rattle.vrx_lock.specs.Lists.{counted_from};
ghost use Rattle.vrx_lock.specs.Shares.{IsWhole};
ghost use Rattle.vrx_live.specs.Runs.{HaveRun, HaveStopped};
ghost use Rattle.vrx_live.specs.declared.calls.Stop.{Stop};
ghost use Rattle.vrx_live.specs.declared.pieces.Piece.{Piece};
ghost use Rattle.vrx_live.specs.inside.Worker.{Ended};
ghost use Rattle.vrx_live.specs.inside.End.{AreWithin, HaveEnded, all_placed};

use crate::actors::{DATAGRAMS, PULLS, TICKS};
use crate::calls::Stop;
use crate::gate::Gate;
use crate::lists::Lists;
use crate::pieces::Piece;
use crate::printed::Printed;
use crate::worker::{Worked, work};
use std::alloc::Global;
use std::sync::Wait;
use std::thread::{Threads, join};
use vrx_codec::Codec;
use vrx_core::Event;
use vrx_lock::{Receiver, Seat};
use vrx_num::NoMemory;

/// The workers of the ticks and of the pulls.
fn work_two<R: Threads + Wait + Sync, C: Codec + Send + Sync, G: Gate + Sync>(
    rt: &R,
    alloc: Global,
    receiver: &Receiver<C>,
    two: Seat,
    three: Seat,
    ticks: &[(u32, Event)],
    pulls: &[(u32, Event)],
    gate: &G,
) -> (Worked, Worked)
    requires own { (two.table ≡ receiver.now.table) × (three.table ≡ receiver.now.table) }
    requires fresh { (two.known.places ≡ []) × (three.known.places ≡ []) }
    ensures tables { (result.0.seat.table ≡ two.table) × (result.1.seat.table ≡ three.table) }
    ensures ticks { Ended C.meaning two.known result.0.seat.known ticks.now result.0.pieces }
    ensures pulls { Ended C.meaning three.known result.1.seat.known pulls.now result.1.pieces }
{
    join(
        rt,
        move || -> Worked
            requires { (two.table ≡ receiver.now.table) × (two.known.places ≡ []) }
            ensures { (result.seat.table ≡ two.table) × Ended C.meaning two.known result.seat.known ticks.entry.now result.pieces }
        { work(rt, alloc, receiver, two, ticks, gate) },
        move || -> Worked
            requires { (three.table ≡ receiver.now.table) × (three.known.places ≡ []) }
            ensures { (result.seat.table ≡ three.table) × Ended C.meaning three.known result.seat.known pulls.entry.now result.pieces }
        { work(rt, alloc, receiver, three, pulls, gate) },
    )
}

/// All three workers.
fn work_three<R: Threads + Wait + Sync, C: Codec + Send + Sync, G: Gate + Sync>(
    rt: &R,
    alloc: Global,
    receiver: &Receiver<C>,
    one: Seat,
    two: Seat,
    three: Seat,
    lists: &Lists,
    gate: &G,
) -> (Worked, (Worked, Worked))
    requires own { (one.table ≡ receiver.now.table) × (two.table ≡ receiver.now.table) × (three.table ≡ receiver.now.table) }
    requires fresh { (one.known.places ≡ []) × (two.known.places ≡ []) × (three.known.places ≡ []) }
    ensures tables { (result.0.seat.table ≡ one.table) × (result.1.0.seat.table ≡ two.table) × (result.1.1.seat.table ≡ three.table) }
    ensures datagrams { Ended C.meaning one.known result.0.seat.known lists.now.datagrams result.0.pieces }
    ensures ticks { Ended C.meaning two.known result.1.0.seat.known lists.now.ticks result.1.0.pieces }
    ensures pulls { Ended C.meaning three.known result.1.1.seat.known lists.now.pulls result.1.1.pieces }
{
    let datagrams = lists.datagrams.as_slice();
    let ticks = lists.ticks.as_slice();
    let pulls = lists.pulls.as_slice();
    join(
        rt,
        move || -> Worked
            requires { (one.table ≡ receiver.now.table) × (one.known.places ≡ []) }
            ensures { (result.seat.table ≡ one.table) × Ended C.meaning one.known result.seat.known datagrams.entry.now result.pieces }
        { work(rt, alloc, receiver, one, datagrams, gate) },
        move || -> (Worked, Worked)
            requires { (two.table ≡ receiver.now.table) × (three.table ≡ receiver.now.table) × (two.known.places ≡ []) × (three.known.places ≡ []) }
            ensures { (result.0.seat.table ≡ two.table) × (result.1.seat.table ≡ three.table)
                × Ended C.meaning two.known result.0.seat.known ticks.entry.now result.0.pieces
                × Ended C.meaning three.known result.1.seat.known pulls.entry.now result.1.pieces }
        { work_two(rt, alloc, receiver, two, three, ticks, pulls, gate) },
    )
}

/// What the three workers give: the texts of all calls of each, unless it ended early.
#[derive(Drop)]
struct Gathered {
    datagrams: Result<Vec<Piece>, Stop>,
    ticks: Result<Vec<Piece>, Stop>,
    pulls: Result<Vec<Piece>, Stop>,
}

/// Splits the seat in three more, has the workers make the calls, and joins their seats.
fn gather<R: Threads + Wait + Sync, C: Codec + Send + Sync, G: Gate + Sync>(
    rt: &R,
    alloc: Global,
    receiver: &Receiver<C>,
    seat: &mut Seat,
    lists: &Lists,
    gate: &G,
) -> Gathered
    requires own { seat.old.table ≡ receiver.now.table }
    requires whole { IsWhole seat.old.known.share }
    requires fresh { seat.old.known.places ≡ [] }
    requires room { length lists.now.datagrams + length lists.now.ticks + length lists.now.pulls ≤ seat.old.known.setup.room }
    ensures table { seat.new.table ≡ seat.old.table }
    ensures end { HaveEnded C.meaning lists.now seat.old.known seat.new.known result.datagrams result.ticks result.pulls }
{
    let one = receiver.split(seat, DATAGRAMS);
    let two = receiver.split(seat, TICKS);
    let three = receiver.split(seat, PULLS);
    let (first, (second, third)) = work_three(rt, alloc, receiver, one, two, three, lists, gate);
    // Laws: the places of a seat rise.
    first.seat.is_seat();
    receiver.join(seat, first.seat);
    receiver.join(seat, second.seat);
    seat.is_seat();
    receiver.join(seat, third.seat);
    Gathered {
        datagrams: first.pieces,
        ticks: second.pieces,
        pulls: third.pieces,
    }
}

/// The texts of a worker that didn't meet a full journal.
fn pieces_of(pieces: Result<Vec<Piece>, Stop>) -> Result<Vec<Piece>, NoMemory>
    requires room { pieces ≢ Err Stop.Full }
    ensures { IfOk result (λ vec. pieces ≡ Ok vec) }
{
    match pieces {
        Ok(pieces) => Ok(pieces),
        Err(Stop::NoMemory) => Err(NoMemory),
        Err(Stop::Full) => unreachable!(),
    }
}

/// The texts of three workers, none of which met a full journal.
fn print(alloc: Global, gathered: Gathered) -> Result<Printed, NoMemory>
    requires room { (gathered.datagrams ≢ Err Stop.Full) × (gathered.ticks ≢ Err Stop.Full) × (gathered.pulls ≢ Err Stop.Full) }
    requires within { (one two three : Vec Piece Global) → gathered.datagrams ≡ Ok one → gathered.ticks ≡ Ok two →
        gathered.pulls ≡ Ok three → AreWithin one.items two.items three.items }
    ensures { IfOk result (λ printed. (one : Vec Piece Global) × (two : Vec Piece Global) × (three : Vec Piece Global) ×
        (gathered.datagrams ≡ Ok one) × (gathered.ticks ≡ Ok two) × (gathered.pulls ≡ Ok three) ×
        (printed ≡ all_placed one.items two.items three.items)) }
{
    let datagrams = pieces_of(gathered.datagrams)?;
    let ticks = pieces_of(gathered.ticks)?;
    let pulls = pieces_of(gathered.pulls)?;
    let count = datagrams.len() + ticks.len() + pulls.len();
    Printed::of(alloc, count, datagrams, ticks, pulls)
}

/// Offers the events of three lists with three actors, each in the order of its list and with a seat of its own: actor
/// 1 the datagrams, actor 2 the ticks, actor 3 the pulls. Each actor has a thread, or the caller does the work of one for
/// which no thread can be made. All are joined at the end, and the seat is whole again, whatever the answer is.
///
/// The receiver has room for all events, and the seat is whole and has made no calls. It fails only if it is out of
/// memory; the calls that were done then stay in the journal.
pub fn run_workers<R: Threads + Wait + Sync, C: Codec + Send + Sync, G: Gate + Sync>(
    rt: &R,
    alloc: Global,
    receiver: &Receiver<C>,
    seat: &mut Seat,
    lists: Lists,
    gate: &G,
) -> Result<Printed, NoMemory>
    requires own { seat.old.table ≡ receiver.now.table }
    requires whole { IsWhole seat.old.known.share }
    requires fresh { seat.old.known.places ≡ [] }
    requires room { length lists.datagrams + length lists.ticks + length lists.pulls ≤ seat.old.known.setup.room }
    ensures table { seat.new.table ≡ seat.old.table }
    ensures setup { (seat.new.known.setup ≡ seat.old.known.setup) × (seat.new.known.actor ≡ seat.old.known.actor) }
    ensures whole { IsWhole seat.new.known.share }
    ensures places { seat.new.known.places ≡ counted_from 0 (length seat.new.known.seen) }
    ensures legal { IsLegal seat.new.known.seen }
    ensures ok { IfOk result (λ printed. HaveRun C.meaning lists seat.new.known printed) }
    ensures err { OnErr result (HaveStopped lists seat.new.known) }
{
    let gathered = gather(rt, alloc, receiver, seat, &lists, gate);
    // A law: the room of a seat is legal.
    seat.is_seat();
    print(alloc, gathered)
}
