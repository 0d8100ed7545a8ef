//! What is wanted: missing packets, and a keyframe.

ghost use Rattle.std.specs.Prelude.{◌≡◌, ◌+◌, ◌-◌, ◌<◌, ◌≤◌, ◌^◌, ◌++◌, nat_lt, not, ◌==◌, true, false, [], ◌∷◌, length, None, IfOk, IfSome};
ghost use Rattle.std.specs.List.{filter};
ghost use Rattle.std.specs.Option.{option_map_or};
ghost use Rattle.vrx_num.specs.Extended.{greater};
ghost use Rattle.vrx_num.specs.declared.limits.TheConstants.{WINDOW as WINDOW_SIZE};
ghost use Rattle.vrx_asks.specs.Asks.{are_below, asked_numbers, asks_left, given_up_numbers, is_near};
ghost use Rattle.vrx_asks.specs.IsAsks.{IsAsks};
ghost use Rattle.vrx_frames.specs.Completed.{is_among as is_among_of};
ghost use Rattle.vrx_core.specs.machine.GivenUp.{numbers_below};
ghost use Rattle.vrx_core.specs.inside.Wants.{AreBelow, asks_for, beyond_front, gap_from as gap_start, gap_of, is_lost_open as is_lost_open_by, is_open as is_open_by, key_taken, last_of as last_among, later_of as later_one, needs_key, nothing_wanted, asks_key, wanted_pulled, wanted_taken, wanted_ticked, with_all_missing, without_all};

use crate::assembler::Arrival;
use arrayvec::ArrayVec;
use std::alloc::Global;
use std::marker::Model;
use vrx_asks::{Asks, Due, KeyAsk};
use vrx_num::NoMemory;
use vrx_num::limits::WINDOW;

/// What is wanted of the sender.
///
/// It has the missing numbers, each with how often it was asked for; the greatest number given up; the first number of
/// the last keyframe pulled; whether a keyframe ever completed; and when a keyframe was last asked for.
#[derive(Drop)]
pub(crate) struct Requests {
    asks: Asks,
    lost: Option<u64>,
    key_pulled: Option<u64>,
    keyed: bool,
    key_ask: KeyAsk,
}

impl Model for Requests {
    ghost use Rattle.vrx_core.specs.relation.StandsFor.{Wanted};

    ghost Value = { Wanted };

    ghost view = { λ a. record { asks = a.asks; lost = a.lost; key_pulled = a.key_pulled; keyed = a.keyed; key_asked = a.key_ask } };
}

/// The greater of a number, if there is one, and another.
fn later(number: Option<u64>, n: u64) -> Option<u64>
    ensures { result ≡ greater number n }
{
    match number {
        Some(number) => Some(number.max(n)),
        None => Some(n),
    }
}

/// The greater of two numbers, if there are any.
fn later_of(one: Option<u64>, other: Option<u64>) -> Option<u64>
    ensures { result ≡ later_one one other }
{
    match one {
        None => other,
        Some(n) => later(other, n),
    }
}

/// The last of numbers, if there is one.
fn last_of(numbers: &[u64]) -> Option<u64>
    ensures { result ≡ last_among numbers.now }
{
    numbers.last().copied()
}

/// Whether n isn't answered by keyframes that begin at these numbers, if there are any.
fn is_open(standing: Option<u64>, pulled: Option<u64>, n: u64) -> bool
    ensures { result ≡ is_open_by standing pulled n }
{
    !standing.is_some_and(|key| n < key) && !pulled.is_some_and(|key| n < key)
}

/// Whether a number was given up that isn't answered, if this is the greatest one.
fn is_lost_open(standing: Option<u64>, pulled: Option<u64>, lost: Option<u64>) -> bool
    ensures { result ≡ is_lost_open_by standing pulled lost }
{
    match lost {
        Some(n) => is_open(standing, pulled, n),
        None => false,
    }
}

/// Where the numbers begin that are missing once the newest number has moved from one to another.
fn gap_from(before: Option<u64>, after: u64) -> u64
    requires short { IfSome before (λ m. m < 2 ^ 62) }
    ensures { result ≡ gap_start before after }
{
    match before {
        None => after,
        Some(before) => (before + 1).max(after.saturating_sub(WINDOW - 1)),
    }
}

/// Whether a number is one of these.
fn is_among(numbers: &[u64], n: u64) -> bool
    ensures { result ≡ is_among_of numbers.now n }
{
    match numbers {
        [] => false,
        [first, rest @ ..] => n == *first || is_among(rest, n),
    }
}

/// Puts a number last, unless it is one of these.
fn push_unless(numbers: &mut ArrayVec<u64, 2048>, among: &[u64], n: u64)
    requires room { length numbers.old.items < 2048 }
    ensures items { numbers.new.items ≡ numbers.old.items ++ filter (λ m. not (is_among_of among.now m)) (n ∷ []) }
    ensures len { length numbers.new.items ≤ length numbers.old.items + 1 }
{
    if !is_among(among, n) {
        numbers.push(n);
    }
}

/// These numbers wait no more.
fn arrive_all(asks: &mut Asks, numbers: &[u64])
    ensures { asks.new ≡ without_all numbers.now asks.old }
{
    match numbers {
        [] => {}
        [n, rest @ ..] => {
            asks.arrived(*n);
            arrive_all(asks, rest);
        }
    }
}

/// The numbers from one on, below another, are missing, and are asked for at this moment. They become the whole list,
/// but for those that were repaired.
fn notice(
    asks: &mut Asks,
    from: u64,
    below: u64,
    now: u64,
    repaired: &[u64],
    numbers: &mut ArrayVec<u64, 2048>,
)
    requires above { are_below from asks.old ≡ true }
    requires near { is_near (below - 1) asks.old ≡ true }
    requires few { below < from + WINDOW_SIZE }
    ensures noticed { asks.new ≡ with_all_missing now (numbers_below from below) asks.old }
    ensures numbers { numbers.new.items ≡ filter (λ n. not (is_among_of repaired.now n)) (numbers_below from below) }
{
    numbers.clear();
    for n in from..below {
        asks.noticed(n, now);
        push_unless(numbers, repaired, n);
    }
}

/// What is due at a moment. Its contract also says what always holds of the missing numbers.
fn settle(asks: &mut Asks, now: u64, interval: u32, due: &mut Due)
    ensures ask { due.new.ask.items ≡ asked_numbers now interval asks.old }
    ensures give_up { due.new.give_up.items ≡ given_up_numbers now interval asks.old }
    ensures left { asks.new ≡ asks_left now interval asks.old }
    ensures sound { IsAsks asks.old }
{
    if asks.is_empty() {
        due.ask.clear();
        due.give_up.clear();
    } else {
        *due = asks.due(now, interval);
    }
}

impl Requests {
    /// Nothing is wanted. Only this call takes memory.
    pub(crate) fn new(alloc: Global) -> Result<Requests, NoMemory>
        ensures nothing { IfOk result (λ requests. requests ≡ nothing_wanted) }
    {
        Ok(Requests {
            asks: Asks::new(alloc)?,
            lost: None,
            key_pulled: None,
            keyed: false,
            key_ask: KeyAsk::new(),
        })
    }

    /// A packet was taken: what it is waits no more, and what it makes missing is asked for. Numbers that are passed, or
    /// that left the window, aren't missing any more. `key` is the greatest first number of a keyframe that stands.
    /// The numbers to ask for become the whole list, and the result says whether a keyframe is asked for.
    pub(crate) fn taken(
        &mut self,
        now: u64,
        arrival: &Arrival,
        front: Option<u64>,
        key: Option<u64>,
        numbers: &mut ArrayVec<u64, 2048>,
    ) -> bool
        requires below { AreBelow arrival.now.newest self.old.asks }
        requires short { IfSome arrival.now.newest (λ m. m < 2 ^ 62) }
        ensures wanted { self.new ≡ wanted_taken now arrival.now front key self.old }
        ensures numbers { numbers.new.items ≡ asks_for arrival.now }
        ensures key { result ≡ key_taken now arrival.now key self.old }
        ensures sound { IsAsks self.old.asks }
    {
        // What always holds of the missing numbers is a clause of this call.
        let _ = self.asks.is_empty();
        let after = arrival.newest.unwrap_or(arrival.number).max(arrival.number);
        self.asks.arrived(arrival.number);
        self.asks.passed(after.saturating_sub(WINDOW));
        self.pass(front);
        let from = gap_from(arrival.newest, after);
        let repaired = arrival.repaired.as_slice();
        notice(&mut self.asks, from, after, now, repaired, numbers);
        arrive_all(&mut self.asks, repaired);
        self.lost = later_of(arrival.lost, self.lost);
        if arrival.key {
            self.keyed = true;
            self.key_ask.completed();
        }
        let wants = is_lost_open(key, self.key_pulled, arrival.lost);
        self.key_ask.decide(now, wants)
    }

    /// Time has passed: what is due is asked for again, or given up. `started` says whether a packet was ever taken.
    /// The result says whether a keyframe is asked for.
    pub(crate) fn ticked(
        &mut self,
        now: u64,
        interval: u32,
        started: bool,
        key: Option<u64>,
        due: &mut Due,
    ) -> bool
        ensures wanted { self.new ≡ wanted_ticked now interval started key self.old }
        ensures numbers { due.new.ask.items ≡ asked_numbers now interval self.old.asks }
        ensures lost { due.new.give_up.items ≡ given_up_numbers now interval self.old.asks }
        ensures key { result ≡ asks_key now (needs_key now interval started key self.old) self.old.key_asked }
        ensures sound { IsAsks self.old.asks }
    {
        settle(&mut self.asks, now, interval, due);
        self.lost = later_of(last_of(due.give_up.as_slice()), self.lost);
        let wants = is_lost_open(key, self.key_pulled, self.lost) || (started && !self.keyed);
        self.key_ask.decide(now, wants)
    }

    /// A frame was pulled: it is a keyframe or not, and its first number is this.
    pub(crate) fn pulled(&mut self, front: Option<u64>, key: bool, first: u64)
        ensures wanted { self.new ≡ wanted_pulled front key first self.old }
    {
        self.pass(front);
        if key {
            self.key_pulled = Some(first);
        }
    }

    /// The numbers up to the front aren't missing any more.
    fn pass(&mut self, front: Option<u64>)
        ensures passed { self.new ≡ record self.old { asks = beyond_front front self.old.asks } }
    {
        if let Some(front) = front {
            self.asks.passed(front);
        }
    }
}
