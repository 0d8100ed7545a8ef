//! The numbers that are missing.

ghost use Rattle.std.specs.Prelude.{◌≡◌, ◌<◌, ◌≤◌, ◌==◌, true, [], length, drop, remove, IfOk, IfSome, IfNone};
ghost use Rattle.vrx_asks.specs.Asks.{are_below, asked_numbers, asks_left, beyond, given_up_numbers, is_near, with_missing, without};
ghost use Rattle.vrx_asks.specs.IsAsks.{IsAsks, rises};

use crate::ask::Ask;
use crate::due::Due;
use std::alloc::Global;
use std::marker::Model;
use vrx_num::NoMemory;
use vrx_num::limits::WINDOW;

/// The numbers that a receiver misses, each with how often it was asked for.
///
/// Contracts see the list of asks, whose numbers rise. Its memory is taken once: room for 2,048.
#[derive(Drop)]
pub struct Asks {
    asks: Vec<Ask>,
}

impl Model for Asks {
    ghost use Rattle.std.specs.Prelude.{◌≤◌, ℕ, List, vec_capacity};
    ghost use Rattle.vrx_num.specs.declared.limits.TheConstants.{WINDOW};
    ghost use Rattle.vrx_asks.specs.declared.ask.Ask.{Ask};
    ghost use Rattle.vrx_asks.specs.Kept.{IsKept};

    ghost Value = { List Ask };

    ghost view = { λ a. a.asks.items };

    ghost invariant = { λ a. IsKept a.asks.items (vec_capacity a.asks) };
}

impl Asks {
    /// Nothing is missing. Only this call takes memory.
    pub fn new(alloc: Global) -> Result<Asks, NoMemory>
        ensures empty { IfOk result (λ asks. asks ≡ []) }
    {
        Ok(Asks {
            asks: Vec::with_capacity(alloc, WINDOW as usize)?,
        })
    }

    /// Whether nothing is missing. Its contract also says what always holds of the missing numbers.
    pub fn is_empty(&self) -> bool
        ensures empty { result ≡ (length self.now == 0) }
        ensures sound { IsAsks self.now }
    {
        self.asks.is_empty()
    }

    /// A number is missing, and is asked for at this moment. It is above all that are missing, and at most 2,046
    /// above the first of them. It takes no memory.
    pub fn noticed(&mut self, n: u64, now: u64)
        requires above { are_below n self.old ≡ true }
        requires near { is_near n self.old ≡ true }
        ensures noticed { self.new ≡ with_missing n now self.old }
    {
        match self.asks.push(Ask {
            number: n,
            times: 1,
            last: now,
        }) {
            Ok(()) => {}
            Err(_) => unreachable!(),
        }
    }

    /// A number arrived: it isn't missing any more.
    pub fn arrived(&mut self, n: u64)
        ensures arrived { self.new ≡ without n self.old }
    {
        if let Some(place) = place_of(self.asks.as_slice(), n) {
            self.asks.remove(place);
        }
    }

    /// The numbers up to one aren't missing any more. Mostly it is the first alone that leaves, if one does.
    pub fn passed(&mut self, n: u64)
        ensures passed { self.new ≡ beyond n self.old }
    {
        match count_up_to(self.asks.as_slice(), n) {
            0 => {}
            1 => {
                self.asks.remove(0);
            }
            _ => self.asks.retain(|ask| n < ask.number),
        }
    }

    /// The numbers to ask for again at this moment, and those given up. A number is due once the interval is over
    /// since its last request, in milliseconds. It is asked for 10 times at most, and then given up when it is due.
    pub fn due(&mut self, now: u64, interval: u32) -> Due
        ensures ask { result.ask.items ≡ asked_numbers now interval self.old }
        ensures give_up { result.give_up.items ≡ given_up_numbers now interval self.old }
        ensures left { self.new ≡ asks_left now interval self.old }
    {
        let mut due = Due::new();
        let mut kept = 0;
        for i in 0..self.asks.len() {
            if let Some(ask) = due.settle(self.asks[i], now, interval) {
                self.asks[kept] = ask;
                kept += 1;
            }
        }
        self.asks.truncate(kept);
        due
    }
}

/// The place of a number, if it is missing.
fn place_of(asks: &[Ask], n: u64) -> Option<usize>
    requires rise { rises asks.now ≡ true }
    ensures found { IfSome result (λ at. (at < length asks.now) × (remove asks.now at ≡ without n asks.now)) }
    ensures absent { IfNone result (without n asks.now ≡ asks.now) }
{
    asks.binary_search_by_key(&n, |ask| ask.number).ok()
}

/// How many numbers aren't above n. They stand first.
fn count_up_to(asks: &[Ask], n: u64) -> usize
    requires rise { rises asks.now ≡ true }
    ensures within { result ≤ length asks.now }
    ensures rest { drop result asks.now ≡ beyond n asks.now }
{
    match asks {
        [] => 0,
        [first, rest @ ..] => {
            if n < first.number {
                0
            } else {
                1 + count_up_to(rest, n)
            }
        }
    }
}
