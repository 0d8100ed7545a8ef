//! What is due at a moment.

ghost use Rattle.std.specs.Prelude.{◌≡◌, ◌<◌, ◌++◌, [], ◌∷◌, if◌then◌else◌, Some, None};
ghost use Rattle.arrayvec.specs.ArrayVec.{array_vec_len};
ghost use Rattle.vrx_num.specs.declared.limits.TheConstants.{WINDOW};
ghost use Rattle.vrx_asks.specs.Asks.{ask_after, asked_numbers, given_up_numbers, is_due, is_given_up};

use crate::ask::Ask;
use arrayvec::ArrayVec;
use vrx_num::limits::MOST_REQUESTS;

/// The numbers to ask for again, and those given up, each in their order. A receiver misses at most 2,047 numbers of
/// a window.
#[derive(Debug, Drop)]
pub struct Due {
    pub ask: ArrayVec<u64, 2048>,
    pub give_up: ArrayVec<u64, 2048>,
}

impl Due {
    /// Nothing is due.
    pub(crate) fn new() -> Due
        ensures ask { result.ask.items ≡ [] }
        ensures give_up { result.give_up.items ≡ [] }
    {
        Due {
            ask: ArrayVec::new(),
            give_up: ArrayVec::new(),
        }
    }

    /// What is left of an ask. Its number goes to those that are asked for again, or given up, if it is one of them.
    pub(crate) fn settle(&mut self, ask: Ask, now: u64, interval: u32) -> Option<Ask>
        requires room_to_ask { array_vec_len self.old.ask < WINDOW }
        requires room_to_give_up { array_vec_len self.old.give_up < WINDOW }
        ensures left { result ≡ (if is_given_up now interval ask then None else Some (ask_after now interval ask)) }
        ensures ask { self.new.ask.items ≡ self.old.ask.items ++ asked_numbers now interval (ask ∷ []) }
        ensures gone { self.new.give_up.items ≡ self.old.give_up.items ++ given_up_numbers now interval (ask ∷ []) }
    {
        if !is_due(ask, now, interval) {
            return Some(ask);
        }
        if ask.times < MOST_REQUESTS {
            self.ask.push(ask.number);
            return Some(Ask {
                number: ask.number,
                times: ask.times + 1,
                last: now,
            });
        }
        self.give_up.push(ask.number);
        None
    }
}

/// Whether the last request is an interval ago, or longer.
fn is_due(ask: Ask, now: u64, interval: u32) -> bool
    ensures { result ≡ is_due now interval ask }
{
    ask.last <= now && now - ask.last >= u64::from(interval)
}
