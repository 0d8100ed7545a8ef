//! The greatest number taken so far, and what a wire number means beside it.

ghost use Rattle.std.specs.Prelude.{◌≡◌, ℕ, ◌+◌, ◌^◌, ◌≤◌, ◌↔◌, Option, None, MatchOption, IfSome, IsNone};
ghost use Rattle.vrx_num.specs.Extended.{Extends, IsHalfAway, IsNewest, extended_number, greater};

use crate::limits::HALF_SPACE;
use std::marker::Model;

/// How many numbers 16 bits tell apart.
const SPACE: u64 = 65_536;

/// The greatest sequence number taken so far, extended beyond 16 bits (RFC 3550 A.1).
///
/// Contracts see it as that number, or as `None` before the first.
#[derive(Clone, Copy, Debug)]
pub struct Extender {
    newest: Option<u64>,
}

impl Model for Extender {
    ghost Value = { Option ℕ };

    ghost view = { λ a. a.newest };

    ghost invariant = { λ a. IfSome a.newest IsNewest };

    ghost inverse = { λ newest. record { newest = newest } };
}

impl Extender {
    /// An extender that has taken no number.
    pub fn new() -> Extender
        ensures { result ≡ None }
    {
        Extender { newest: None }
    }

    /// The greatest number taken so far.
    pub fn newest(&self) -> Option<u64>
        ensures value { result ≡ self.now }
        ensures range { IfSome result IsNewest }
    {
        self.newest
    }

    /// The number that a wire number means (RFC 3550 A.1, by the nearest cycle as in RFC 3711 3.3.1).
    ///
    /// Before the first, it is the one in the cycle 1; after that, the one that is nearer than half of
    /// the space to the newest. `None` says that it is just half of the space away.
    pub fn extend(&self, wire: u16) -> Option<u64>
        ensures value { result ≡ extended_number self.now wire }
        ensures number { IfSome result (λ n.
            MatchOption self.now (n ≡ wire + 65536) (λ newest. Extends newest wire n)) }
        ensures none { IsNone result ↔ IsHalfAway self.now wire }
    {
        let Some(newest) = self.newest else {
            return Some(u64::from(wire) + SPACE);
        };
        let half_behind = newest - HALF_SPACE;
        let ahead = (u64::from(wire) + SPACE - half_behind % SPACE) % SPACE;
        if ahead == 0 {
            return None;
        }
        Some(half_behind + ahead)
    }

    /// Takes the number `n`: the newest is now the greater of the newest so far, if there is one, and `n`.
    pub fn accept(&mut self, n: u64)
        requires at_least { HALF_SPACE ≤ n }
        requires at_most { n ≤ 2 ^ 62 }
        ensures { self.new ≡ greater self.old n }
    {
        self.newest = match self.newest {
            Some(newest) if newest >= n => Some(newest),
            _ => Some(n),
        };
    }
}
