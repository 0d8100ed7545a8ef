//! The greatest picture taken so far, and what a PictureID means beside it.

ghost use Rattle.std.specs.Prelude.{◌≡◌, ℕ, ◌+◌, ◌^◌, ◌≤◌, ◌<◌, Option, None, MatchOption, IfSome};
ghost use Rattle.vrx_num.specs.Extended.{greater};
ghost use Rattle.vrx_num.specs.Pictures.{IsPictureNear, IsNewestPicture, extended_picture};

use crate::limits::{HALF_PICTURES, PICTURES};
use std::marker::Model;

/// The greatest picture of VP8 taken so far, extended beyond the 15 bits of its PictureID (RFC 7741 4.2).
///
/// Contracts see it as that picture, or as `None` before the first.
#[derive(Clone, Copy, Debug)]
pub struct Pictures {
    newest: Option<u64>,
}

impl Model for Pictures {
    ghost Value = { Option ℕ };

    ghost view = { λ a. a.newest };

    ghost invariant = { λ a. IfSome a.newest IsNewestPicture };

    ghost inverse = { λ newest. record { newest = newest } };
}

impl Pictures {
    /// Pictures of which none was taken.
    pub fn new() -> Pictures
        ensures { result ≡ None }
    {
        Pictures { newest: None }
    }

    /// The greatest picture taken so far.
    pub fn newest(&self) -> Option<u64>
        ensures value { result ≡ self.now }
        ensures range { IfSome result IsNewestPicture }
    {
        self.newest
    }

    /// The picture that a PictureID of 15 bits means (RFC 7741 4.2).
    ///
    /// Before the first, it is the wire value and 32,768. After that, it is the picture that ends in these bits and
    /// is from 16,384 below the newest to 16,383 above it: just half of the space away, the older one.
    pub fn extend(&self, wire: u16) -> u64
        requires below { wire < PICTURES }
        ensures value { result ≡ extended_picture self.now wire }
        ensures at_least { HALF_PICTURES ≤ result }
        ensures near { MatchOption self.now (result ≡ wire + PICTURES) (λ newest. IsPictureNear newest wire result) }
    {
        let Some(newest) = self.newest else {
            return u64::from(wire) + PICTURES;
        };
        let half_behind = newest - HALF_PICTURES;
        half_behind + (u64::from(wire) + PICTURES - half_behind % PICTURES) % PICTURES
    }

    /// Takes the picture `n`: the newest is now the greater of the newest so far, if there is one, and `n`. The first
    /// one is at least 32,768. Each that `extend` answers may be taken, if it isn't above 2^62.
    pub fn accept(&mut self, n: u64)
        requires at_least { HALF_PICTURES ≤ n }
        requires first { self.old ≡ None → PICTURES ≤ n }
        requires at_most { n ≤ 2 ^ 62 }
        ensures { self.new ≡ greater self.old n }
    {
        self.newest = match self.newest {
            Some(newest) if newest >= n => Some(newest),
            _ => Some(n),
        };
    }
}
