//! A walk back over pictures.

ghost use Rattle.std.specs.Prelude.{◌≡◌, ℕ, ◌+◌, ◌<◌, ◌≤◌, true, ◌&&◌, not, nat_le, List, []};
ghost use Rattle.arrayvec.specs.ArrayVec.{array_vec_len};
ghost use Rattle.vrx_refs.specs.declared.limits.TheConstants.{LAYERS};
ghost use Rattle.vrx_refs.specs.declared.sighting.Sighting.{Sighting};
ghost use Rattle.vrx_refs.specs.Met.{IsMet};
ghost use Rattle.vrx_refs.specs.References.{are_met, met_with, was_met};

use crate::sighting::Sighting;
use arrayvec::ArrayVec;

/// What one picture makes of a walk.
#[derive(Clone, Copy, Debug, PartialEq, Eq)]
pub(crate) enum Step {
    /// The picture isn't seen: the walk comes to no end.
    Lost,
    /// The walk ends at it.
    Ended,
    /// The walk goes on.
    On,
}

/// Meets a picture of TID `tid` on the walk for a frame of TID `top`: it counts if it is the first of its TID.
pub(crate) fn meet(met: &mut ArrayVec<Sighting, 4>, top: u8, picture: u64, tid: u8)
    requires room { array_vec_len met.old < LAYERS }
    ensures met { met.new.items ≡ met_with top picture tid met.old.items }
    ensures more { array_vec_len met.new ≤ array_vec_len met.old + 1 }
{
    if tid <= top && !was_met(met.as_slice(), tid) {
        met.push(Sighting { picture, tid });
    }
}

/// Whether a TID was met.
fn was_met(met: &[Sighting], tid: u8) -> bool
    ensures { result ≡ was_met tid met.now }
{
    met.iter().any(|sighting| sighting.tid == tid)
}

/// Whether all TIDs up to this one were met.
pub(crate) fn are_met(met: &ArrayVec<Sighting, 4>, top: u8) -> bool
    ensures { result ≡ are_met top met.now.items }
{
    met.len() == usize::from(top) + 1
}

/// Which TIDs were met on a walk, and how many are left of those that it looks for.
#[derive(Clone, Copy, Debug, PartialEq, Eq)]
pub(crate) struct Met {
    pub was: [bool; 4],
    pub left: u8,
}

impl Met {
    /// None was met on the walk for a frame of TID `top`.
    pub(crate) fn none(top: u8) -> Met
        requires top { top < LAYERS }
        ensures { IsMet top result [] }
    {
        Met {
            was: [false; 4],
            left: top + 1,
        }
    }

    /// Whether a picture of TID `tid` counts on the walk for a frame of TID `top`: whether it is the first of its TID.
    pub(crate) fn is_first(&self, top: u8, tid: u8) -> bool
        requires top { top < LAYERS }
        ensures first { (met : List Sighting) → IsMet top self.now met →
            result ≡ (nat_le tid top && not (was_met tid met)) }
        ensures within { result ≡ true → tid ≤ top }
    {
        tid <= top && !self.was[usize::from(tid)]
    }

    /// What was met once a picture of TID `tid` is.
    pub(crate) fn with(self, top: u8, tid: u8) -> Met
        requires top { top < LAYERS }
        requires some { 0 < self.left }
        ensures { (met : List Sighting) (picture : ℕ) → IsMet top self met →
            IsMet top result (met_with top picture tid met) }
    {
        if !self.is_first(top, tid) {
            return self;
        }
        let mut was = self.was;
        was[usize::from(tid)] = true;
        Met {
            was,
            left: self.left - 1,
        }
    }
}
