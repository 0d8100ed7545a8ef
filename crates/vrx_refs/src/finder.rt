//! The reference finder.

ghost use Rattle.std.specs.Prelude.{◌≡◌, ◌+◌, ◌-◌, ◌%◌, ◌<◌, ◌≤◌, true, false, List, [], ◌∷◌, ◌++◌, length, replicate, max, IfOk, IfSome, Some, None};
ghost use Rattle.std.specs.Bool.{OnFalse};
ghost use Rattle.std.specs.List.{Contains, find, list_all};
ghost use Rattle.std.specs.Option.{option_map};
ghost use Rattle.arrayvec.specs.ArrayVec.{array_vec_len};
ghost use Rattle.vrx_codec.specs.declared.run.Run.{Run};
ghost use Rattle.vrx_refs.specs.declared.limits.TheConstants.{INDEXES, LAYERS, MEMORY, REACH};
ghost use Rattle.vrx_refs.specs.declared.sighting.Sighting.{Sighting};
ghost use Rattle.vrx_refs.specs.declared.walk.Step.TheVariants as Step;
ghost use Rattle.vrx_refs.specs.Finder.{IsWhole, base_at, sight_at, slot_at};
ghost use Rattle.vrx_refs.specs.Kept.{are_pulled_at, base_index, has_index, is_base_ready, is_place_ready, is_pulled_at, is_run_ready, judge_base, judge_by, judge_next, judge_place, met_at, not_pulled_at, step_at, walk_at, with_base, with_mark, with_pulled, with_seen};
ghost use Rattle.vrx_refs.specs.Knows.{Knows};
ghost use Rattle.vrx_refs.specs.References.{counts, has_layer, is_passed_before, is_ready, is_recent, judge, pictures, was_carried};
ghost use Rattle.vrx_refs.specs.View.{view};

use crate::judged::Judged;
use crate::limits::{INDEXES, MEMORY, REACH};
use crate::sight::Sight;
use crate::sighting::Sighting;
use crate::walk::{Met, Step, are_met, meet};
use arrayvec::ArrayVec;
use std::alloc::Global;
use std::marker::Model;
use vrx_codec::{Place, Run};
use vrx_num::{NoMemory, before8};

/// What a receiver knows of the frames that a frame refers to.
///
/// Contracts say of a finder that it `Knows` what was told and pulled: two lists, the newest first. It remembers the
/// 4,096 newest pictures, and the last frame pulled of each index. Its memory is taken once.
#[derive(Drop)]
pub struct Finder {
    newest: u64,
    sights: Vec<Option<Sight>>,
    bases: Vec<Option<u64>>,
    has_pulled: bool,
}

impl Model for Finder {
    ghost use Rattle.vrx_refs.specs.Finder.{Finder, IsWhole};

    ghost Value = { Finder };

    ghost view = { λ a. record { newest = a.newest; sights = a.sights.items; bases = a.bases.items; has_pulled = a.has_pulled } };

    ghost invariant = { λ a. IsWhole a.sights.items a.bases.items };
}

impl Finder {
    /// Nothing was told or pulled. Only this call takes memory.
    pub fn new(alloc: Global) -> Result<Finder, NoMemory>
        ensures knows { IfOk result (λ finder. Knows finder [] []) }
    {
        let sights = nothing(alloc, MEMORY as usize)?;
        let bases = nothing(alloc, INDEXES as usize)?;
        Ok(Finder {
            newest: 0,
            sights,
            bases,
            has_pulled: false,
        })
    }

    /// A packet of this picture and TID was taken or repaired.
    pub fn seen(&mut self, picture: u64, tid: u8)
        ensures knows { (told : List Sighting) (pulled : List Run) → Knows self.old told pulled →
            Knows self.new (record { picture = picture; tid = tid } ∷ told) pulled }
    {
        self.see(picture, tid);
    }

    /// A run was pulled. If it has layers, some packet carried its picture.
    pub fn pulled(&mut self, run: &Run)
        ensures knows { (told : List Sighting) (pulled : List Run) → was_carried told run.now.layers ≡ true →
            Knows self.old told pulled → Knows self.new told (run.now ∷ pulled) }
    {
        self.pull(run);
    }

    /// How far a run is from being decoded, with the numbers up to `passed` passed. If it has layers, its TID is
    /// below 4.
    pub fn judge(&self, run: &Run, passed: Option<u64>) -> Judged
        requires layer { has_layer run.now.layers ≡ true }
        ensures judged { (told : List Sighting) (pulled : List Run) → Knows self.now told pulled →
            view result ≡ judge told pulled passed run.now }
    {
        self.judge_run(run, passed)
    }

    /// The first of the runs that is ready, with the numbers up to `passed` passed: one that is key, or that refers to
    /// frames that are known and were all pulled. The TIDs of those that have layers are below 4.
    ///
    /// It looks at fewer pictures than `judge` does: a walk ends at the first one met that wasn't pulled.
    pub fn first_ready(&self, runs: &[Run], passed: Option<u64>) -> Option<Run>
        requires layers { list_all (λ run. has_layer run.layers) runs.now ≡ true }
        ensures ready { (told : List Sighting) (pulled : List Run) → Knows self.now told pulled →
            result ≡ find (λ run. is_ready (judge told pulled passed run)) runs.now }
        ensures among { IfSome result (λ run. Contains runs.now run) }
    {
        for at in 0..runs.len() {
            if self.is_ready(&runs[at], passed) {
                return Some(runs[at]);
            }
        }
        None
    }

    /// Whether a run is ready, with the numbers up to `passed` passed. If it has layers, its TID is below 4.
    #[inline(always)]
    pub fn is_ready(&self, run: &Run, passed: Option<u64>) -> bool
        requires layer { has_layer run.now.layers ≡ true }
        ensures ready { (told : List Sighting) (pulled : List Run) → Knows self.now told pulled →
            result ≡ is_ready (judge told pulled passed run.now) }
    {
        self.is_run_ready(run, passed)
    }

    /// Whether a run is ready, by what is remembered.
    #[inline(always)]
    fn is_run_ready(&self, run: &Run, passed: Option<u64>) -> bool
        requires layer { has_layer run.now.layers ≡ true }
        ensures ready { result ≡ is_run_ready self.now passed run.now }
        ensures index { OnFalse run.now.key (has_index run.now.layers ≡ true) }
    {
        if run.key {
            return true;
        }
        match run.layers {
            None => self.has_pulled && is_passed_before(passed, run.first),
            Some(place) => self.is_place_ready(place),
        }
    }

    /// Whether a frame of this place is ready.
    #[inline(always)]
    fn is_place_ready(&self, place: Place) -> bool
        requires layer { place.tid < LAYERS }
        ensures ready { result ≡ is_place_ready self.now place }
        ensures index { place.tl0 < INDEXES }
    {
        match base_index(place) {
            Some(index) => self.has_base(place.picture, index),
            None => !self.waits_at_once(place) && self.is_walk_pulled(place),
        }
    }

    /// Whether the walk back from a frame ends at the picture before it already, which isn't seen, or counts and wasn't
    /// pulled. Most frames that wait do so for that one.
    #[inline(never)]
    fn waits_at_once(&self, place: Place) -> bool
        requires layer { place.tid < LAYERS }
        ensures { result ≡ true → are_pulled_at self.now (walk_at self.now place) ≡ false }
    {
        if place.picture == 0 {
            return true;
        }
        match self.sight(place.picture - 1) {
            Some(sight) => sight.tid <= place.tid && !sight.pulled,
            None => true,
        }
    }

    /// Whether the base of an index counts for a picture.
    #[inline(always)]
    fn has_base(&self, picture: u64, index: u8) -> bool
        ensures { result ≡ is_base_ready picture (base_at self.now index) }
    {
        match self.bases[usize::from(index)] {
            Some(base) => counts(picture, base),
            None => false,
        }
    }

    /// Whether each picture met on the walk back from a frame was pulled, if the walk comes to an end.
    #[inline(never)]
    fn is_walk_pulled(&self, place: Place) -> bool
        requires layer { place.tid < LAYERS }
        ensures { result ≡ are_pulled_at self.now (walk_at self.now place) }
    {
        let mut met = Met::none(place.tid);
        let mut below = place.picture;
        for _step in 0..REACH {
            if below == 0 {
                return false;
            }
            below -= 1;
            let Some(sight) = self.sight(below) else {
                return false;
            };
            if met.is_first(place.tid, sight.tid) && !sight.pulled {
                return false;
            }
            met = met.with(place.tid, sight.tid);
            if met.left == 0 || sight.key {
                return true;
            }
        }
        false
    }

    /// Judges a run by what is remembered.
    fn judge_run(&self, run: &Run, passed: Option<u64>) -> Judged
        requires layer { has_layer run.now.layers ≡ true }
        ensures judged { view result ≡ judge_by self.now passed run.now }
        ensures index { OnFalse run.now.key (has_index run.now.layers ≡ true) }
    {
        if run.key {
            return Judged::Key;
        }
        match run.layers {
            None => self.judge_next(run.first, passed),
            Some(place) => self.judge_place(place),
        }
    }

    /// Judges a run without layers.
    fn judge_next(&self, first: u64, passed: Option<u64>) -> Judged
        ensures { view result ≡ judge_next self.now.has_pulled passed first }
    {
        if self.has_pulled && is_passed_before(passed, first) {
            Judged::Needs(ArrayVec::new())
        } else {
            Judged::Unknown
        }
    }

    /// Judges a run by its place.
    fn judge_place(&self, place: Place) -> Judged
        requires layer { place.tid < LAYERS }
        ensures judged { view result ≡ judge_place self.now place }
        ensures index { place.tl0 < INDEXES }
    {
        match base_index(place) {
            Some(index) => self.judge_base(place.picture, index),
            None => match self.walk(place) {
                Some(met) => Judged::Needs(self.not_pulled(&met)),
                None => Judged::Unknown,
            },
        }
    }

    /// Judges a picture that refers to the base of an index only.
    fn judge_base(&self, picture: u64, index: u8) -> Judged
        ensures { view result ≡ judge_base picture (base_at self.now index) }
    {
        match self.bases[usize::from(index)] {
            Some(base) if counts(picture, base) => Judged::Needs(ArrayVec::new()),
            _ => Judged::Unknown,
        }
    }

    /// The pictures met on the walk back from a frame, if it comes to an end.
    fn walk(&self, place: Place) -> Option<ArrayVec<Sighting, 4>>
        requires layer { place.tid < LAYERS }
        ensures { option_map (λ met. pictures met.items) result ≡ walk_at self.now place }
    {
        let mut met = ArrayVec::new();
        let mut below = place.picture;
        for _ in 0..REACH {
            if below == 0 {
                return None;
            }
            below -= 1;
            match self.step(&mut met, place.tid, below) {
                Step::Lost => return None,
                Step::Ended => return Some(met),
                Step::On => {}
            }
        }
        None
    }

    /// Goes on to a picture, on the walk back from a frame of this TID.
    fn step(&self, met: &mut ArrayVec<Sighting, 4>, tid: u8, picture: u64) -> Step
        requires layer { tid < LAYERS }
        requires few { array_vec_len met.old ≤ tid }
        ensures step { result ≡ step_at self.now tid picture met.old.items }
        ensures met { met.new.items ≡ met_at self.now tid picture met.old.items }
        ensures few { result ≡ Step.On → array_vec_len met.new ≤ tid }
    {
        let Some(sight) = self.sight(picture) else {
            return Step::Lost;
        };
        meet(met, tid, picture, sight.tid);
        if are_met(met, tid) || sight.key {
            Step::Ended
        } else {
            Step::On
        }
    }

    /// The pictures met that weren't pulled.
    fn not_pulled(&self, met: &ArrayVec<Sighting, 4>) -> ArrayVec<u64, 4>
        ensures { result.items ≡ not_pulled_at self.now (pictures met.now.items) }
    {
        let mut pictures = ArrayVec::new();
        let met = met.as_slice();
        for i in 0..met.len() {
            self.note(&mut pictures, met[i].picture);
        }
        pictures
    }

    /// Notes a picture, unless it was pulled.
    fn note(&self, pictures: &mut ArrayVec<u64, 4>, picture: u64)
        requires room { array_vec_len pictures.old < 4 }
        ensures noted { pictures.new.items ≡ pictures.old.items ++ not_pulled_at self.now (picture ∷ []) }
        ensures more { array_vec_len pictures.new ≤ array_vec_len pictures.old + 1 }
    {
        if !self.was_pulled(picture) {
            pictures.push(picture);
        }
    }

    /// Whether a picture that is seen was pulled.
    fn was_pulled(&self, picture: u64) -> bool
        ensures { result ≡ is_pulled_at self.now picture }
    {
        match self.sight(picture) {
            Some(sight) => sight.pulled,
            None => false,
        }
    }

    /// What is remembered of a picture.
    fn sight(&self, picture: u64) -> Option<Sight>
        ensures { result ≡ sight_at self.now picture }
    {
        if is_recent(self.newest, picture) {
            self.slot(picture)
        } else {
            None
        }
    }

    /// What its slot says of a picture.
    fn slot(&self, picture: u64) -> Option<Sight>
        ensures { result ≡ slot_at self.now.sights picture }
    {
        match self.sights[slot_of(picture)] {
            Some(sight) if sight.picture == picture => Some(sight),
            _ => None,
        }
    }

    /// Remembers the TID of a picture, unless it is known or too old.
    fn see(&mut self, picture: u64, tid: u8)
        ensures seen { self.new ≡ with_seen picture tid self.old }
        ensures whole { IsWhole self.old.sights self.old.bases }
    {
        if is_recent(self.newest, picture) && self.slot(picture).is_none() {
            self.newest = self.newest.max(picture);
            self.sights[slot_of(picture)] = Some(Sight {
                picture,
                tid,
                pulled: false,
                key: false,
            });
        }
    }

    /// Remembers that a run was pulled.
    fn pull(&mut self, run: &Run)
        ensures pulled { self.new ≡ with_pulled run.now self.old }
        ensures whole { IsWhole self.old.sights self.old.bases }
    {
        if let Some(place) = run.layers {
            self.mark(place.picture, run.key);
            self.settle(place);
        }
        self.has_pulled = true;
    }

    /// Marks a picture as pulled.
    fn mark(&mut self, picture: u64, key: bool)
        ensures newest { self.new.newest ≡ self.old.newest }
        ensures sights { self.new.sights ≡ with_mark picture key self.old.sights }
        ensures bases { self.new.bases ≡ self.old.bases }
    {
        if let Some(sight) = self.slot(picture) {
            self.sights[slot_of(picture)] = Some(Sight {
                picture,
                tid: sight.tid,
                pulled: true,
                key: sight.key || key,
            });
        }
    }

    /// Makes a frame of TID 0 the base of its index.
    fn settle(&mut self, place: Place)
        ensures newest { self.new.newest ≡ self.old.newest }
        ensures sights { self.new.sights ≡ self.old.sights }
        ensures bases { self.new.bases ≡ with_base place self.old.bases }
    {
        let Place {
            picture,
            tl0,
            tid,
            ..
        } = place;
        if tid == 0 {
            self.bases[usize::from(tl0)] = Some(picture);
        }
    }
}

/// Slots with nothing in them.
fn nothing<T: Drop>(alloc: Global, count: usize) -> Result<Vec<Option<T>>, NoMemory>
    ensures { IfOk result (λ slots. slots.items ≡ replicate count None) }
{
    let mut slots = Vec::with_capacity(alloc, count)?;
    for _ in 0..count {
        slots.push(None)?;
    }
    Ok(slots)
}

/// The index of the base to which a frame of this place refers, if it refers to nothing else.
#[inline(always)]
fn base_index(place: Place) -> Option<u8>
    ensures { result ≡ base_index place }
{
    if place.tid == 0 {
        Some(before8(place.tl0))
    } else if place.sync {
        Some(place.tl0)
    } else {
        None
    }
}

/// Whether a base lies 1 to 255 pictures below a picture.
#[inline(always)]
fn counts(picture: u64, base: u64) -> bool
    ensures { result ≡ counts picture base }
{
    base < picture && picture - base <= REACH
}

/// Whether the number before the first one of a run is passed.
fn is_passed_before(passed: Option<u64>, first: u64) -> bool
    ensures { result ≡ is_passed_before passed first }
{
    match passed {
        Some(front) => first.saturating_sub(1) <= front,
        None => false,
    }
}

/// Whether a picture is above the newest one minus 4,096.
fn is_recent(newest: u64, picture: u64) -> bool
    ensures { result ≡ is_recent newest picture }
{
    newest < picture || newest - picture < MEMORY
}

/// The slot of a picture.
fn slot_of(picture: u64) -> usize
    ensures { result ≡ picture % MEMORY }
{
    (picture % MEMORY) as usize
}
