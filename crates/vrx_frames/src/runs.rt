//! Which runs a packet completes.

ghost use Rattle.std.specs.Prelude.{◌≡◌, ◌+◌, ◌^◌, ◌<◌, true, false, ◌&&◌, not, [], IfOk};
ghost use Rattle.std.specs.List.{cons_option};
ghost use Rattle.std.specs.List.Sorted.{IsStrictlySortedBy};
ghost use Rattle.std.specs.Ordering.{nat_cmp};
ghost use Rattle.vrx_codec.specs.declared.run.Run.{Run};
ghost use Rattle.vrx_window.specs.Content.{contents_of};
ghost use Rattle.vrx_window.specs.Numbered.{IsNumbered};
ghost use Rattle.vrx_window.specs.Sound.{AreSound, place_at};
ghost use Rattle.vrx_window.specs.Window.{is_available};
ghost use Rattle.vrx_frames.specs.Completed.{AreStill, Completes, IsUpTo, known_with, nothing_known, standing_runs};
ghost use Rattle.vrx_frames.specs.Judging.{AnswerFound, AreHeld};
ghost use Rattle.vrx_frames.specs.Linked.{fact_at, starts_at};
ghost use Rattle.vrx_frames.specs.Marked.{counts, IsMarkedBefore, WasLookedAt, NextFound};

use crate::arrival::Arrival;
use crate::judge::judge;
use crate::keep::{held_shape, next_starts, note};
use crate::mark::{raise, span_of};
use arrayvec::ArrayVec;
use std::alloc::Global;
use std::marker::{Model, PhantomData};
use vrx_codec::{Codec, Run};
use vrx_num::NoMemory;
use vrx_window::{Ring, Window};

/// The numbers told, and which of them ever stood right after the end of a frame.
///
/// Contracts see the numbers told that are in the window, each with its shape, in their order; those of them that
/// ever stood right after the end of a frame; and the newest and the passed number of the last call. Its memory is
/// taken once.
#[derive(Drop)]
pub struct Runs<C: Codec> {
    ring: Ring<Arrival>,
    marks: Ring<u64>,
    passed: Option<u64>,
    codec: PhantomData<C>,
}

impl<C: Codec> Model for Runs<C> {
    ghost use Rattle.vrx_frames.specs.Completed.{Known};

    ghost Value = { Known };

    ghost use Rattle.vrx_frames.specs.Kept.{known_of};
    ghost use Rattle.vrx_frames.specs.Marked.{IsKeptMarked};

    ghost view = { λ a. known_of a.passed a.ring };

    ghost invariant = { λ a. IsKeptMarked a.passed a.ring a.marks };
}

impl<C: Codec> Runs<C> {
    /// Nothing was told yet. Only this call takes memory.
    pub fn new(alloc: Global) -> Result<Runs<C>, NoMemory>
        ensures nothing { IfOk result (λ runs. runs ≡ nothing_known) }
    {
        let ring = Ring::new(alloc)?;
        let marks = Ring::new(alloc)?;
        Ok(Runs {
            ring,
            marks,
            passed: None,
            codec: PhantomData,
        })
    }

    /// Tells a number, and answers the runs that it completes: those that stand now and didn't stand before it was
    /// told. They are at most two: the one that has the number, and the one that begins right after it. It takes no
    /// memory.
    ///
    /// `passed` is the front of the passed numbers. The number's packet is held, and the number wasn't told before.
    /// Since the last call neither the window's newest number nor `passed` fell, and each number told that is still
    /// in the window has a packet of the same shape.
    pub fn completed(
        &mut self,
        window: &Window,
        arrived: u64,
        passed: Option<u64>,
    ) -> ArrayVec<Run, 2>
        requires sound { AreSound C.meaning window.now.packets }
        requires held { is_available arrived window.now.packets ≡ true }
        requires fresh { is_available arrived self.old.arrivals ≡ false }
        requires newest { IsUpTo self.old.newest window.now.newest }
        requires passed { IsUpTo self.old.passed passed }
        requires same { AreStill C.meaning window.now.newest (contents_of window.now).packets self.old.arrivals }
        ensures known { self.new ≡ known_with C.meaning window.now.newest arrived passed (contents_of window.now).packets self.old }
        ensures completes { let packets = (contents_of window.now).packets in
            let place = place_at window.now.packets in
            Completes (standing_runs C.meaning place passed self.old packets) (standing_runs C.meaning place passed self.new packets) result.items }
        ensures rise { IsStrictlySortedBy (λ (a b : Run). nat_cmp a.first b.first) result.items }
    {
        match (window.newest(), window.held(arrived)) {
            (Some(newest), Some(held)) => {
                raise(&mut self.marks, &self.ring, self.passed, passed);
                self.passed = passed;
                let before = next_starts(&self.ring, passed, arrived, newest);
                note(&mut self.ring, newest, arrived, held_shape(held));
                self.marks.move_to(newest);
                let after = next_starts(&self.ring, passed, arrived, newest);
                let newly = begins_newly(before, after);
                let second = run_after::<C>(
                    window,
                    &self.ring,
                    &mut self.marks,
                    passed,
                    arrived,
                    newly,
                );
                let first = run_around::<C>(window, &self.ring, &mut self.marks, passed, arrived);
                list_of(first, second)
            }
            _ => unreachable!(),
        }
    }
}

/// What is told of the run that a number lies in, if there is one beyond the passed numbers. The number's mark is
/// spread from it.
#[inline(always)]
fn run_around<C: Codec>(
    window: &Window,
    ring: &Ring<Arrival>,
    marks: &mut Ring<u64>,
    passed: Option<u64>,
    n: u64,
) -> Option<Run>
    requires sound { AreSound C.meaning window.now.packets }
    requires held { AreHeld (fact_at passed ring.now.entries) window.now.packets }
    requires numbered { IsNumbered ring.now }
    requires newest { marks.old.newest ≡ ring.now.newest }
    requires marks { IsNumbered marks.old }
    requires before { IsMarkedBefore (fact_at passed ring.now.entries) (counts ring.now.newest passed) (starts_at passed ring.now.entries n) n marks.old.entries }
    ensures found { AnswerFound C.meaning (place_at window.now.packets) (contents_of window.now).packets (fact_at passed ring.now.entries) passed n result }
    ensures looked { WasLookedAt (fact_at passed ring.now.entries) (counts ring.now.newest passed) n marks.old.entries marks.new.entries }
    ensures newest { marks.new.newest ≡ marks.old.newest }
    ensures numbered { IsNumbered marks.new }
{
    match span_of(marks, ring, passed, n) {
        None => None,
        Some(span) => judge::<C>(window, span),
    }
}

/// The same for the number after this one, if it begins newly.
#[inline(always)]
fn run_after<C: Codec>(
    window: &Window,
    ring: &Ring<Arrival>,
    marks: &mut Ring<u64>,
    passed: Option<u64>,
    n: u64,
    newly: bool,
) -> Option<Run>
    requires sound { AreSound C.meaning window.now.packets }
    requires held { AreHeld (fact_at passed ring.now.entries) window.now.packets }
    requires numbered { IsNumbered ring.now }
    requires newest { marks.old.newest ≡ ring.now.newest }
    requires marks { IsNumbered marks.old }
    requires starts { newly ≡ true → starts_at passed ring.now.entries (n + 1) ≡ true }
    requires fits { newly ≡ true → n + 1 < 2 ^ 64 }
    ensures found { NextFound C.meaning (place_at window.now.packets) (contents_of window.now).packets (fact_at passed ring.now.entries) (counts ring.now.newest passed) passed (n + 1) newly marks.old.entries marks.new.entries result }
    ensures newest { marks.new.newest ≡ marks.old.newest }
    ensures numbered { IsNumbered marks.new }
{
    if newly {
        run_around::<C>(window, ring, marks, passed, n + 1)
    } else {
        None
    }
}

/// Whether what is so afterwards wasn't so before.
fn begins_newly(before: bool, after: bool) -> bool
    ensures { result ≡ (after && not before) }
{
    after && !before
}

/// Those that are there, as a list.
fn list_of(first: Option<Run>, second: Option<Run>) -> ArrayVec<Run, 2>
    ensures { result.items ≡ cons_option first (cons_option second []) }
{
    let mut runs = ArrayVec::new();
    if let Some(run) = first {
        runs.push(run);
    }
    if let Some(run) = second {
        runs.push(run);
    }
    runs
}
