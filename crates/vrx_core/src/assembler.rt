//! The assembler: packets in, whole frames out.

ghost use Rattle.std.specs.Prelude.{◌≡◌, ◌+◌, ◌-◌, ◌^◌, ◌<◌, ◌≤◌, min, true, false, List, [], ◌∷◌, Contains, Some, None, OnOk, OnErr, IfOk, IfSome, IfErr, IsOk, IsErr};
ghost use Rattle.std.specs.List.{list_any};
ghost use Rattle.vrx_window.specs.Content.{contents, contents_of};
ghost use Rattle.vrx_window.specs.Sound.{place_at};
ghost use Rattle.vrx_window.specs.Window.{is_dead as is_dead_in, is_too_old};
ghost use Rattle.vrx_core.specs.machine.Machine.{answer_of as answer_of_left, answer_taken as answer_taken_of, source_in};
ghost use Rattle.vrx_frames.specs.Completed.{known_with};
ghost use Rattle.vrx_repair.specs.Plan.{IsPlan, numbers_of};
ghost use Rattle.vrx_core.specs.machine.SettingsFault.{fault_of};
ghost use Rattle.vrx_core.specs.machine.Verdict.{verdict as verdict_of};
ghost use Rattle.vrx_buffer.specs.Frames.{key_numbers, next_of};
ghost use Rattle.vrx_buffer.specs.Order.{greatest_of};
ghost use Rattle.vrx_refs.specs.Knows.{Knows};
ghost use Rattle.vrx_refs.specs.declared.sighting.Sighting.{Sighting};
ghost use Rattle.vrx_codec.specs.declared.run.Run.{Run};
ghost use Rattle.vrx_core.specs.relation.StandsFor.{IsAssembled};
ghost use Rattle.vrx_core.specs.inside.Wants.{CanGiveUpAll, given_up_all, lost_from};
ghost use Rattle.vrx_core.specs.inside.Seen.{view_taken};
ghost use Rattle.vrx_core.specs.inside.Places.{IsPlacedBeside, with_sighting, with_sightings};
ghost use Rattle.vrx_core.specs.inside.Step.{CompletesWith, IsPulledAs, IsTakenAs, after_counting, frames_in, known_all, lowest_of as lowest_number, pictures_with, with_runs};
ghost use Rattle.vrx_core.specs.inside.Fields.{CanAddAll, CanComplete, CanCompleteAll, IsArrival, IsCounted, IsHandedOut, IsHandled, IsFrameOf, IsNext, IsWhole, MayBeTaken, after_pulled};

use crate::count::Count;
use crate::frame_bytes::frame_bytes;
use crate::front::front_after;
use crate::held::held_of;
use crate::original::{NotTaken, PayloadSeen};
use crate::reply::{Frame, FrameBytes, What};
use crate::settings::{NewFault, Settings};
use crate::verdict::{TakenPacket, verdict};
use std::alloc::Global;
use std::marker::{Model, PhantomData};
use vrx_buffer::Frames;
use vrx_codec::{Codec, Run};
use vrx_frames::{Runs, runs_apart, runs_are, runs_rise};
use vrx_num::limits::{MOST_EVENTS, WINDOW};
use vrx_num::{Extender, NoMemory, Numbers, Pictures, picture_is_near};
use vrx_refs::Finder;
use vrx_repair::{Plan, Reading, plan};
use vrx_window::{Held, Placing, Window};

/// What a packet that is taken brings beside its answer.
#[derive(Debug, Drop)]
pub(crate) struct Arrival {
    /// The number under which it is taken.
    pub(crate) number: u64,
    /// The newest number before.
    pub(crate) newest: Option<u64>,
    /// The greatest number that is given up with it, as it leaves the window.
    pub(crate) lost: Option<u64>,
    /// The numbers that are repaired with it, in their order.
    pub(crate) repaired: Numbers,
    /// Whether a keyframe completes with it.
    pub(crate) key: bool,
}

/// What became of a datagram: its answer, and what it brings if it is taken.
#[derive(Drop)]
pub(crate) struct Outcome {
    pub(crate) what: What,
    pub(crate) arrival: Option<Arrival>,
}

/// The packets of one stream, and the frames that they make.
///
/// It asks for nothing: what is missing is the engine's to ask for.
#[derive(Drop)]
pub(crate) struct Assembler<C: Codec> {
    codec: PhantomData<C>,
    alloc: Global,
    settings: Settings,
    count: Count,
    extender: Extender,
    pictures: Pictures,
    window: Window,
    runs: Runs<C>,
    finder: Finder,
    frames: Frames,
    last_pulled: Option<u64>,
    front: Option<u64>,
}

impl<C: Codec> Model for Assembler<C> {
    ghost use Rattle.vrx_core.specs.relation.StandsFor.{Assembly};
    ghost use Rattle.vrx_core.specs.inside.Fields.{assembly_of, AreFields};

    ghost Value = { Assembly };

    ghost view = { λ a. assembly_of a.settings a.count a.window a.pictures a.runs a.finder a.frames a.last_pulled a.front };

    ghost invariant = { λ a. AreFields C.meaning a.extender (assembly_of a.settings a.count a.window a.pictures a.runs a.finder a.frames a.last_pulled a.front) };
}

/// The answer to a datagram that isn't taken.
fn answer_of(left: NotTaken) -> What
    ensures { result ≡ answer_of_left left }
{
    match left {
        NotTaken::Control => What::Rtcp,
        NotTaken::Refused(reason) => What::Dropped(reason),
    }
}

/// The answer to one that is taken.
fn answer_taken(taken: &TakenPacket<'_>) -> What
    ensures { result ≡ answer_taken_of (view_taken taken.now).0 (view_taken taken.now).1 }
{
    match taken.seen.brought {
        PayloadSeen::Media(_) => What::Media(taken.number),
        PayloadSeen::Fec(_) => What::Fec(taken.number),
        PayloadSeen::Empty => What::Empty(taken.number),
    }
}

/// The lowest number of the window after the newest number.
fn lowest_of(newest: Option<u64>) -> u64
    ensures { result ≡ lowest_number newest }
{
    match newest {
        None => 0,
        Some(newest) => newest.saturating_sub(WINDOW - 1),
    }
}

/// Adds runs to those that stand, one after the other.
fn add_all(frames: &mut Frames, runs: &[Run])
    requires { CanAddAll runs.now frames.old }
    ensures runs { frames.new ≡ with_runs runs.now frames.old }
{
    match runs {
        [] => {}
        [run, rest @ ..] => {
            frames.add(*run);
            add_all(frames, rest);
        }
    }
}

/// Tells the runs a number of the window, and adds the runs that it completes, beyond the front. It says whether one of
/// them is a keyframe.
fn complete<C: Codec>(
    runs: &mut Runs<C>,
    frames: &mut Frames,
    window: &Window,
    front: Option<u64>,
    n: u64,
) -> bool
    requires can { CanComplete C.meaning window.now front runs.old n }
    requires stood { frames.old ≡ frames_in C.meaning window.now front runs.old }
    ensures known { runs.new ≡ known_with C.meaning window.now.newest n front (contents window.now.packets) runs.old }
    ensures stand { frames.new ≡ frames_in C.meaning window.now front runs.new }
    ensures key { CompletesWith C.meaning window.now front runs.old runs.new result }
{
    // Laws: what the runs are, which rise by their first numbers. And what always holds of a window.
    runs_are();
    runs_rise();
    let _ = window.newest();
    let completed = runs.completed(window, n, front);
    add_all(frames, completed.as_slice());
    has_key(completed.as_slice())
}

/// The same of numbers, one after the other.
fn complete_all<C: Codec>(
    runs: &mut Runs<C>,
    frames: &mut Frames,
    window: &Window,
    front: Option<u64>,
    numbers: &[u64],
) -> bool
    requires can { CanCompleteAll C.meaning window.now front numbers.now runs.old }
    requires stood { frames.old ≡ frames_in C.meaning window.now front runs.old }
    ensures known { runs.new ≡ known_all C.meaning window.now.newest front (contents window.now.packets) numbers.now runs.old }
    ensures stand { frames.new ≡ frames_in C.meaning window.now front runs.new }
    ensures key { CompletesWith C.meaning window.now front runs.old runs.new result }
{
    match numbers {
        [] => false,
        [n, rest @ ..] => {
            let key = complete::<C>(runs, frames, window, front, *n);
            let more = complete_all::<C>(runs, frames, window, front, rest);
            key | more
        }
    }
}

/// Makes the picture of a packet, if it has one, the newest, if it is greater.
fn accept_picture(pictures: &mut Pictures, held: &Held)
    requires placed { IsPlacedBeside pictures.old held.now }
    requires room { IfSome pictures.old (λ newest. newest ≤ 2 ^ 61) }
    ensures { pictures.new ≡ pictures_with pictures.old held.now }
{
    // A law: a picture is near the newest one. And what always holds of that.
    picture_is_near();
    let _newest = pictures.newest();
    match held.place() {
        Some(place) => pictures.accept(place.picture),
        None => {}
    }
}

/// Tells the finder the picture of a number of the window, if it has one.
fn see(finder: &mut Finder, window: &Window, n: u64)
    ensures { (told : List Sighting) (pulled : List Run) → Knows finder.old told pulled →
        Knows finder.new (with_sighting (place_at window.now.packets n) told) pulled }
{
    match window.held(n) {
        Some(held) => match held.place() {
            Some(place) => finder.seen(place.picture, place.tid),
            None => {}
        },
        None => {}
    }
}

/// The same of numbers, one after the other.
fn see_all(finder: &mut Finder, window: &Window, numbers: &[u64])
    ensures { (told : List Sighting) (pulled : List Run) → Knows finder.old told pulled →
        Knows finder.new (with_sightings window.now.packets numbers.now told) pulled }
{
    match numbers {
        [] => {}
        [n, rest @ ..] => {
            see(finder, window, *n);
            see_all(finder, window, rest);
        }
    }
}

/// Gives up numbers, one after the other.
fn give_up_all(window: &mut Window, numbers: &[u64])
    requires fresh { CanGiveUpAll numbers.now window.old }
    ensures { window.new ≡ given_up_all numbers.now window.old }
{
    match numbers {
        [] => {}
        [n, rest @ ..] => {
            window.give_up(*n);
            give_up_all(window, rest);
        }
    }
}

/// Whether one of these runs is a keyframe.
fn has_key(runs: &[Run]) -> bool
    ensures { result ≡ list_any (λ run. run.key) runs.now }
{
    match runs {
        [] => false,
        [run, rest @ ..] => run.key || has_key(rest),
    }
}

/// Whether a number that isn't too old was given up.
fn is_dead(window: &Window, n: u64) -> bool
    requires young { is_too_old window.now.newest n ≡ false }
    ensures { result ≡ is_dead_in n window.now.dead }
{
    match window.would(n) {
        Placing::Dead => true,
        Placing::TooOld => false,
        Placing::Repeat => false,
        Placing::Fresh => false,
    }
}

/// The number after the front: 0 if there is none.
fn after(front: Option<u64>) -> u64
    ensures { result ≡ min (after_pulled front) (2 ^ 64 - 1) }
{
    match front {
        Some(front) => front.saturating_add(1),
        None => 0,
    }
}

/// The greatest number that is given up once a packet is placed under `n`: it leaves the window, isn't below the first
/// number taken, isn't passed, and wasn't given up before.
fn greatest_lost(window: &Window, front: Option<u64>, n: u64) -> Option<u64>
    ensures { result ≡ greatest_of (lost_from window.now front n) }
{
    let (Some(first), Some(newest)) = (window.first(), window.newest()) else {
        return None;
    };
    let low = after(front)
        .max(first)
        .max(newest.saturating_sub(WINDOW - 1));
    let high = newest.max(n).saturating_sub(WINDOW - 1);
    for back in 0..high.saturating_sub(low) {
        let last = high - 1 - back;
        if !is_dead(window, last) {
            return Some(last);
        }
    }
    None
}

impl<C: Codec> Assembler<C> {
    /// An assembler of settings that have no fault. Nothing but memory hinders it.
    pub(crate) fn new(alloc: Global, settings: Settings) -> Result<Assembler<C>, NewFault>
        requires good { fault_of settings ≡ None }
        ensures stands { IfOk result (λ assembler. IsAssembled C.meaning assembler []) }
        ensures settings { IfOk result (λ assembler. assembler.settings ≡ settings) }
        ensures whole { IfOk result (λ assembler. IsWhole C.meaning assembler) }
        ensures no_memory { IfErr result (λ fault. fault ≡ NewFault.NoMemory) }
    {
        let Ok(window) = Window::new(alloc) else {
            return Err(NewFault::NoMemory);
        };
        let Ok(runs) = Runs::new(alloc) else {
            return Err(NewFault::NoMemory);
        };
        let Ok(finder) = Finder::new(alloc) else {
            return Err(NewFault::NoMemory);
        };
        let Ok(frames) = Frames::new(alloc) else {
            return Err(NewFault::NoMemory);
        };
        Ok(Assembler {
            codec: PhantomData,
            alloc,
            settings,
            count: Count {
                events: 0,
                clock: 0,
            },
            extender: Extender::new(),
            pictures: Pictures::new(),
            window,
            runs,
            finder,
            frames,
            last_pulled: None,
            front: None,
        })
    }

    /// Handles a datagram. Memory is taken first: an `Err` changes nothing, and a datagram that isn't taken takes
    /// none.
    pub(crate) fn handle(&mut self, moment: u64, octets: &[u8]) -> Result<Outcome, NoMemory>
        requires room { self.old.events < MOST_EVENTS }
        ensures handled { IfOk result (λ outcome. IsHandled C.meaning self.old self.new moment octets.now outcome) }
        ensures err { OnErr result (self.new ≡ self.old) }
        ensures before { IsWhole C.meaning self.old }
        ensures after { IsWhole C.meaning self.new }
        ensures refused { IsErr (verdict_of self.old.settings C.meaning (contents_of self.old.window) octets.now) →
            IsOk result }
    {
        match verdict::<C>(&self.settings, &self.extender, &self.window, octets) {
            Err(left) => {
                self.count(moment);
                Ok(Outcome {
                    what: answer_of(left),
                    arrival: None,
                })
            }
            Ok(taken) => {
                let number = taken.number;
                let held = held_of::<C>(self.alloc, octets, &taken.seen, &self.pictures)?;
                let newest = self.window.newest();
                let lost = greatest_lost(&self.window, self.front, number);
                let plan = self.plan(number, &held)?;
                let (repaired, key) = self.take(moment, number, held, plan);
                Ok(Outcome {
                    what: answer_taken(&taken),
                    arrival: Some(Arrival {
                        number,
                        newest,
                        lost,
                        repaired,
                        key,
                    }),
                })
            }
        }
    }

    /// The settings.
    pub(crate) fn settings(&self) -> &Settings
        ensures value { result.now ≡ self.now.settings }
    {
        &self.settings
    }

    /// How many events came.
    pub(crate) fn events(&self) -> u32
        ensures value { result ≡ self.now.events }
        ensures whole { IsWhole C.meaning self.now }
    {
        self.count.events
    }

    /// The clock.
    pub(crate) fn now(&self) -> u64
        ensures value { result ≡ self.now.clock }
    {
        self.count.clock
    }

    /// The newest number of the window.
    pub(crate) fn newest(&self) -> Option<u64>
        ensures value { result ≡ self.now.window.newest }
    {
        self.window.newest()
    }

    /// The front: all numbers up to it are passed.
    pub(crate) fn front(&self) -> Option<u64>
        ensures value { result ≡ self.now.front }
    {
        self.front
    }

    /// The greatest first number of a keyframe that stands.
    pub(crate) fn greatest_key(&self) -> Option<u64>
        ensures value { result ≡ greatest_of (key_numbers self.now.frames) }
    {
        self.frames.greatest_key()
    }

    /// Gives up numbers that are missing, one after the other: each is in the window, isn't held and wasn't given up.
    pub(crate) fn give_up_all(&mut self, numbers: &[u64])
        requires fresh { CanGiveUpAll numbers.now self.old.window }
        ensures given_up { self.new ≡ record self.old { window = given_up_all numbers.now self.old.window } }
        ensures after { IsWhole C.meaning self.new }
    {
        give_up_all(&mut self.window, numbers);
        // What always holds of a window is a clause of this call.
        let _ = self.window.newest();
    }

    /// Counts an event, and moves the clock.
    pub(crate) fn count(&mut self, moment: u64)
        requires room { self.old.events < MOST_EVENTS }
        ensures counted { self.new ≡ after_counting self.old moment }
        ensures before { IsWhole C.meaning self.old }
        ensures after { IsWhole C.meaning self.new }
    {
        self.count.count(moment);
    }

    /// The plan of what a packet repairs. It takes the memory of what is repaired, and changes nothing.
    fn plan(&self, n: u64, held: &Held) -> Result<Plan, NoMemory>
        requires may { MayBeTaken C.meaning self.now.window self.now.pictures n held.now }
        ensures plan { IfOk result (λ plan. IsPlan (source_in self.now.settings C.meaning) n held.now self.now.window plan) }
    {
        let reading = Reading {
            media_ssrc: self.settings.media_ssrc,
            media_type: self.settings.media_type,
            codec: PhantomData,
        };
        plan::<C>(self.alloc, &self.window, n, held, &reading)
    }

    /// Takes a packet under its number: it and its repairs are placed, and the runs that they complete stand. The runs
    /// are found with the front before the event, which goes on after that. It takes no memory, and gives the numbers
    /// repaired, and whether one of these runs is a keyframe.
    fn take(&mut self, moment: u64, n: u64, held: Held, plan: Plan) -> (Numbers, bool)
        requires room { self.old.events < MOST_EVENTS }
        requires may { MayBeTaken C.meaning self.old.window self.old.pictures n held }
        requires planned { IsPlan (source_in self.old.settings C.meaning) n held self.old.window plan }
        ensures taken { (taken : IsTakenAs C.meaning self.old self.new n held plan) × (result.1 ≡ taken.key) }
        ensures repaired { result.0 ≡ numbers_of plan }
        ensures counts { IsCounted self.old self.new moment }
        ensures after { IsWhole C.meaning self.new }
    {
        // Laws: what the runs are, which rise by their first numbers.
        runs_are();
        runs_rise();
        self.count.count(moment);
        accept_picture(&mut self.pictures, &held);
        let repaired = plan.commit(&mut self.window, &mut self.pictures, n, held);
        self.extender.accept(n);
        see(&mut self.finder, &self.window, n);
        see_all(&mut self.finder, &self.window, repaired.as_slice());
        self.frames.drop_below(lowest_of(self.window.newest()));
        let front = self.front;
        let key = complete::<C>(&mut self.runs, &mut self.frames, &self.window, front, n);
        let more = complete_all::<C>(
            &mut self.runs,
            &mut self.frames,
            &self.window,
            front,
            repaired.as_slice(),
        );
        self.front = front_after(front, self.last_pulled, &self.window);
        (repaired, key | more)
    }

    /// Gives the next frame. Memory is taken first: an `Err` changes nothing, and if no frame is ready none is taken.
    pub(crate) fn hand_out(&mut self, moment: u64) -> Result<Option<Frame>, NoMemory>
        requires room { self.old.events < MOST_EVENTS }
        ensures handed { IfOk result (λ frame. IsHandedOut C.meaning self.old self.new moment frame) }
        ensures err { OnErr result (self.new ≡ self.old) }
        ensures before { IsWhole C.meaning self.old }
        ensures after { IsWhole C.meaning self.new }
        ensures none { (told : List Sighting) (pulled : List Run) → Knows self.old.finder told pulled →
            next_of told pulled self.old.front self.old.frames ≡ None → IsOk result }
    {
        match self.next() {
            None => {
                self.count(moment);
                Ok(None)
            }
            Some(run) => {
                let frame = self.frame_of(run)?;
                self.pass(moment, run);
                Ok(Some(frame))
            }
        }
    }

    /// The run that is next.
    fn next(&self) -> Option<Run>
        ensures next { IsNext self.now result }
        ensures whole { IsWhole C.meaning self.now }
    {
        self.frames.next(&self.finder, self.front)
    }

    /// The frame that the next run is.
    fn frame_of(&self, run: Run) -> Result<Frame, NoMemory>
        requires stands { Contains self.now.frames run }
        ensures frame { IfOk result (λ frame. IsFrameOf C.meaning self.now run frame) }
    {
        // A law: what the runs are.
        runs_are();
        let octets = frame_bytes::<C>(self.alloc, &self.window, run)?;
        Ok(Frame {
            first: run.first,
            last: run.last,
            ts: run.ts,
            key: run.key,
            bytes: FrameBytes::from_vec(octets),
        })
    }

    /// Passes the next run, which was handed out.
    fn pass(&mut self, moment: u64, run: Run)
        requires room { self.old.events < MOST_EVENTS }
        requires stands { Contains self.old.frames run }
        ensures pulled { IsPulledAs self.old self.new run }
        ensures counts { IsCounted self.old self.new moment }
        ensures after { IsWhole C.meaning self.new }
    {
        // Laws: what the runs are, which rise by their first numbers and lie apart.
        runs_are();
        runs_rise();
        runs_apart();
        self.count.count(moment);
        self.frames.take(run.first);
        self.finder.pulled(&run);
        self.last_pulled = Some(run.last);
        self.front = front_after(self.front, self.last_pulled, &self.window);
    }
}
