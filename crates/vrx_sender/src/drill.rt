//! The events of a drill, one frame after the other.

ghost use Rattle.std.specs.Prelude.{◌≡◌, ◌+◌, ◌*◌, ◌++◌, ◌^◌, ◌<◌, ◌≤◌, [], ◌∷◌, length, map, IfOk, MatchOption, OnOk, OnErr};
ghost use Rattle.vrx_core.specs.declared.event.Event.{Event};
ghost use Rattle.vrx_sender.specs.Drill.{drill_events};
ghost use Rattle.vrx_sender.specs.Made.{GoesOn, IsSound, IsUnderWay, Sends, group_without, left, still};
ghost use Rattle.vrx_num.specs.declared.limits.TheConstants.{MOST_EVENTS};
ghost use Rattle.vrx_sender.specs.declared.drill.TheConstants.{FRAME_TIME, MOST_FRAMES};

use crate::brought::{Brought, bring};
use crate::draws::draw_frame;
use crate::frames::sent_frame;
use crate::packets::packets_of;
use rand_core::SeedableRng;
use rand_pcg::Lcg64Xsh32;
use std::alloc::Global;
use std::collections::VecDeque;
use std::marker::Model;
use std::mem::replace;
use vrx_core::{Event, EventBytes};
use vrx_num::NoMemory;

/// A drill has at most so many frames.
pub const MOST_FRAMES: u32 = 10_000;

/// From one frame to the next pass so many milliseconds.
const FRAME_TIME: u64 = 33;

/// So long after a frame comes a tick.
const TICK_AFTER: u64 = 20;

/// So long after it come the pulls.
const PULL_AFTER: u64 = 25;

/// At the end come so many pulls.
const LAST_PULLS: usize = 16;

/// What is sent again of a frame comes so many frames later.
const AGAIN_AFTER: u32 = 3;

/// How far a drill is.
#[derive(Drop)]
pub(crate) struct Stage {
    pub alloc: Global,
    pub draws: Lcg64Xsh32,
    /// The frame whose time it is.
    pub group: u32,
    /// How many frames are still to be sent.
    pub frames: u32,
    /// How many groups of events come after the last frame's.
    pub later: u32,
    /// Whether the pulls at the end were given.
    pub ended: bool,
    /// How many packets were sent.
    pub packets: u32,
    /// How many packets were sent again.
    pub resent: u32,
    /// The retransmissions of the last three frames, which are still to come: those of the oldest frame first.
    pub oldest: Vec<EventBytes>,
    pub middle: Vec<EventBytes>,
    pub newest: Vec<EventBytes>,
}

/// A drill under way: an honest sender, and a lossy network.
///
/// Contracts see the events that are still to come.
#[derive(Drop)]
pub struct Drill {
    /// The events of the group under way.
    ready: VecDeque<Event>,
    stage: Stage,
}

impl Model for Drill {
    ghost use Rattle.std.specs.Prelude.{List, ◌++◌};
    ghost use Rattle.vrx_core.specs.declared.event.Event.{Event};
    ghost use Rattle.vrx_sender.specs.Made.{left, IsSound};

    ghost Value = { List Event };

    ghost view = { λ a. a.ready.items ++ left a.stage };

    ghost invariant = { λ a. IsSound a.stage };
}

/// Puts datagrams last, which all come at this moment.
fn put_datagrams(
    events: &mut VecDeque<Event>,
    moment: u64,
    datagrams: Vec<EventBytes>,
) -> Result<(), NoMemory>
    ensures { OnOk result (events.new.items ≡ events.old.items ++ map (λ octets. Event.Datagram moment octets) datagrams.items) }
{
    for bytes in datagrams {
        events.push_back(Event::Datagram { moment, bytes })?;
    }
    Ok(())
}

/// Puts a tick and two pulls last, after this moment.
fn put_pulls(events: &mut VecDeque<Event>, moment: u64) -> Result<(), NoMemory>
    requires { moment < 2 ^ 62 }
    ensures { OnOk result (events.new.items ≡ events.old.items ++ group_without moment) }
{
    events.push_back(Event::Tick {
        moment: moment + TICK_AFTER,
    })?;
    events.push_back(Event::Pull {
        moment: moment + PULL_AFTER,
    })?;
    events.push_back(Event::Pull {
        moment: moment + PULL_AFTER,
    })?;
    Ok(())
}

/// Draws the next frame and sends it.
fn send(stage: &mut Stage) -> Result<Brought, NoMemory>
    requires under_way { IsUnderWay stage.old }
    requires some { 0 < stage.old.frames }
    ensures sent { IfOk result (λ brought. Sends stage.old brought stage.new) }
    ensures ended { stage.new.ended ≡ stage.old.ended }
{
    let drawn = draw_frame(&mut stage.draws, stage.group);
    let frame = sent_frame(stage.alloc, stage.group, drawn.size)?;
    let packets = packets_of(stage.alloc, stage.group, stage.packets, frame.bytes())?;
    let fates = drawn.fates.as_slice();
    let brought = bring(stage.alloc, packets.as_slice(), fates, stage.resent)?;
    stage.packets += packets.len() as u32;
    stage.resent += brought.again.len() as u32;
    Ok(brought)
}

/// The retransmissions that are due now. Those of this frame are due later.
fn due(stage: &mut Stage, again: Vec<EventBytes>) -> Vec<EventBytes>
    ensures due { result ≡ stage.old.oldest }
    ensures shifts { stage.new ≡ record stage.old { oldest = stage.old.middle; middle = stage.old.newest; newest = again } }
{
    let newest = replace(&mut stage.newest, again);
    let middle = replace(&mut stage.middle, newest);
    replace(&mut stage.oldest, middle)
}

/// When the frame comes whose time it is.
fn moment(stage: &Stage) -> u64
    ensures value { result ≡ FRAME_TIME * stage.now.group }
    ensures small { result < 2 ^ 62 }
{
    FRAME_TIME * u64::from(stage.group)
}

/// The events around the time of the next frame, which is sent.
fn frame_group(stage: &mut Stage) -> Result<VecDeque<Event>, NoMemory>
    requires under_way { IsUnderWay stage.old }
    requires some { 0 < stage.old.frames }
    ensures goes_on { IfOk result (λ events. GoesOn stage.old events.items stage.new) }
    ensures ended { stage.new.ended ≡ stage.old.ended }
{
    let now = moment(stage);
    let mut events = VecDeque::new(stage.alloc);
    let Brought {
        in_time,
        late,
        again,
    } = send(stage)?;
    put_datagrams(&mut events, now, in_time)?;
    put_datagrams(&mut events, now, late)?;
    put_datagrams(&mut events, now, due(stage, again))?;
    put_pulls(&mut events, now)?;
    stage.group += 1;
    stage.frames -= 1;
    Ok(events)
}

/// The events of a group after the last frame's.
fn later_group(stage: &mut Stage) -> Result<VecDeque<Event>, NoMemory>
    requires under_way { IsUnderWay stage.old }
    requires none { stage.old.frames ≡ 0 }
    requires later { 0 < stage.old.later }
    ensures goes_on { IfOk result (λ events. GoesOn stage.old events.items stage.new) }
    ensures ended { stage.new.ended ≡ stage.old.ended }
{
    let now = moment(stage);
    let mut events = VecDeque::new(stage.alloc);
    let none = Vec::new(stage.alloc);
    put_datagrams(&mut events, now, due(stage, none))?;
    put_pulls(&mut events, now)?;
    stage.group += 1;
    stage.later -= 1;
    Ok(events)
}

/// The pulls at the end.
fn last_pulls(stage: &Stage) -> Result<VecDeque<Event>, NoMemory>
    requires none { stage.now.frames ≡ 0 }
    requires later { stage.now.later ≡ 0 }
    ensures last { IfOk result (λ events. events.items ≡ still stage.now) }
    ensures some { IfOk result (λ events. 0 < length events.items) }
{
    let now = moment(stage);
    let mut events = VecDeque::new(stage.alloc);
    while events.len() < LAST_PULLS {
        events.push_back(Event::Pull { moment: now })?;
    }
    Ok(events)
}

/// The next events: those around the time of one frame, and pulls at the end. There are none after them, or once there
/// was no memory.
fn next_group(stage: &mut Stage) -> Result<VecDeque<Event>, NoMemory>
    requires sound { IsSound stage.old }
    ensures events { IfOk result (λ events. left stage.old ≡ events.items ++ left stage.new) }
    ensures some { IfOk result (λ events. events.items ≡ [] → left stage.old ≡ []) }
    ensures sound { IsSound stage.new }
    ensures no_memory { OnErr result (left stage.new ≡ []) }
{
    if stage.ended {
        return Ok(VecDeque::new(stage.alloc));
    }
    // It has ended, unless there are events and others after them.
    stage.ended = true;
    if stage.frames > 0 {
        let events = frame_group(stage)?;
        stage.ended = false;
        Ok(events)
    } else if stage.later > 0 {
        let events = later_group(stage)?;
        stage.ended = false;
        Ok(events)
    } else {
        last_pulls(stage)
    }
}

impl Drill {
    /// A drill of so many frames, by its seed. It takes no memory.
    pub fn new(alloc: Global, seed: u64, frames: u32) -> Drill
        requires frames { (1 ≤ frames) × (frames ≤ MOST_FRAMES) }
        ensures events { result ≡ drill_events seed frames }
        ensures few { length result < MOST_EVENTS }
    {
        Drill {
            ready: VecDeque::new(alloc),
            stage: Stage {
                alloc,
                draws: Lcg64Xsh32::seed_from_u64(seed),
                group: 0,
                frames,
                later: AGAIN_AFTER,
                ended: false,
                packets: 0,
                resent: 0,
                oldest: Vec::new(alloc),
                middle: Vec::new(alloc),
                newest: Vec::new(alloc),
            },
        }
    }

    /// The next event. It is `None` at the end. After `NoMemory` the drill has ended, too.
    pub fn next_event(&mut self) -> Result<Option<Event>, NoMemory>
        ensures event { IfOk result (λ next. MatchOption next (self.old ≡ []) (λ event. self.old ≡ event ∷ self.new)) }
        ensures no_memory { OnErr result (self.new ≡ []) }
    {
        if self.ready.is_empty() {
            self.ready = next_group(&mut self.stage)?;
        }
        Ok(self.ready.pop_front())
    }
}
