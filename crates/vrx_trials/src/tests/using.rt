//! The engine from one's own program. The lines between the marks are those of `docs/USING.md`.

use std::alloc::Global;
use std::test::Fail;
use vrx_core::EventBytes;

// begin
use vrx_core::{Engine, Event, Frame, MOST_EVENTS, NewFault, Pulled, Settings};
use vrx_num::NoMemory;
use vrx_rtcp::Feedback;
use vrx_vp8::Vp8;

/// What is to be done after an event.
#[derive(Drop)]
enum Next {
    Send(Feedback),
    Decode(Frame),
    Wait,
    BeginAnew,
}

/// Hands an event to the engine, unless it has taken as many as it takes.
fn handle(engine: &mut Engine<Vp8>, event: &Event) -> Result<Next, NoMemory> {
    if engine.events() >= MOST_EVENTS {
        return Ok(Next::BeginAnew);
    }
    match event {
        Event::Datagram { moment, bytes } => {
            let handled = engine.datagram(*moment, bytes.as_slice())?;
            Ok(Next::Send(handled.feedback))
        }
        Event::Tick { moment } => Ok(Next::Send(engine.tick(*moment))),
        Event::Pull { moment } => match engine.pull(*moment)? {
            Pulled::Frame(frame) => Ok(Next::Decode(frame)),
            Pulled::NotReady => Ok(Next::Wait),
        },
    }
}

/// Receives a call.
fn receive(
    alloc: Global,
    settings: Settings,
    call: &[Event],
    peer: &mut Peer,
) -> Result<(), NewFault> {
    let mut engine = Engine::<Vp8>::new(alloc, settings)?;
    for event in call {
        match handle(&mut engine, event) {
            Ok(Next::Send(feedback)) => peer.send(&feedback),
            Ok(Next::Decode(frame)) => peer.decode(&frame),
            Ok(Next::Wait) => {}
            Ok(Next::BeginAnew) => {
                engine = Engine::<Vp8>::new(alloc, settings)?;
                peer.ask_for_a_keyframe();
            }
            Err(NoMemory) => {}
        }
    }
    Ok(())
}
// end

/// What the call did outside.
#[derive(Drop)]
struct Peer {
    sent: bool,
    decoded: Option<u64>,
    asked: bool,
}

impl Peer {
    fn send(&mut self, feedback: &Feedback) {
        if feedback.nack.is_some() || feedback.pli.is_some() {
            self.sent = true;
        }
    }

    fn decode(&mut self, frame: &Frame) {
        self.decoded = Some(frame.first);
    }

    fn ask_for_a_keyframe(&mut self) {
        self.asked = true;
    }
}

const SETTINGS: Settings = Settings {
    media_ssrc: 10,
    media_type: 96,
    red: None,
    rtx: None,
    from_ssrc: 11,
    interval: 100,
};

// A keyframe of one packet.
const KEYFRAME: [u8; 15] = [
    0x80, 0xe0, 0, 1, 0, 0, 0, 0, 0, 0, 0, 0x0a, 0x10, 0x00, 0xaa,
];

#[test]
fn a_program_receives_a_call(rt: HostRuntime) -> Result<(), Fail> {
    let bytes = EventBytes::from_vec(KEYFRAME.to_vec(rt.alloc())?);
    let call = [
        Event::Pull { moment: 0 },
        Event::Datagram { moment: 1, bytes },
        Event::Tick { moment: 2 },
        Event::Pull { moment: 3 },
        Event::Pull { moment: 4 },
    ];
    let mut peer = Peer {
        sent: false,
        decoded: None,
        asked: false,
    };
    receive(rt.alloc(), SETTINGS, &call, &mut peer)?;
    assert_eq!(rt; peer.decoded, Some(65_537));
    assert!(rt; !peer.sent);
    assert!(rt; !peer.asked);
    Ok(())
}
