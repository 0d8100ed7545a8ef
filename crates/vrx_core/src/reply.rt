//! What the receiver answers.

ghost use Rattle.std.specs.Prelude.{◌≡◌, [], ◌∷◌, ◌++◌, None, OnOk, OnErr};

use std::alloc::Global;
use std::marker::Model;
use vrx_num::{NoMemory, Numbers};
use vrx_rtcp::Feedback;

/// Why a datagram was refused. Under each of them all stays as it was but the clock and the count of events.
///
/// They stand in the order in which they are tested.
///
/// From `BadFec` on they speak of the packet of the stream that the datagram brings: itself, or the original of a
/// retransmission (RFC 4588 4), out of RED if it is in RED (RFC 2198 3).
#[derive(Clone, Copy, Debug, PartialEq, Eq)]
pub enum Reason {
    /// It has more than 9,216 octets.
    TooLong,
    /// It is RTCP (RFC 5761 4), and no whole of RTCP packets.
    BadRtcp,
    /// It is shorter than an RTP header, or its version isn't 2 (RFC 3550 5.1).
    NotRtp,
    /// Its contributing sources, its header extension or its padding run past its end (RFC 3550 5.1).
    BadHeader,
    /// Its SSRC is neither that of media nor that of retransmissions.
    OtherSsrc,
    /// Its SSRC is that of media, and its payload type is neither that of media nor that of RED.
    OtherType,
    /// Its SSRC is that of retransmissions, and its payload type isn't one of theirs (RFC 4588 8.6).
    NoApt,
    /// It is a retransmission, and its payload has fewer than the two octets of the original's sequence number
    /// (RFC 4588 4).
    RtxEmpty,
    /// It is RED of more than one block (RFC 2198 3), or a retransmission of such a packet.
    MoreBlocks,
    /// It is RED, or a retransmission of RED, and the payload type of its one block is neither that of media nor that
    /// of FEC.
    BadRed,
    /// Its block in RED is of the FEC type, and reads as no payload of a FEC packet of its number (RFC 5109 7).
    BadFec,
    /// Its payload isn't empty, and is no part of a frame, for this fault of the codec's.
    BadPart {
        /// The codec's number of the fault.
        code: u8,
    },
    /// Its sequence number lies just half of the number space away from the newest, so it has no extended number.
    TooFar,
    /// Its number lies below the window.
    TooOld,
    /// Its number was given up.
    Dead,
    /// Its number is available already.
    Repeat,
}

/// What became of a datagram.
#[derive(Clone, Copy, Debug, PartialEq, Eq)]
pub enum What {
    /// It was taken as the media packet of this extended sequence number.
    Media(u64),
    /// It was taken as the FEC packet of this extended sequence number, which has no media (RFC 5109 7).
    Fec(u64),
    /// It was taken as the packet of this extended sequence number, and has no payload.
    Empty(u64),
    /// It is RTCP, and changed nothing but the clock and the count of events.
    Rtcp,
    /// It was refused.
    Dropped(Reason),
}

/// The reply to a datagram.
#[derive(Debug, Drop)]
pub struct Handled {
    /// What became of it.
    pub what: What,
    /// The extended sequence numbers of the packets that were repaired by it (RFC 5109 9), in the order in which they
    /// were.
    pub repaired: Numbers,
    /// The feedback that is to be sent.
    pub feedback: Feedback,
}

impl Handled {
    /// A reply to be written over. It says what it says of RTCP, and asks for nothing. It takes no memory.
    pub fn new(alloc: Global) -> Handled
        ensures { result ≡ record { what = What.Rtcp; repaired = []; feedback = record { nack = None; pli = None } } }
    {
        Handled {
            what: What::Rtcp,
            repaired: Numbers::new(alloc),
            feedback: Feedback {
                nack: None,
                pli: None,
            },
        }
    }
}

/// The reply to a pull.
#[derive(Debug, Drop)]
pub enum Pulled {
    /// No frame is ready.
    NotReady,
    /// The next frame.
    Frame(Frame),
}

/// A whole frame, as the decoder takes it.
#[derive(Debug, Drop)]
pub struct Frame {
    /// The extended sequence number of its first packet.
    pub first: u64,
    /// The extended sequence number of its last packet.
    pub last: u64,
    /// Its RTP timestamp (RFC 3550 5.1).
    pub ts: u32,
    /// Whether it needs no other frame.
    pub key: bool,
    /// What the codec's parts join to.
    pub bytes: FrameBytes,
}

/// The octets of a frame.
#[derive(Debug, Drop)]
pub struct FrameBytes {
    octets: Vec<u8>,
}

impl Model for FrameBytes {
    ghost use Rattle.std.specs.Prelude.{List, ℕ};

    ghost Value = { List ℕ };

    ghost view = { λ a. a.octets.items };
}

impl FrameBytes {
    /// No octets yet. It takes no memory.
    pub fn new(alloc: Global) -> FrameBytes
        ensures { result ≡ [] }
    {
        FrameBytes {
            octets: Vec::new(alloc),
        }
    }

    /// The octets of a vector, which isn't copied.
    pub fn from_vec(octets: Vec<u8>) -> FrameBytes
        ensures { result ≡ octets.items }
    {
        FrameBytes { octets }
    }

    /// Puts an octet last. After `NoMemory` the octets are as before.
    pub fn push(&mut self, octet: u8) -> Result<(), NoMemory>
        ensures ok { OnOk result (self.new ≡ self.old ++ octet ∷ []) }
        ensures err { OnErr result (self.new ≡ self.old) }
    {
        Ok(self.octets.push(octet)?)
    }

    /// The octets in order.
    pub fn as_slice(&self) -> &[u8]
        ensures { result.now ≡ self.now }
    {
        self.octets.as_slice()
    }
}
