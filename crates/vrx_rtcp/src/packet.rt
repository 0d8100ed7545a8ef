//! A packet, seen where it lies.

/// A packet, and where the next one begins.
#[derive(Clone, Copy, Debug, PartialEq, Eq)]
pub struct Packet<'a> {
    /// What it says.
    pub body: Body<'a>,
    /// The offset after its last octet.
    pub next: usize,
}

/// What a packet says.
#[derive(Clone, Copy, Debug, PartialEq, Eq)]
pub enum Body<'a> {
    /// A sender report, of type 200 (RFC 3550 6.4.1).
    Sender(SenderReport<'a>),
    /// A receiver report, of type 201 (RFC 3550 6.4.2).
    Report(ReceiverReport<'a>),
    /// A goodbye, of type 203 (RFC 3550 6.6).
    Bye(Bye<'a>),
    /// A generic NACK, of type 205 and format 1 (RFC 4585 6.2.1).
    Nack(Nack<'a>),
    /// A picture loss indication, of type 206 and format 1 (RFC 4585 6.3.1).
    Pli(Pli),
    /// A packet of another type, or a feedback message of another format.
    Other {
        /// The packet type.
        kind: u8,
    },
}

/// A sender report (RFC 3550 6.4.1).
#[derive(Clone, Copy, Debug, PartialEq, Eq)]
pub struct SenderReport<'a> {
    /// The SSRC of its sender.
    pub ssrc: u32,
    /// When it was sent, in the NTP format: seconds since 1900 in the high 32 bits, their fraction below.
    pub ntp: u64,
    /// The same moment in the clock of the sender's RTP timestamps.
    pub rtp_time: u32,
    /// How many RTP packets it has sent.
    pub packets: u32,
    /// How many octets of payload it has sent.
    pub octets: u32,
    /// The report blocks, 24 octets each.
    pub blocks: &'a [u8],
}

/// A receiver report (RFC 3550 6.4.2).
#[derive(Clone, Copy, Debug, PartialEq, Eq)]
pub struct ReceiverReport<'a> {
    /// The SSRC of its sender.
    pub ssrc: u32,
    /// The report blocks, 24 octets each.
    pub blocks: &'a [u8],
}

/// A goodbye (RFC 3550 6.6). Its reason isn't kept.
#[derive(Clone, Copy, Debug, PartialEq, Eq)]
pub struct Bye<'a> {
    /// The SSRCs and CSRCs that leave, 4 octets each.
    pub sources: &'a [u8],
}

/// A generic NACK (RFC 4585 6.2.1).
#[derive(Clone, Copy, Debug, PartialEq, Eq)]
pub struct Nack<'a> {
    /// The SSRC of its sender.
    pub sender: u32,
    /// The SSRC of the media whose packets are missing.
    pub media: u32,
    /// The items, 4 octets each: the number of a missing packet, and the bits of the 16 after it.
    pub items: &'a [u8],
}

/// A picture loss indication (RFC 4585 6.3.1).
#[derive(Clone, Copy, Debug, PartialEq, Eq)]
pub struct Pli {
    /// The SSRC of its sender.
    pub sender: u32,
    /// The SSRC of the media whose pictures are lost.
    pub media: u32,
}
