//! What holds of every drill.

ghost use Rattle.vrx_sender.specs.Laws.{NetworkIsHonest, SenderIsHonest};

use vrx_rtp::one_reading;

/// The network of a drill is honest if the drill has at most so many frames: they have fewer packets than half of the
/// space of sequence numbers.
pub const MOST_HONEST_FRAMES: u32 = 6_000;

/// The sender of a drill is an honest sender of VP8, whatever the seed: its packets read, its parts join to its frames,
/// its FEC packets are true (RFC 5109 8), its layers keep to the rules (RFC 7741 4.2), and each frame refers to frames
/// of its chain only. The function does nothing.
pub fn honest_sender()
    ensures honest { SenderIsHonest }
{
    one_reading(); // cites the laws of packets, and does nothing
}

/// The network of a drill of at most [`MOST_HONEST_FRAMES`] frames is honest, whatever the seed: each datagram that it
/// brings is a packet of the drill's sender in RED (RFC 2198 3), or one that is sent again so (RFC 4588 4); no packet
/// comes farther from those taken than half of the space of sequence numbers (RFC 3550 5.1), and no picture farther
/// from the newest than half of that of pictures (RFC 7741 4.2). The function does nothing.
pub fn honest_network()
    ensures honest { NetworkIsHonest }
{
    one_reading(); // cites the laws of packets, and does nothing
}
