//! What the network brings of the packets of a frame.

ghost use Rattle.std.specs.Prelude.{◌≡◌, ◌+◌, ◌++◌, ◌^◌, ◌<◌, ◌≤◌, [], ◌∷◌, length, zip, IfOk, OnOk};
ghost use Rattle.vrx_sender.specs.Drill.{is_in_time, is_late, lost_of, numbered};
ghost use Rattle.vrx_sender.specs.Made.{BroughtWith, datagrams};

use crate::draws::Fate;
use crate::packets::RtpPacket;
use std::alloc::Global;
use vrx_core::EventBytes;
use vrx_num::NoMemory;

/// The datagrams of a frame.
#[derive(Drop)]
pub(crate) struct Brought {
    /// Those that come in time.
    pub in_time: Vec<EventBytes>,
    /// Those that come after them.
    pub late: Vec<EventBytes>,
    /// The retransmissions.
    pub again: Vec<EventBytes>,
}

/// Brings a packet, or loses it.
fn bring_one(
    alloc: Global,
    brought: &mut Brought,
    packet: &RtpPacket,
    fate: Fate,
    number: u32,
) -> Result<(), NoMemory>
    requires room { number + length brought.old.again.items < 2 ^ 32 }
    ensures with_one { OnOk result (BroughtWith number brought.old brought.new ((fate, packet.now) ∷ [])) }
{
    match fate {
        Fate::InTime => brought
            .in_time
            .push(EventBytes::from_vec(packet.datagram(alloc)?))?,
        Fate::Late => brought
            .late
            .push(EventBytes::from_vec(packet.datagram(alloc)?))?,
        Fate::Lost => {}
        Fate::SentAgain => {
            let number = number + brought.again.len() as u32;
            brought.again.push(EventBytes::from_vec(packet.datagram_again(alloc, number)?))?
        }
    }
    Ok(())
}

/// Brings packets by their fates, or loses them. The first retransmission has this number.
pub(crate) fn bring(
    alloc: Global,
    packets: &[RtpPacket],
    fates: &[Fate],
    number: u32,
) -> Result<Brought, NoMemory>
    requires room { number + length packets.now < 2 ^ 32 }
    requires same { length fates.now ≡ length packets.now }
    ensures in_time { IfOk result (λ brought. brought.in_time.items ≡ datagrams is_in_time (zip fates.now packets.now)) }
    ensures late { IfOk result (λ brought. brought.late.items ≡ datagrams is_late (zip fates.now packets.now)) }
    ensures again { IfOk result (λ brought. brought.again.items ≡ numbered number (lost_of (zip fates.now packets.now))) }
    ensures few { IfOk result (λ brought. length brought.again.items ≤ length packets.now) }
{
    let mut brought = Brought {
        in_time: Vec::new(alloc),
        late: Vec::new(alloc),
        again: Vec::new(alloc),
    };
    for k in 0..packets.len() {
        bring_one(alloc, &mut brought, &packets[k], fates[k], number)?;
    }
    Ok(brought)
}
