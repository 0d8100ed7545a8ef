//! What can happen to a receiver.

ghost use Rattle.std.specs.Prelude.{◌≡◌, [], ◌∷◌, ◌++◌, OnOk, OnErr};

use std::alloc::Global;
use std::marker::Model;
use vrx_num::NoMemory;

/// One event, with its moment in milliseconds. Moments may go back.
#[derive(Debug, Drop)]
pub enum Event {
    /// A datagram came from the network.
    Datagram { moment: u64, bytes: EventBytes },
    /// The time came, and nothing else happened.
    Tick { moment: u64 },
    /// The decoder asked for the next frame.
    Pull { moment: u64 },
}

/// The octets of a datagram.
#[derive(Debug, Drop)]
pub struct EventBytes {
    octets: Vec<u8>,
}

impl Model for EventBytes {
    ghost use Rattle.std.specs.Prelude.{List, ℕ};

    ghost Value = { List ℕ };

    ghost view = { λ a. a.octets.items };
}

impl EventBytes {
    /// No octets yet. It takes no memory.
    pub fn new(alloc: Global) -> EventBytes
        ensures { result ≡ [] }
    {
        EventBytes {
            octets: Vec::new(alloc),
        }
    }

    /// The octets of a vector, which isn't copied.
    pub fn from_vec(octets: Vec<u8>) -> EventBytes
        ensures { result ≡ octets.items }
    {
        EventBytes { octets }
    }

    /// Puts an octet last. After `NoMemory` the octets are as before.
    pub fn push(&mut self, octet: u8) -> Result<(), NoMemory>
        ensures ok { OnOk result (self.new ≡ self.old ++ octet ∷ []) }
        ensures err { OnErr result (self.new ≡ self.old) }
    {
        Ok(self.octets.push(octet)?)
    }

    /// The octets in order.
    pub fn as_slice(&self) -> &[u8]
        ensures { result.now ≡ self.now }
    {
        self.octets.as_slice()
    }
}
