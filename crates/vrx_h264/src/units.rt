//! Lists of octets, and of those lists: units to be written.

ghost use Rattle.std.specs.Prelude.{◌≡◌, [], ◌∷◌, ◌++◌, OnOk, OnErr};

use std::alloc::Global;
use std::marker::Model;
use vrx_num::NoMemory;

/// The octets of a NAL unit.
///
/// Contracts see it as the list of the octets.
#[derive(Debug, Drop)]
pub struct Unit {
    octets: Vec<u8>,
}

impl Model for Unit {
    ghost use Rattle.std.specs.Prelude.{List, ℕ};

    ghost Value = { List ℕ };

    ghost view = { λ a. a.octets.items };
}

impl Unit {
    /// No octets yet. It takes no memory.
    pub fn new(alloc: Global) -> Unit
        ensures none { result ≡ [] }
    {
        Unit {
            octets: Vec::new(alloc),
        }
    }

    /// Puts an octet last. After `NoMemory` the octets are as before.
    pub fn push(&mut self, octet: u8) -> Result<(), NoMemory>
        ensures ok { OnOk result (self.new ≡ self.old ++ octet ∷ []) }
        ensures err { OnErr result (self.new ≡ self.old) }
    {
        Ok(self.octets.push(octet)?)
    }

    /// The octets in order.
    pub fn as_slice(&self) -> &[u8]
        ensures value { result.now ≡ self.now }
    {
        self.octets.as_slice()
    }
}

/// Units in the order in which they were put in.
///
/// Contracts see them as the list of the lists of their octets.
#[derive(Debug, Drop)]
pub struct Units {
    units: Vec<Unit>,
}

impl Model for Units {
    ghost use Rattle.std.specs.Prelude.{List, ℕ};

    ghost Value = { List (List ℕ) };

    ghost view = { λ a. a.units.items };
}

impl Units {
    /// No units yet. It takes no memory.
    pub fn new(alloc: Global) -> Units
        ensures none { result ≡ [] }
    {
        Units {
            units: Vec::new(alloc),
        }
    }

    /// Puts a unit last. After `NoMemory` the units are as before, and `unit` is dropped.
    pub fn push(&mut self, unit: Unit) -> Result<(), NoMemory>
        ensures ok { OnOk result (self.new ≡ self.old ++ unit ∷ []) }
        ensures err { OnErr result (self.new ≡ self.old) }
    {
        Ok(self.units.push(unit)?)
    }

    /// The units in order.
    pub fn as_slice(&self) -> &[Unit]
        ensures value { result.now ≡ self.now }
    {
        self.units.as_slice()
    }
}
