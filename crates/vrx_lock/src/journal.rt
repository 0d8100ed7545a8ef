//! The journal of a receiver that was closed.

ghost use Rattle.std.specs.Prelude.{◌≡◌};

use crate::entry::Entry;
use std::marker::Model;

/// All entries of a receiver, in the order of their places. Only `Receiver::close` makes one.
#[derive(Debug, Drop)]
pub struct Journal {
    entries: Vec<Entry>,
}

impl Model for Journal {
    ghost use Rattle.std.specs.Prelude.{List};
    ghost use Rattle.vrx_lock.specs.declared.entry.Entry.{Entry};

    ghost Value = { List Entry };

    ghost view = { λ a. a.entries.items };
}

impl Journal {
    pub(crate) fn of(entries: Vec<Entry>) -> Journal
        ensures { result ≡ entries.items }
    {
        Journal { entries }
    }

    /// The entries in order.
    pub fn entries(&self) -> &[Entry]
        ensures { result.now ≡ self.now }
    {
        self.entries.as_slice()
    }
}
