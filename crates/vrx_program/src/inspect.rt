//! The word inspect: a capture in, what each of its datagrams is out.

ghost use Rattle.std.specs.Prelude.{◌≡◌, ◌≢◌, ◌⊎◌, ◌+◌, ◌++◌, ◌≤◌, ⊤, false, length, Some, None, IfErr, IfOk, OnOk, MatchOption};
ghost use Rattle.vrx_core.specs.machine.SettingsFault.{fault_of as fault_of_settings};
ghost use Rattle.vrx_capture.specs.Line.{longest_line};
ghost use Rattle.vrx_text.specs.Inspection.{inspection};
ghost use Rattle.vrx_program.specs.Inspect.{is_head, inspecting, inspection_outcome};

use crate::job::{Job, Unanswered};
use std::alloc::Global;
use vrx_core::{Engine, Event, NewFault, Settings};
use vrx_num::NoMemory;
use vrx_text::{ErrorReason, inspect_text, read_settings};
use vrx_vp8::Vp8;

/// An inspection: where its lines take their memory, and how many events it answered.
#[derive(Drop)]
pub(crate) struct Inspect {
    alloc: Global,
    events: u32,
}

/// The fault of settings, or that memory ran out.
pub(crate) fn fault_of(alloc: Global, settings: Settings) -> Option<NewFault>
    ensures fault { MatchOption result (fault_of_settings settings ≡ None) (λ fault.
        (fault ≡ NewFault.NoMemory) ⊎ (fault_of_settings settings ≡ Some fault)) }
{
    Engine::<Vp8>::new(alloc, settings).err()
}

/// Whether settings with this fault are right: they aren't, if the fault is theirs.
fn is_right_with(fault: NewFault) -> Result<bool, NoMemory>
    ensures right { IfOk result (λ right. right ≡ false) }
    ensures no_memory { IfOk result (λ _. fault ≢ NewFault.NoMemory) }
{
    match fault {
        NewFault::NoMemory => Err(NoMemory),
        NewFault::BadType => Ok(false),
        NewFault::SameType => Ok(false),
        NewFault::SameSsrc => Ok(false),
        NewFault::RedMissing => Ok(false),
        NewFault::BadInterval => Ok(false),
    }
}

/// Whether the settings line is right.
fn has_right_settings(alloc: Global, line: &[u8]) -> Result<bool, NoMemory>
    requires short { length line.now ≤ longest_line }
    ensures right { IfOk result (λ right. right ≡ is_head line.now) }
{
    let Some((_, settings)) = read_settings(line) else {
        return Ok(false);
    };
    match fault_of(alloc, settings) {
        None => Ok(true),
        Some(fault) => is_right_with(fault),
    }
}

/// Puts the line of a datagram after a text.
fn add_line(alloc: Global, k: u32, bytes: &[u8], text: &mut Vec<u8>) -> Result<(), NoMemory>
    ensures ok { OnOk result (text.new.items ≡ text.old.items ++ inspection k bytes.now) }
{
    let line = inspect_text(alloc, k, bytes)?;
    Ok(text.extend_from_slice(line.as_slice())?)
}

impl Job for Inspect {
    ghost outcome = { inspection_outcome };

    ghost answering = { λ _. inspecting };

    ghost answered = { λ _ _. ⊤ };

    ghost count = { λ inspect. inspect.events };

    fn refuses_heads() {}

    fn begin(alloc: Global, line: &[u8]) -> Result<Inspect, Unanswered> {
        match has_right_settings(alloc, line) {
            Ok(true) => Ok(Inspect { alloc, events: 0 }),
            Ok(false) => Err(Unanswered::Refused(ErrorReason::Settings)),
            Err(NoMemory) => Err(Unanswered::NoMemory),
        }
    }

    fn answer(&mut self, k: u32, event: &Event, text: &mut Vec<u8>) -> Result<(), NoMemory> {
        self.events += 1;
        match event {
            Event::Datagram { bytes, .. } => add_line(self.alloc, k, bytes.as_slice(), text),
            Event::Tick { .. } => Ok(()),
            Event::Pull { .. } => Ok(()),
        }
    }
}
