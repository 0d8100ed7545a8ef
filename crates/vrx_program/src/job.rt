//! What a word does with the events of a capture.

ghost use Rattle.std.specs.Prelude.{◌≡◌, ◌+◌, ◌++◌, ◌<◌, ◌≤◌, ℕ, List, [], ◌∷◌, Option, Some, None, MatchResult, IfOk, IfErr, OnOk, length};
ghost use Rattle.vrx_core.specs.declared.event.Event.{Event};
ghost use Rattle.vrx_capture.specs.Line.{longest_line};
ghost use Rattle.vrx_program.specs.Outcome.{Outcome};
ghost use Rattle.vrx_program.specs.Job.{Answering, Begins, IsRefused, IfRefused, most_events};
ghost use Rattle.vrx_program.specs.Heads.{RefusesHeads};

use std::alloc::Global;
use vrx_core::Event;
use vrx_num::NoMemory;
use vrx_text::ErrorReason;

/// Why a word doesn't begin by a first line.
pub(crate) enum Unanswered {
    /// The line is refused, for this reason.
    Refused(ErrorReason),
    /// Memory ran out.
    NoMemory,
}

/// What a word does with a capture: it begins by the first line, and answers each event with a text.
pub(crate) trait Job: Drop {
    /// What a run gives of a capture.
    ghost outcome: { List ℕ → Outcome };

    /// What it does with each event.
    ghost answering: { Self → Answering };

    /// It answered these events, the newest first.
    ghost answered: { Self → List Event → Type 0 };

    /// How many events it answered.
    ghost count: { Self → ℕ };

    /// A capture without a first line that may be taken is refused. The function does nothing.
    fn refuses_heads()
        ensures heads { RefusesHeads outcome };

    /// Begins by the first line, which isn't too long, or says why it doesn't.
    fn begin(alloc: Global, line: &[u8]) -> Result<Self, Unanswered>
        requires short { length line.now ≤ longest_line }
        ensures begins { IfOk result (λ job. Begins outcome line.now (answering job)) }
        ensures answered { IfOk result (λ job. answered job []) }
        ensures count { IfOk result (λ job. count job ≡ 0) }
        ensures refused { IfErr result (λ why. IfRefused why (IsRefused outcome line.now)) };

    /// Puts the text of the event of line `k` after a text, unless memory runs out. No event is refused.
    fn answer(&mut self, k: u32, event: &Event, text: &mut Vec<u8>) -> Result<(), NoMemory>
        requires room { count self.old + 1 ≤ most_events }
        ensures text { (h : List Event) → answered self.old h →
            OnOk result (text.new.items ≡ text.old.items ++ (answering self.old).text h k event.now) }
        ensures answered { (h : List Event) → answered self.old h → OnOk result (answered self.new (event.now ∷ h)) }
        ensures same { answering self.new ≡ answering self.old }
        ensures counted { OnOk result (count self.new ≡ count self.old + 1) };
}
