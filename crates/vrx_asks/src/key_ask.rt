//! The request for a keyframe.

ghost use Rattle.std.specs.Prelude.{◌≡◌, ◌&&◌, not, if◌then◌else◌, Some, None};
ghost use Rattle.vrx_asks.specs.KeyAsk.{is_outstanding};

use std::marker::Model;
use vrx_num::limits::KEY_REQUEST_WAIT;

/// When a keyframe was asked for last. Contracts see the moment of the last request after which no keyframe
/// completed, if there is one.
#[derive(Debug, Drop)]
pub struct KeyAsk {
    last: Option<u64>,
}

impl Model for KeyAsk {
    ghost use Rattle.std.specs.Prelude.{ℕ, Option};

    ghost Value = { Option ℕ };

    ghost view = { λ a. a.last };
}

impl KeyAsk {
    /// No keyframe was asked for.
    pub fn new() -> KeyAsk
        ensures { result ≡ None }
    {
        KeyAsk { last: None }
    }

    /// Whether a keyframe is asked for now: if it is needed, and no request is outstanding. It is then asked for at
    /// this moment.
    pub fn decide(&mut self, now: u64, need: bool) -> bool
        ensures request { result ≡ (need && not (is_outstanding now self.old)) }
        ensures last { self.new ≡ (if result then Some now else self.old) }
    {
        let request = need && !is_outstanding(now, self.last);
        if request {
            self.last = Some(now);
        }
        request
    }

    /// A keyframe completed: no request is outstanding.
    pub fn completed(&mut self)
        ensures { self.new ≡ None }
    {
        self.last = None;
    }
}

/// Whether the last request is less than 300 milliseconds ago.
fn is_outstanding(now: u64, last: Option<u64>) -> bool
    ensures { result ≡ is_outstanding now last }
{
    match last {
        Some(last) => now.saturating_sub(last) < KEY_REQUEST_WAIT,
        None => false,
    }
}
