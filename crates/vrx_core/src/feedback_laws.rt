//! What the definitions of requests come to. A law runs nothing: its clause is what it is for.

ghost use Rattle.vrx_core.specs.machine.Asking.{AskedAreMissingHolds, FewRequestsHold, KeyRequestsApartHold, LossesAskHold, LostStaysHolds, MissingHolds, RequestsApartHold};

/// A number is missing exactly if it lies after the first number taken and before the newest, in the window, and is
/// not available, not passed and not given up.
pub fn missing_are()
    ensures missing { MissingHolds }
{}

/// No number is asked for more than ten times.
pub fn few_requests()
    ensures few { FewRequestsHold }
{}

/// Two requests of a number lie at least the interval of the settings apart.
pub fn requests_apart()
    ensures apart { RequestsApartHold }
{}

/// What an event asks for is missing after it: nothing is asked for that is available, passed or given up.
pub fn asked_are_missing()
    ensures missing { AskedAreMissingHolds }
{}

/// A number that was given up stays so, no datagram is taken under it, and no event repairs it.
pub fn lost_stays()
    ensures stays { LostStaysHolds }
{}

/// Two requests for a keyframe lie at least 300 milliseconds apart, unless a keyframe completed between them.
pub fn key_requests_apart()
    ensures apart { KeyRequestsApartHold }
{}

/// A number that an event gives up brings a request for a keyframe with that event, unless a keyframe that begins beyond
/// it stands or was pulled, or a request is outstanding.
pub fn losses_ask()
    ensures ask { LossesAskHold }
{}
