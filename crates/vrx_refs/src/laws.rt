//! What holds of the definitions themselves.

ghost use Rattle.vrx_refs.specs.Laws.{AreNear, AreSeenBetween, AreWalked, FollowsReferences, WalksBack};

/// The laws of the frames that a frame refers to (RFC 7741 4.2). The function does nothing.
///
/// Each of them lies 1 to 255 pictures below the frame. If the frame has neither TID 0 nor Y, they are the first of
/// each TID up to its own on the way back to some picture, and each picture on that way is seen.
pub fn references_are()
    ensures near { AreNear }
    ensures seen { AreSeenBetween }
    ensures walked { AreWalked }
    ensures walks { WalksBack }
{}

/// The law of deliverable frames with layers. The function does nothing.
///
/// A frame that waits for nothing, and isn't key, refers to frames that are known, and each of them was pulled.
pub fn follows_references()
    ensures { FollowsReferences }
{}
