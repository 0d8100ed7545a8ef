//! What holds of the definitions themselves.

ghost use Rattle.vrx_fec.specs.Laws.{ReadsPayloads, RebuildsLength, Rebuilds, KeepsParity, KeepsTruth, KeepsSums, KeepsRebuilt};

/// The law of FEC payloads (RFC 5109 7.3, 7.4): reading gives a payload exactly if the octets are that payload. The
/// function does nothing.
pub fn one_payload()
    ensures one { ReadsPayloads }
{}

/// The laws of rebuilding (RFC 5109 8, 9). The function does nothing.
///
/// The length rebuilt from true parity and the other texts is the missing text's own, and never that of the longest.
/// What is rebuilt is the missing text, if it is covered and isn't too long.
pub fn one_rebuilt()
    ensures length { RebuildsLength }
    ensures text { Rebuilds }
{}

/// The texts may be in any order (RFC 5109 8, 9). The function does nothing.
///
/// What is the parity of some texts, what is true for them, what a register of them has added up, and what is rebuilt
/// from them is the same if they stand in another order.
pub fn any_order()
    ensures parity { KeepsParity }
    ensures truth { KeepsTruth }
    ensures sums { KeepsSums }
    ensures text { KeepsRebuilt }
{}
