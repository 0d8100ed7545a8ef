//! What a codec does.

ghost use Rattle.std.specs.Prelude.{◌≡◌, ℕ, ◌+◌, ◌^◌, ◌≤◌, ◌++◌, List, length, vec_len, vec_capacity, IsOk, IfOk};
ghost use Rattle.vrx_codec.specs.declared.join.Join.{Join};
ghost use Rattle.vrx_codec.specs.Joining.{Joining, beginning, join_from, IsPartRead, IsWithin, Raises};
ghost use Rattle.vrx_num.specs.Octets.{AreOctets};
ghost use Rattle.vrx_codec.specs.Meaning.{Meaning};
ghost use Rattle.vrx_codec.specs.Part.{Part as PartSaid};
ghost use Rattle.vrx_codec.specs.View.{view, view_result};

use crate::fault::{JoinFault, PartFault};
use crate::join::Join;
use crate::part::Part;

/// How a codec's payloads read as parts of frames, and how the parts of a frame join to its bytes. No call takes
/// memory.
///
/// To join parts: begin with [`BEGINNING`](crate::BEGINNING), let each part `step`, and `end`. That gives the number
/// of octets, or the fault. Then `append` the parts from the same beginning on.
pub trait Codec {
    /// How a payload reads, and to which bytes a list of parts joins.
    ghost meaning: { Meaning };

    /// How parts join one after the other.
    ghost joining: { Joining };

    /// The part that a payload is, or the first fault.
    fn read_part(payload: &[u8]) -> Result<Part<'_>, PartFault>
        ensures reads { view_result result ≡ meaning.read payload.now };

    /// What a part makes of the parts before it, or why it doesn't join to them. It is a part that `read_part` gave,
    /// of at most 2^28 octets of body, and the parts before it came to at most 2^30 octets.
    fn step(state: Join, part: &Part<'_>) -> Result<Join, JoinFault>
        requires part { IsPartRead meaning (view part.now) }
        requires octets { state.octets ≤ 2 ^ 30 }
        requires body { length part.now.body.now ≤ 2 ^ 28 }
        ensures steps { result ≡ joining.step state (view part.now) };

    /// How many octets the parts came to, or why they are no whole frame.
    fn end(state: Join) -> Result<u32, JoinFault>
        ensures ends { result ≡ joining.end state };

    /// Adds to `out` the octets of a part that joins: its `step` from the same state is `Ok`, under the conditions of
    /// `step`, and `out` has room for them.
    fn append(state: Join, part: &Part<'_>, out: &mut Vec<u8>)
        requires part { IsPartRead meaning (view part.now) }
        requires octets { state.octets ≤ 2 ^ 30 }
        requires body { length part.now.body.now ≤ 2 ^ 28 }
        requires joins { IsOk (joining.step state (view part.now)) }
        requires room { vec_len out.old + length (joining.adds state (view part.now)) ≤ vec_capacity out.old }
        ensures adds { out.new.items ≡ out.old.items ++ joining.adds state (view part.now) }
        ensures capacity { vec_capacity out.old ≤ vec_capacity out.new };

    /// A part's body has at most as many octets as its payload, its picture 15 bits, and its layer two.
    ghost within: { (payload : List ℕ) → AreOctets payload → IfOk (meaning.read payload) (λ part. IsWithin payload part) };

    /// Parts that join one after the other, from the beginning on, join to what the list of them does.
    ghost joins: { (parts : List PartSaid) → join_from joining parts beginning ≡ meaning.join parts };

    /// An end that is right answers the octets of the state.
    ghost counted: { (state : Join) → IfOk (joining.end state) (λ octets. octets ≡ state.octets) };

    /// A part that joins raises the octets by exactly those that it adds, at most five times those of its body.
    ghost raises: { (state : Join) (part : PartSaid) → IfOk (joining.step state part) (λ next. Raises joining state part next) };
}
