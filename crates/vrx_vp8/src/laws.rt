//! What holds of the descriptor itself.

ghost use Rattle.vrx_vp8.specs.OneDescriptor.{ReadsSpelled, GivesPart, GivesLayers, GivesKey, RefusesNoBody, RefusesShort};

/// The laws of the payload descriptor (RFC 7741 4.2). The fields of a payload are read exactly if its octets spell
/// them; so they spell one descriptor at most. The part is that of these fields. It has layers exactly if X, I, L and
/// T are 1 and the PictureID has 15 bits. It says a keyframe exactly if it is a start and its body's first octet is
/// even (RFC 7741 4.3). If nothing follows the descriptor, the payload has the fault `NO_BODY` at its end, and if the
/// octets spell none, the fault `SHORT`. The function does nothing.
pub fn one_descriptor()
    ensures fields_spelled { ReadsSpelled }
    ensures part_spelled { GivesPart }
    ensures layers { GivesLayers }
    ensures key { GivesKey }
    ensures no_body { RefusesNoBody }
    ensures short { RefusesShort }
{}
