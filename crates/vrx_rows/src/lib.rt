//! Calls worked by hand: that the premises of the honest call can be met, over VP8 and H.264.
#![tactic(auto)]

ghost use Rattle.vrx_vp8.specs.Descriptor.{vp8};
ghost use Rattle.vrx_h264.specs.AccessUnit.{h264};
ghost use Rattle.vrx_rows.specs.Met.{CanBeMet};

/// The premises of the honest call can be met, by a call of VP8 and by one of H.264, in each of which frames are pulled.
/// A law runs nothing: its clauses are what it is for. The calls stand in `proofs/WholeCallRows.antt` and
/// `proofs/HonestH264Rows.antt`.
pub fn premises_can_be_met()
    ensures vp8 { CanBeMet vp8 }
    ensures h264 { CanBeMet h264 }
{}
