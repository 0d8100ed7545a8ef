//! What a level protects.

ghost use Rattle.std.specs.Prelude.{◌≡◌, map};
ghost use Rattle.vrx_fec.specs.Parity.{spans_of};
ghost use Rattle.vrx_fec.specs.View.{view_level};

use crate::fec::Level;
use arrayvec::ArrayVec;

/// A level protects the packets that its mask names, and so many octets of each.
#[derive(Clone, Copy, Debug, Default)]
pub(crate) struct Span {
    pub(crate) mask: u64,
    pub(crate) size: usize,
}

/// What levels protect.
pub(crate) fn spans_of(levels: &ArrayVec<Level<'_>, 8>) -> ArrayVec<Span, 8>
    ensures { result.items ≡ spans_of (map view_level levels.now.items) }
{
    let mut spans = ArrayVec::new();
    for level in levels.as_slice() {
        spans.push(Span {
            mask: level.mask,
            size: level.octets.len(),
        });
    }
    spans
}
