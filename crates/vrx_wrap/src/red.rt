//! RED with one block (RFC 2198 3).

ghost use Rattle.std.specs.Prelude.{◌≡◌, ◌↔◌, ◌<◌, [], Ok, IfOk, IsOkAnd, IsErrOf};
ghost use Rattle.vrx_wrap.specs.Red.{Block as BlockOf, IsRed, HasMore, red_payload, block_of};
ghost use Rattle.vrx_wrap.specs.View.{view_block, view_red};

use std::alloc::Global;
use vrx_num::NoMemory;

/// F of a block's first octet: another block follows.
const BIT_F: u8 = 0x80;

/// The block of a RED payload, seen where it lies.
#[derive(Clone, Copy, Debug, PartialEq, Eq)]
pub struct Block<'a> {
    /// The block's payload type, of 7 bits.
    pub pt: u8,
    /// The block's octets, to the end of the payload.
    pub rest: &'a [u8],
}

/// Why a RED payload isn't read, in the order in which it is tested.
#[derive(Clone, Copy, Debug, PartialEq, Eq, thiserror::Error)]
pub enum RedFault {
    /// It has no octet.
    #[error("the RED payload is empty")]
    Empty,
    /// Its first octet has F = 1: there is more than one block.
    #[error("the RED payload has more than one block")]
    MoreBlocks,
}

/// The one block of a RED payload (RFC 2198 3). It takes no memory.
pub fn red_read(payload: &[u8]) -> Result<Block<'_>, RedFault>
    // What is read, wherever it lies in memory.
    ensures reads { view_red result ≡ block_of payload.now }

    // What is read has the form of RED with one block, and what has that form is read.
    ensures red { IfOk result (λ block. IsRed payload.now (view_block block)) }
    ensures only { (b : BlockOf) → IsRed payload.now b → IsOkAnd result (λ block. view_block block ≡ b) }

    // When it isn't read.
    ensures empty { IsErrOf result RedFault.Empty ↔ (payload.now ≡ []) }
    ensures more_blocks { IsErrOf result RedFault.MoreBlocks ↔ HasMore payload.now }
{
    match payload {
        [] => Err(RedFault::Empty),
        [head, rest @ ..] => {
            if *head < BIT_F {
                Ok(Block { pt: *head, rest })
            } else {
                Err(RedFault::MoreBlocks)
            }
        }
    }
}

/// The RED payload whose one block is `rest`, of payload type `pt` (RFC 2198 3).
pub fn red_wrap(alloc: Global, pt: u8, rest: &[u8]) -> Result<Vec<u8>, NoMemory>
    requires pt { pt < 128 }
    ensures spelled { IfOk result (λ payload. payload.items ≡ red_payload pt rest.now) }
    // Reading it gives the block again.
    ensures again { IfOk result (λ payload. block_of payload.items ≡ Ok (record { pt = pt; rest = rest.now })) }
{
    let mut payload = Vec::new(alloc);
    payload.push(pt)?;
    payload.extend_from_slice(rest)?;
    Ok(payload)
}
