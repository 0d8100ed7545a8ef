//! What holds of the definitions themselves. The functions do nothing: their clauses are laws, for callers' proofs.

ghost use Rattle.vrx_repair.specs.Order.{AnyOrder};
ghost use Rattle.vrx_repair.specs.Laws.{RepairsAre};
ghost use Rattle.vrx_repair.specs.Truth.{TrueRepairs};

use vrx_fec::{any_order as any_order_of_texts, one_payload, one_rebuilt};
use vrx_rtp::one_reading;
use vrx_window::contents_are_few;

/// If packets are right, and steps from right packets are, the order of the steps makes no difference: what is
/// available once none is left is the same.
pub fn any_order()
    ensures any { AnyOrder }
{}

/// What the repairs of packets within a window are: step after step is made, always that of the least number, until
/// no step is left.
pub fn repairs_are()
    ensures repairs { RepairsAre }
{
    // The law cited here: packets within a window are at most as many as it has numbers.
    contents_are_few();
}

/// What is rebuilt from true parity is right (RFC 5109 8, 9).
///
/// If each text that is right under a number is an RTP packet of the source under this number, and each FEC payload
/// that is right is the parity of just the right texts that its level 0 names, then each step from right packets
/// gives the text that is right.
pub fn true_repairs()
    ensures right { TrueRepairs }
{
    // Each call cites the laws that the proof needs, and runs nothing.
    one_reading();
    one_payload();
    one_rebuilt();
    any_order_of_texts();
}
