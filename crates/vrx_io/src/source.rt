//! What bytes are read from.

ghost use Rattle.std.specs.Prelude.{◌≡◌, ℕ, ◌<◌, ◌≤◌, List, Ok, length, is_some, IfOk, OnOk, OnErr};
ghost use Rattle.std.specs.declared.option.Option.{Option};
ghost use Rattle.vrx_io.specs.Faults.{Rose};
ghost use Rattle.vrx_io.specs.Reads.{octets_read};
ghost use Rattle.vrx_io.specs.Source.{Gives, IsSpent};

use crate::failed::Failed;

/// What bytes are read from. It may tell which bytes are left, and it counts the reads that fail.
pub trait Source {
    /// The bytes that reads will give from here on, if the source tells them.
    ghost left: { Self → Option (List ℕ) };

    /// How many reads failed. The count may stop at the greatest number of 64 bits.
    ghost faults: { Self → ℕ };

    /// What one read does: the source before it, the bytes that it gave, none if it failed, and the source after it.
    /// Only a read shows it. So a caller over any source shows by it each of its reads, in their order.
    ghost is_read: { Self → List ℕ → Self → Type 0 };

    /// Reads some bytes into the front of `buf`, and says how many. With room in `buf` the answer
    /// is 0 only at the end. After a `Failed` the same bytes are left.
    fn read(&mut self, buf: &mut [u8]) -> Result<usize, Failed>
        ensures count { IfOk result (λ n. n ≤ length buf.old) }
        ensures next { IfOk result (λ n. Gives (left self.old) (left self.new) n buf.new) }
        ensures one { is_read self.old (octets_read result buf.new) self.new }
        ensures end { result ≡ Ok 0 → 0 < length buf.old → IsSpent (left self.old) }
        ensures tells { is_some (left self.new) ≡ is_some (left self.old) }
        ensures failed { OnErr result (left self.new ≡ left self.old) }

        // A read that fails is counted, and no other.
        ensures later { faults self.old ≤ faults self.new }
        ensures uncounted { OnOk result (faults self.new ≡ faults self.old) }
        ensures cause { OnErr result (Rose (faults self.old) (faults self.new)) };
}
