//! What bytes are written to.

ghost use Rattle.std.specs.Prelude.{◌≡◌, ℕ, ◌<◌, ◌≤◌, List, length, take, OnOk, OnErr, IfOk};
ghost use Rattle.std.specs.declared.option.Option.{Option};
ghost use Rattle.vrx_io.specs.Faults.{Rose};
ghost use Rattle.vrx_io.specs.Sink.{with_more, TakesShortPrefix};

use crate::failed::Failed;

/// What bytes are written to. It may tell which bytes it took, and it counts the writes that fail.
pub trait Sink {
    /// All the bytes that it has taken, if the sink tells them.
    ghost taken: { Self → Option (List ℕ) };

    /// How many writes failed. The count may stop at the greatest number of 64 bits.
    ghost faults: { Self → ℕ };

    /// Takes some of `piece` from the front, and says how many: at least one, if there is one.
    /// A `Failed` write took nothing.
    fn write(&mut self, piece: &[u8]) -> Result<usize, Failed>
        ensures some { 0 < length piece.now → IfOk result (λ n. 0 < n) }
        ensures count { IfOk result (λ n. n ≤ length piece.now) }
        ensures takes { IfOk result (λ n.
            taken self.new ≡ with_more (taken self.old) (take n piece.now)) }
        ensures failed { OnErr result (taken self.new ≡ taken self.old) }

        // A write that fails is counted, and no other.
        ensures later { faults self.old ≤ faults self.new }
        ensures uncounted { OnOk result (faults self.new ≡ faults self.old) }
        ensures cause { OnErr result (Rose (faults self.old) (faults self.new)) };
}

/// Writes all of `text`, in as many pieces as the sink takes it in. On `Failed` the sink has a
/// part of the text from its front, and never all of it.
#[tactic(auto, using(crate::proofs::SinkLemmas::extended_by_more))]
pub fn put<K: Sink>(sink: &mut K, text: &[u8]) -> Result<(), Failed>
    ensures ok { OnOk result (K.taken sink.new ≡ with_more (K.taken sink.old) text.now) }
    ensures err { OnErr result (TakesShortPrefix (K.taken sink.old) (K.taken sink.new) text.now) }
    ensures later { K.faults sink.old ≤ K.faults sink.new }
    ensures uncounted { OnOk result (K.faults sink.new ≡ K.faults sink.old) }
    ensures cause { OnErr result (Rose (K.faults sink.old) (K.faults sink.new)) }
{
    let mut at = 0;
    while at < text.len() {
        let rest = text.split_at(at).1;
        let n = sink.write(rest)?;
        at += n;
    }
    Ok(())
}
