//! The runs that stand.

ghost use Rattle.std.specs.Prelude.{◌≡◌, ◌+◌, ◌<◌, true, List, [], length, IfOk, IfSome};
ghost use Rattle.std.specs.List.{All, Contains, find, list_all};
ghost use Rattle.vrx_num.specs.declared.limits.TheConstants.{WINDOW};
ghost use Rattle.vrx_codec.specs.declared.run.Run.{Run};
ghost use Rattle.vrx_refs.specs.declared.sighting.Sighting.{Sighting};
ghost use Rattle.vrx_refs.specs.Knows.{Knows};
ghost use Rattle.vrx_refs.specs.References.{has_layer};
ghost use Rattle.vrx_buffer.specs.Order.{greatest_of};
ghost use Rattle.vrx_buffer.specs.Frames.{AreStanding, is_deliverable, key_numbers, next_of, runs_from, with_run};
ghost use Rattle.vrx_buffer.specs.Kept.{have_layers, is_before, is_layered, is_plain, lesser};

use crate::queue::Queue;
use std::alloc::Global;
use std::marker::Model;
use vrx_codec::Run;
use vrx_num::NoMemory;
use vrx_refs::Finder;

/// The runs that came and were not handed out yet, in the order of their first numbers.
///
/// Contracts see their list. The memory is taken once: room for 2,048 runs.
///
/// A run stands in one of three queues: those of the keyframes, of the other runs without layers, and of the other
/// runs with layers. In the first two only the first run can be the next one, so a pull searches the third alone.
#[derive(Drop)]
pub struct Frames {
    keys: Queue,
    plain: Queue,
    layered: Queue,
}

impl Model for Frames {
    ghost use Rattle.std.specs.Prelude.{List};
    ghost use Rattle.vrx_codec.specs.declared.run.Run.{Run};
    ghost use Rattle.vrx_buffer.specs.Kept.{AreKept, runs_of};

    ghost Value = { List Run };

    ghost view = { λ a. runs_of a.keys a.plain a.layered };

    ghost invariant = { λ a. AreKept (runs_of a.keys a.plain a.layered) a.keys a.plain a.layered };
}

impl Frames {
    /// No runs. Only this call takes memory.
    pub fn new(alloc: Global) -> Result<Frames, NoMemory>
        ensures nothing { IfOk result (λ frames. frames ≡ []) }
    {
        Ok(Frames {
            keys: Queue::new(alloc)?,
            plain: Queue::new(alloc)?,
            layered: Queue::new(alloc)?,
        })
    }

    /// Adds a run, in place of one that begins at the same number. It takes no memory.
    pub fn add(&mut self, run: Run)
        requires room { length self.old < WINDOW }
        requires layer { has_layer run.layers ≡ true }
        ensures runs { self.new ≡ with_run run self.old }
    {
        self.keys.set(&run, run.key);
        self.plain.set(&run, is_plain(&run));
        self.layered.set(&run, is_layered(&run));
    }

    /// The deliverable run with the least first number, with the numbers up to `passed` passed. The contract also says
    /// what always holds of the runs.
    pub fn next(&self, finder: &Finder, passed: Option<u64>) -> Option<Run>
        ensures next { (told : List Sighting) (pulled : List Run) → Knows finder.now told pulled →
            result ≡ next_of told pulled passed self.now }
        ensures stands { IfSome result (λ run. Contains self.now run) }
        ensures sound { AreStanding self.now }
    {
        let key = self.keys.first();
        let plain = first_if_ready(&self.plain, finder, passed);
        let layered = self.layered.first_ready(finder, passed);
        lesser(lesser(key, plain), layered)
    }

    /// Removes the run with this first number and all runs before it.
    pub fn take(&mut self, first: u64)
        ensures runs { self.new ≡ runs_from (first + 1) self.old }
    {
        self.drop_through(first);
    }

    /// Removes the runs that begin below a number.
    pub fn drop_below(&mut self, n: u64)
        ensures runs { self.new ≡ runs_from n self.old }
    {
        if let Some(last) = n.checked_sub(1) {
            self.drop_through(last);
        }
    }

    /// The greatest first number of a keyframe.
    pub fn greatest_key(&self) -> Option<u64>
        ensures greatest { result ≡ greatest_of (key_numbers self.now) }
    {
        self.keys.greatest()
    }

    /// Removes the runs that begin at a number or below it.
    fn drop_through(&mut self, last: u64)
        ensures runs { self.new ≡ runs_from (last + 1) self.old }
    {
        self.keys.drop_through(last);
        self.plain.drop_through(last);
        self.layered.drop_through(last);
    }
}

/// Whether a run is no keyframe, and has no layers.
fn is_plain(run: &Run) -> bool
    ensures { result ≡ is_plain run.now }
{
    !run.key && run.layers.is_none()
}

/// Whether a run is no keyframe, and has layers.
fn is_layered(run: &Run) -> bool
    ensures { result ≡ is_layered run.now }
{
    !run.key && run.layers.is_some()
}

/// The better one of the best run so far and another: the one with the lesser first number.
fn lesser(best: Option<Run>, other: Option<Run>) -> Option<Run>
    ensures { result ≡ lesser best other }
{
    match other {
        Some(run) if !is_before(best, &run) => other,
        _ => best,
    }
}

/// The first run, if it is ready. If it isn't, no run without layers is.
#[inline(never)]
fn first_if_ready(queue: &Queue, finder: &Finder, passed: Option<u64>) -> Option<Run>
    requires plain { list_all is_plain queue.now ≡ true }
    ensures ready { (told : List Sighting) (pulled : List Run) → Knows finder.now told pulled →
        result ≡ find (is_deliverable told pulled passed) queue.now }
    ensures stands { (runs : List Run) → All (λ run. Contains runs run) queue.now →
        IfSome result (λ run. Contains runs run) }
{
    match queue.first() {
        Some(run) if finder.is_ready(&run, passed) => Some(run),
        _ => None,
    }
}

/// Whether the best run so far begins before another.
fn is_before(best: Option<Run>, run: &Run) -> bool
    ensures { result ≡ is_before best run.now }
{
    match best {
        Some(best) => best.first < run.first,
        None => false,
    }
}
