//! Runs in a queue, in the order of their first numbers.

ghost use Rattle.std.specs.Prelude.{◌≡◌, ◌+◌, ◌<◌, nat_le, true, List, [], length, map, drop, slice_get, slice_index_or, if◌then◌else◌, IfOk, IfSome};
ghost use Rattle.std.specs.List.{Contains, find, list_any};
ghost use Rattle.vrx_num.specs.declared.limits.TheConstants.{WINDOW};
ghost use Rattle.vrx_buffer.specs.Order.{greatest_of, rises_by};
ghost use Rattle.vrx_codec.specs.declared.run.Run.{Run};
ghost use Rattle.vrx_refs.specs.declared.sighting.Sighting.{Sighting};
ghost use Rattle.vrx_refs.specs.Knows.{Knows};
ghost use Rattle.vrx_buffer.specs.Frames.{is_deliverable, runs_from, with_run, without};
ghost use Rattle.vrx_buffer.specs.Kept.{IsPlace, have_layers};

use std::alloc::Global;
use std::collections::VecDeque;
use std::marker::Model;
use vrx_codec::Run;
use vrx_num::NoMemory;
use vrx_num::limits::WINDOW;
use vrx_refs::Finder;

/// Runs. Contracts see their list, which rises by first number. Its memory is taken once: room for 2,048.
#[derive(Drop)]
pub(crate) struct Queue {
    runs: VecDeque<Run>,
}

impl Model for Queue {
    ghost use Rattle.std.specs.Prelude.{List};
    ghost use Rattle.std.specs.VecDeque.{deque_capacity};
    ghost use Rattle.vrx_codec.specs.declared.run.Run.{Run};
    ghost use Rattle.vrx_buffer.specs.Kept.{IsQueue};

    ghost Value = { List Run };

    ghost view = { λ a. a.runs.items };

    ghost invariant = { λ a. IsQueue a.runs.items (deque_capacity a.runs) };
}

impl Queue {
    /// No runs. Only this call takes memory.
    pub(crate) fn new(alloc: Global) -> Result<Queue, NoMemory>
        ensures nothing { IfOk result (λ queue. queue ≡ []) }
    {
        Ok(Queue {
            runs: VecDeque::with_capacity(alloc, WINDOW as usize)?,
        })
    }

    /// How many runs there are.
    pub(crate) fn len(&self) -> usize
        ensures { result ≡ length self.now }
    {
        self.runs.len()
    }

    /// The run at a place. The contract also says what always holds.
    pub(crate) fn get(&self, at: usize) -> Run
        requires { at < length self.now }
        ensures run { result ≡ slice_index_or self.now at result }
        ensures rise { rises_by (λ run. run.first) self.now ≡ true }
    {
        self.runs[at]
    }

    /// The first run. The contract also says what always holds.
    pub(crate) fn first(&self) -> Option<Run>
        ensures first { result ≡ slice_get self.now 0 }
        ensures rise { rises_by (λ run. run.first) self.now ≡ true }
    {
        match self.runs.front() {
            Some(run) => Some(*run),
            None => None,
        }
    }

    /// The first run that is ready, with the numbers up to `passed` passed.
    #[inline(never)]
    pub(crate) fn first_ready(&self, finder: &Finder, passed: Option<u64>) -> Option<Run>
        requires layers { have_layers self.now ≡ true }
        ensures ready { (told : List Sighting) (pulled : List Run) → Knows finder.now told pulled →
            result ≡ find (is_deliverable told pulled passed) self.now }
        ensures among { IfSome result (λ run. Contains self.now run) }
    {
        if self.runs.is_empty() {
            return None;
        }
        let (front, back) = self.runs.as_slices();
        match finder.first_ready(front, passed) {
            Some(run) => Some(run),
            None => finder.first_ready(back, passed),
        }
    }

    /// The greatest first number.
    pub(crate) fn greatest(&self) -> Option<u64>
        ensures { result ≡ greatest_of (map (λ run. run.first) self.now) }
    {
        match self.runs.back() {
            Some(run) => Some(run.first),
            None => None,
        }
    }

    /// Puts a run in its place, in place of one with the same first number, or only removes that one.
    #[inline(always)]
    pub(crate) fn set(&mut self, run: &Run, stands: bool)
        requires room { length self.old < WINDOW }
        ensures set { self.new ≡ (if stands then with_run run.now self.old else without run.now.first self.old) }
    {
        if stands {
            self.put(run);
        } else {
            self.remove(run.first);
        }
    }

    /// Puts a run in its place, in place of one with the same first number.
    fn put(&mut self, run: &Run)
        requires room { length self.old < WINDOW }
        ensures put { self.new ≡ with_run run.now self.old }
    {
        match place_of(&self.runs, run.first) {
            Ok(at) => self.runs[at] = *run,
            Err(at) => match self.runs.insert(at, *run) {
                Ok(()) => {}
                Err(_) => unreachable!(),
            },
        }
    }

    /// Removes the run with this first number, if there is one.
    fn remove(&mut self, n: u64)
        ensures left { self.new ≡ without n self.old }
    {
        if let Ok(at) = place_of(&self.runs, n) {
            let _run = self.runs.remove(at);
        }
    }

    /// Removes the runs that begin at a number or below it.
    pub(crate) fn drop_through(&mut self, last: u64)
        ensures left { self.new ≡ runs_from (last + 1) self.old }
    {
        while self.begins_through(last) {
            self.drop_first();
        }
    }

    /// Whether the first run begins at a number or below it. If it doesn't, no run does.
    fn begins_through(&self, last: u64) -> bool
        ensures begins { result ≡ list_any (λ run. nat_le run.first last) self.now }
    {
        match self.first() {
            Some(run) => run.first <= last,
            None => false,
        }
    }

    /// Removes the first run, if there is one.
    fn drop_first(&mut self)
        ensures left { self.new ≡ drop 1 self.old }
        ensures rise { rises_by (λ run. run.first) self.old ≡ true }
    {
        let _run = self.runs.pop_front();
    }
}

/// Where a run with this first number stands, or the place where it is missing. If it is beyond the last run, nothing
/// is searched.
fn place_of(runs: &VecDeque<Run>, n: u64) -> Result<usize, usize>
    requires rise { rises_by (λ run. run.first) runs.now.items ≡ true }
    ensures { IsPlace n runs.now.items result }
{
    match runs.back() {
        Some(last) if last.first < n => Err(runs.len()),
        Some(_) => runs.binary_search_by_key(&n, |run| run.first),
        None => Err(0),
    }
}
