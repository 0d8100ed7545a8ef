//! What a line of a capture says.

ghost use Rattle.std.specs.Prelude.{◌≡◌, ◌&&◌, ◌||◌, ◌==◌, true, drop, IfOk};
ghost use Rattle.std.specs.List.{list_any};
ghost use Rattle.std.specs.Option.{option_map};
ghost use Rattle.vrx_capture.specs.Line.{begins, is_blank, is_event, is_datagram, is_tick, after_letter, moment_in, has_more, octets_in, bytes_in, event_line, line_at};

use crate::words::{after_prefix, after_space, index_of, number_in, until_space};
use hex::FromHexError;
use std::alloc::Global;
use vrx_core::{Event, EventBytes};
use vrx_num::NoMemory;
use vrx_num::slices::from;

/// How many lines a capture may have.
pub(crate) const MOST_LINES: u32 = 2_097_152;

/// The longest line that may be taken.
pub(crate) const LONGEST_LINE: usize = 20_000;

/// The greatest moment that a line reports: twelve digits.
const LATEST_MOMENT: u64 = 999_999_999_999;

/// What a line after the settings line says.
#[derive(Debug, Drop)]
pub enum LineKind {
    /// Nothing: it is empty or a comment.
    Blank,
    /// That this event happened.
    Happens(Event),
    /// Nothing that a capture may hold, for this reason.
    Wrong(LineReason),
}

/// Why a line after the settings line is bad. The first that applies counts, in this order.
#[derive(Clone, Copy, Debug, PartialEq, Eq)]
pub enum LineReason {
    /// It is line 2,097,153.
    Lines,
    /// It has more than 20,000 octets.
    Long,
    /// It isn't empty, doesn't begin with `#`, and doesn't begin with `d`, `t` or `p` and a space.
    Kind,
    /// It is an event line too many.
    Events,
    /// What follows, up to the next space or the end, is no moment: 1 to 12 decimal digits without a leading zero.
    Moment,
    /// Something stands after the moment of a tick or a pull.
    End,
    /// After the moment of a datagram doesn't stand a space and an even number, at least 2, of hexadecimal digits.
    Hex,
}

/// Whether a line begins with these octets.
fn begins(prefix: &[u8], line: &[u8]) -> bool
    ensures { result ≡ begins prefix.now line.now }
{
    after_prefix(prefix, line).is_some()
}

/// Whether a line says nothing: it is empty or a comment.
fn is_blank(line: &[u8]) -> bool
    ensures { result ≡ is_blank line.now }
{
    line.is_empty() || begins(b"#", line)
}

/// Whether a line reports a datagram.
fn is_datagram(line: &[u8]) -> bool
    ensures { result ≡ is_datagram line.now }
{
    begins(b"d ", line)
}

/// Whether a line reports a tick.
fn is_tick(line: &[u8]) -> bool
    ensures { result ≡ is_tick line.now }
{
    begins(b"t ", line)
}

/// Whether a line reports an event.
fn is_event(line: &[u8]) -> bool
    ensures { result ≡ is_event line.now }
{
    is_datagram(line) || is_tick(line) || begins(b"p ", line)
}

/// The moment that an event line reports.
fn moment_in(line: &[u8]) -> Option<u64>
    ensures { result ≡ moment_in line.now }
{
    number_in(LATEST_MOMENT, until_space(from(line, 2)))
}

/// Whether an event line goes on after its moment.
fn has_more(line: &[u8]) -> bool
    ensures { result ≡ has_more line.now }
{
    from(line, 2).contains(&b' ')
}

/// The octets that hexadecimal digits spell, if there are some.
#[tactic(auto, unfolding(crate::specs::Line::octets_in))]
fn octets_in(alloc: Global, digits: &[u8]) -> Result<Option<Vec<u8>>, NoMemory>
    ensures { IfOk result (λ octets. option_map (λ v. v.items) octets ≡ octets_in digits.now) }
{
    match hex::decode(alloc, digits) {
        Ok(octets) => {
            if octets.is_empty() {
                Ok(None)
            } else {
                Ok(Some(octets))
            }
        }
        Err(FromHexError::OutOfMemory) => Err(NoMemory),
        Err(_) => Ok(None),
    }
}

/// The octets that a datagram's line reports.
fn bytes_in(alloc: Global, line: &[u8]) -> Result<Option<EventBytes>, NoMemory>
    ensures { IfOk result (λ bytes. bytes ≡ bytes_in line.now) }
{
    match octets_in(alloc, after_space(from(line, 2)))? {
        Some(octets) => Ok(Some(EventBytes::from_vec(octets))),
        None => Ok(None),
    }
}

/// What an event line says, which is within the limits.
#[tactic(auto, using(crate::proofs::LineLemmas::no_tick, crate::proofs::LineLemmas::no_pull), unfolding(crate::specs::Line::event_in, crate::specs::Line::event_line))]
fn read_event(alloc: Global, line: &[u8]) -> Result<LineKind, NoMemory>
    requires { is_event line.now ≡ true }
    ensures { IfOk result (λ kind. kind ≡ event_line line.now) }
{
    let Some(moment) = moment_in(line) else {
        return Ok(LineKind::Wrong(LineReason::Moment));
    };
    if is_datagram(line) {
        return match bytes_in(alloc, line)? {
            Some(bytes) => Ok(LineKind::Happens(Event::Datagram { moment, bytes })),
            None => Ok(LineKind::Wrong(LineReason::Hex)),
        };
    }
    if has_more(line) {
        return Ok(LineKind::Wrong(LineReason::End));
    }
    if is_tick(line) {
        Ok(LineKind::Happens(Event::Tick { moment }))
    } else {
        Ok(LineKind::Happens(Event::Pull { moment }))
    }
}

/// What line `k` after the settings line says, its line feed left out, after this many event lines, of which a
/// capture has at most `max`. Lines count from 1.
#[tactic(auto, using(crate::proofs::LineLemmas::blank_line), unfolding(crate::specs::Line::event_in, crate::specs::Line::event_line, crate::specs::Line::line_at))]
pub fn read_line(
    alloc: Global,
    max: u32,
    k: u32,
    events: u32,
    line: &[u8],
) -> Result<LineKind, NoMemory>
    ensures kind { IfOk result (λ kind. kind ≡ line_at max k events line.now) }
{
    if k > MOST_LINES {
        return Ok(LineKind::Wrong(LineReason::Lines));
    }
    if line.len() > LONGEST_LINE {
        return Ok(LineKind::Wrong(LineReason::Long));
    }
    if is_blank(line) {
        return Ok(LineKind::Blank);
    }
    if !is_event(line) {
        return Ok(LineKind::Wrong(LineReason::Kind));
    }
    if events >= max {
        return Ok(LineKind::Wrong(LineReason::Events));
    }
    read_event(alloc, line)
}
