//! The lines of a transcript.

ghost use Rattle.std.specs.Prelude.{◌≡◌, ◌++◌, codes, IfErr, IfOk, OnOk, OnErr};
ghost use Rattle.std.specs.Fmt.{decimal};
ghost use Rattle.hex.specs.Hex.{encode_lower};
ghost use Rattle.vrx_core.specs.machine.Machine.{ToDatagram, ToTick, ToPull};
ghost use Rattle.vrx_text.specs.Keeps.{Keeps};
ghost use Rattle.vrx_text.specs.Transcript.{reason_text, kind_text, line_feed, what_text, repaired_line, repaired_text, nack_text, pli_text, feedback_text, frame_text, handled_text, tick_text, pulled_text, text_of, line_reason_text, error_reason_text, error_line};

use crate::pieces::{push_digits, push_number, push_octets};
use std::alloc::Global;
use vrx_capture::LineReason;
use vrx_core::{Frame, Handled, Pulled, Reason, What};
use vrx_num::NoMemory;
use vrx_rtcp::Feedback;

/// Why a capture is read no further than to a line.
#[derive(Clone, Copy, Debug, PartialEq, Eq)]
pub enum ErrorReason {
    /// It is the first line, and it is absent, too long, no settings line, or its settings are refused.
    Settings,
    /// It is bad for this reason.
    Line(LineReason),
}

/// Whether a frame is a keyframe, in a word.
fn kind_text(key: bool) -> &'static str
    ensures { result.now ≡ kind_text key }
{
    if key { "key" } else { "delta" }
}

/// Puts the number of a line and a word last.
#[tactic(auto, using(crate::proofs::KeepsLemmas::keeps_on))]
fn push_head(text: &mut Vec<u8>, k: u32, word: &str) -> Result<(), NoMemory>
    ensures ok { OnOk result (text.new.items ≡ text.old.items ++ decimal k ++ word.now) }
    ensures kept { Keeps text.old.items text.new.items }
{
    push_number(text, u64::from(k))?;
    push_octets(text, word.as_bytes())
}

/// Puts a number and a line feed last.
#[tactic(auto, using(crate::proofs::KeepsLemmas::keeps_on))]
fn push_last_number(text: &mut Vec<u8>, n: u64) -> Result<(), NoMemory>
    ensures ok { OnOk result (text.new.items ≡ text.old.items ++ decimal n ++ line_feed) }
    ensures kept { Keeps text.old.items text.new.items }
{
    push_number(text, n)?;
    push_octets(text, b"\n")
}

/// Puts octets and a line feed last, the octets in hexadecimal digits.
#[tactic(auto, using(crate::proofs::KeepsLemmas::keeps_on))]
fn push_last_digits(text: &mut Vec<u8>, octets: &[u8]) -> Result<(), NoMemory>
    ensures ok { OnOk result (text.new.items ≡ text.old.items ++ encode_lower octets.now ++ line_feed) }
    ensures kept { Keeps text.old.items text.new.items }
{
    push_digits(text, octets)?;
    push_octets(text, b"\n")
}

/// Puts a line last: a word, and a number.
#[tactic(auto, using(crate::proofs::KeepsLemmas::keeps_on))]
fn push_numbered(text: &mut Vec<u8>, k: u32, word: &str, n: u64) -> Result<(), NoMemory>
    ensures ok { OnOk result (text.new.items ≡ text.old.items ++ decimal k ++ word.now ++ decimal n ++ line_feed) }
    ensures kept { Keeps text.old.items text.new.items }
{
    push_head(text, k, word)?;
    push_last_number(text, n)
}

/// Puts a line last: a word, and octets in hexadecimal digits.
#[tactic(auto, using(crate::proofs::KeepsLemmas::keeps_on))]
fn push_octet_line(text: &mut Vec<u8>, k: u32, word: &str, octets: &[u8]) -> Result<(), NoMemory>
    ensures ok { OnOk result (text.new.items ≡ text.old.items ++ decimal k ++ word.now ++ encode_lower octets.now ++ line_feed) }
    ensures kept { Keeps text.old.items text.new.items }
{
    push_head(text, k, word)?;
    push_last_digits(text, octets)
}

/// Puts the line of a datagram last that was refused, with the reason's word.
#[tactic(auto, using(crate::proofs::KeepsLemmas::keeps_on))]
fn push_drop(text: &mut Vec<u8>, k: u32, word: &str) -> Result<(), NoMemory>
    ensures ok { OnOk result (text.new.items ≡ text.old.items ++ decimal k ++ codes " drop " ++ word.now ++ line_feed) }
    ensures kept { Keeps text.old.items text.new.items }
{
    push_head(text, k, " drop ")?;
    push_octets(text, word.as_bytes())?;
    push_octets(text, b"\n")
}

/// The word for a reason, if it is a word only.
fn reason_word(reason: Reason) -> Result<&'static str, u8>
    ensures word { IfOk result (λ word. word.now ≡ reason_text reason) }
    ensures code { IfErr result (λ code. reason ≡ Reason.BadPart code) }
{
    match reason {
        Reason::TooLong => Ok("TooLong"),
        Reason::BadRtcp => Ok("BadRtcp"),
        Reason::NotRtp => Ok("NotRtp"),
        Reason::BadHeader => Ok("BadHeader"),
        Reason::OtherSsrc => Ok("OtherSsrc"),
        Reason::OtherType => Ok("OtherType"),
        Reason::NoApt => Ok("NoApt"),
        Reason::RtxEmpty => Ok("RtxEmpty"),
        Reason::MoreBlocks => Ok("MoreBlocks"),
        Reason::BadRed => Ok("BadRed"),
        Reason::BadFec => Ok("BadFec"),
        Reason::BadPart { code } => Err(code),
        Reason::TooFar => Ok("TooFar"),
        Reason::TooOld => Ok("TooOld"),
        Reason::Dead => Ok("Dead"),
        Reason::Repeat => Ok("Repeat"),
    }
}

/// Puts the line of a datagram last that was refused, for this reason.
#[tactic(auto, using(crate::proofs::KeepsLemmas::keeps_on))]
fn push_dropped(text: &mut Vec<u8>, k: u32, reason: Reason) -> Result<(), NoMemory>
    ensures ok { OnOk result (text.new.items ≡ text.old.items ++ decimal k ++ codes " drop " ++ reason_text reason ++ line_feed) }
    ensures kept { Keeps text.old.items text.new.items }
{
    match reason_word(reason) {
        Ok(word) => push_drop(text, k, word),
        Err(code) => push_numbered(text, k, " drop BadPart ", u64::from(code)),
    }
}

/// Puts the line last that says what became of a datagram.
#[tactic(auto, using(crate::proofs::KeepsLemmas::keeps_on))]
fn push_what(text: &mut Vec<u8>, k: u32, what: What) -> Result<(), NoMemory>
    ensures ok { OnOk result (text.new.items ≡ text.old.items ++ what_text k what) }
    ensures kept { Keeps text.old.items text.new.items }
{
    match what {
        What::Media(n) => push_numbered(text, k, " media ", n),
        What::Fec(n) => push_numbered(text, k, " fec ", n),
        What::Empty(n) => push_numbered(text, k, " empty ", n),
        What::Rtcp => push_head(text, k, " rtcp\n"),
        What::Dropped(reason) => push_dropped(text, k, reason),
    }
}

/// Puts the line of each repaired number last.
#[tactic(auto, using(crate::proofs::KeepsLemmas::keeps_on))]
fn push_repaired(text: &mut Vec<u8>, k: u32, numbers: &[u64]) -> Result<(), NoMemory>
    ensures ok { OnOk result (text.new.items ≡ text.old.items ++ repaired_text k numbers.now) }
    ensures kept { Keeps text.old.items text.new.items }
{
    for n in numbers {
        push_numbered(text, k, " repaired ", *n)?;
    }
    Ok(())
}

/// Puts the line of the NACK last, if there is one.
#[tactic(auto, using(crate::proofs::KeepsLemmas::keeps_on))]
fn push_nack(text: &mut Vec<u8>, k: u32, feedback: &Feedback) -> Result<(), NoMemory>
    ensures ok { OnOk result (text.new.items ≡ text.old.items ++ nack_text k feedback.now.nack) }
    ensures kept { Keeps text.old.items text.new.items }
{
    match &feedback.nack {
        Some(nack) => push_octet_line(text, k, " nack ", nack.as_slice()),
        None => Ok(()),
    }
}

/// Puts the line of the PLI last, if there is one.
#[tactic(auto, using(crate::proofs::KeepsLemmas::keeps_on))]
fn push_pli(text: &mut Vec<u8>, k: u32, feedback: &Feedback) -> Result<(), NoMemory>
    ensures ok { OnOk result (text.new.items ≡ text.old.items ++ pli_text k feedback.now.pli) }
    ensures kept { Keeps text.old.items text.new.items }
{
    match &feedback.pli {
        Some(pli) => push_octet_line(text, k, " pli ", pli),
        None => Ok(()),
    }
}

/// Puts the lines of the feedback last.
#[tactic(auto, using(crate::proofs::KeepsLemmas::keeps_on))]
fn push_feedback(text: &mut Vec<u8>, k: u32, feedback: &Feedback) -> Result<(), NoMemory>
    ensures ok { OnOk result (text.new.items ≡ text.old.items ++ feedback_text k feedback.now) }
    ensures kept { Keeps text.old.items text.new.items }
{
    push_nack(text, k, feedback)?;
    push_pli(text, k, feedback)
}

/// Puts the first words of a frame's line last: its first and its last number.
#[tactic(auto, using(crate::proofs::KeepsLemmas::keeps_on))]
fn push_frame_head(text: &mut Vec<u8>, k: u32, first: u64, last: u64) -> Result<(), NoMemory>
    ensures ok { OnOk result (text.new.items ≡ text.old.items ++ decimal k ++ codes " frame " ++ decimal first ++ codes " " ++ decimal last ++ codes " ") }
    ensures kept { Keeps text.old.items text.new.items }
{
    push_head(text, k, " frame ")?;
    push_number(text, first)?;
    push_octets(text, b" ")?;
    push_number(text, last)?;
    push_octets(text, b" ")
}

/// Puts the next words of a frame's line last: its kind and its timestamp.
#[tactic(auto, using(crate::proofs::KeepsLemmas::keeps_on))]
fn push_frame_kind(text: &mut Vec<u8>, key: bool, ts: u32) -> Result<(), NoMemory>
    ensures ok { OnOk result (text.new.items ≡ text.old.items ++ kind_text key ++ codes " " ++ decimal ts ++ codes " ") }
    ensures kept { Keeps text.old.items text.new.items }
{
    push_octets(text, kind_text(key).as_bytes())?;
    push_octets(text, b" ")?;
    push_number(text, u64::from(ts))?;
    push_octets(text, b" ")
}

/// Puts a frame's line last.
#[tactic(auto, using(crate::proofs::KeepsLemmas::keeps_on))]
fn push_frame(text: &mut Vec<u8>, k: u32, frame: &Frame) -> Result<(), NoMemory>
    ensures ok { OnOk result (text.new.items ≡ text.old.items ++ decimal k ++ codes " frame " ++ frame_text frame.now ++ line_feed) }
    ensures kept { Keeps text.old.items text.new.items }
{
    push_frame_head(text, k, frame.first, frame.last)?;
    push_frame_kind(text, frame.key, frame.ts)?;
    push_last_digits(text, frame.bytes.as_slice())
}

/// Puts the lines of a reply to a datagram last.
#[tactic(auto, using(crate::proofs::KeepsLemmas::keeps_on))]
fn push_handled(text: &mut Vec<u8>, k: u32, reply: &Handled) -> Result<(), NoMemory>
    ensures ok { OnOk result (text.new.items ≡ text.old.items ++ handled_text k reply.now) }
    ensures kept { Keeps text.old.items text.new.items }
{
    push_what(text, k, reply.what)?;
    push_repaired(text, k, reply.repaired.as_slice())?;
    push_feedback(text, k, &reply.feedback)
}

/// Puts the lines of a reply to a tick last.
#[tactic(auto, using(crate::proofs::KeepsLemmas::keeps_on))]
fn push_tick(text: &mut Vec<u8>, k: u32, feedback: &Feedback) -> Result<(), NoMemory>
    ensures ok { OnOk result (text.new.items ≡ text.old.items ++ tick_text k feedback.now) }
    ensures kept { Keeps text.old.items text.new.items }
{
    push_head(text, k, " tick\n")?;
    push_feedback(text, k, feedback)
}

/// Puts the line of a reply to a pull last.
#[tactic(auto, using(crate::proofs::KeepsLemmas::keeps_on))]
fn push_pulled(text: &mut Vec<u8>, k: u32, reply: &Pulled) -> Result<(), NoMemory>
    ensures ok { OnOk result (text.new.items ≡ text.old.items ++ pulled_text k reply.now) }
    ensures kept { Keeps text.old.items text.new.items }
{
    match reply {
        Pulled::NotReady => push_head(text, k, " notready\n"),
        Pulled::Frame(frame) => push_frame(text, k, frame),
    }
}

/// Puts the lines of the reply to the datagram of line `k` after a text: what became of it, each packet that it
/// repaired, in order, and the feedback, first the NACK and then the PLI.
///
/// It fails only if it is out of memory, and then the text is what it was.
#[tactic(auto, using(crate::proofs::KeepsLemmas::keeps_cut), unfolding(crate::specs::Transcript::text_of))]
pub fn write_handled(text: &mut Vec<u8>, k: u32, reply: &Handled) -> Result<(), NoMemory>
    ensures ok { OnOk result (text.new.items ≡ text.old.items ++ text_of k (ToDatagram reply.now)) }
    ensures err { OnErr result (text.new.items ≡ text.old.items) }
{
    let len = text.len();
    match push_handled(text, k, reply) {
        Ok(()) => Ok(()),
        Err(NoMemory) => {
            text.truncate(len);
            Err(NoMemory)
        }
    }
}

/// What [`write_handled`] writes, in memory of its own. It fails only if it is out of memory.
pub fn text_of_handled(alloc: Global, k: u32, reply: &Handled) -> Result<Vec<u8>, NoMemory>
    ensures text { IfOk result (λ text. text.items ≡ text_of k (ToDatagram reply.now)) }
{
    let mut text = Vec::new(alloc);
    write_handled(&mut text, k, reply)?;
    Ok(text)
}

/// Puts the lines of the reply to the tick of line `k` after a text: that it was one, and the feedback, first the NACK
/// and then the PLI.
///
/// It fails only if it is out of memory, and then the text is what it was.
#[tactic(auto, using(crate::proofs::KeepsLemmas::keeps_cut), unfolding(crate::specs::Transcript::text_of))]
pub fn write_tick(text: &mut Vec<u8>, k: u32, feedback: &Feedback) -> Result<(), NoMemory>
    ensures ok { OnOk result (text.new.items ≡ text.old.items ++ text_of k (ToTick feedback.now)) }
    ensures err { OnErr result (text.new.items ≡ text.old.items) }
{
    let len = text.len();
    match push_tick(text, k, feedback) {
        Ok(()) => Ok(()),
        Err(NoMemory) => {
            text.truncate(len);
            Err(NoMemory)
        }
    }
}

/// What [`write_tick`] writes, in memory of its own. It fails only if it is out of memory.
pub fn text_of_tick(alloc: Global, k: u32, feedback: &Feedback) -> Result<Vec<u8>, NoMemory>
    ensures text { IfOk result (λ text. text.items ≡ text_of k (ToTick feedback.now)) }
{
    let mut text = Vec::new(alloc);
    write_tick(&mut text, k, feedback)?;
    Ok(text)
}

/// Puts the line of the reply to the pull of line `k` after a text.
///
/// It fails only if it is out of memory, and then the text is what it was.
#[tactic(auto, using(crate::proofs::KeepsLemmas::keeps_cut), unfolding(crate::specs::Transcript::text_of))]
pub fn write_pulled(text: &mut Vec<u8>, k: u32, reply: &Pulled) -> Result<(), NoMemory>
    ensures ok { OnOk result (text.new.items ≡ text.old.items ++ text_of k (ToPull reply.now)) }
    ensures err { OnErr result (text.new.items ≡ text.old.items) }
{
    let len = text.len();
    match push_pulled(text, k, reply) {
        Ok(()) => Ok(()),
        Err(NoMemory) => {
            text.truncate(len);
            Err(NoMemory)
        }
    }
}

/// What [`write_pulled`] writes, in memory of its own. It fails only if it is out of memory.
pub fn text_of_pulled(alloc: Global, k: u32, reply: &Pulled) -> Result<Vec<u8>, NoMemory>
    ensures text { IfOk result (λ text. text.items ≡ text_of k (ToPull reply.now)) }
{
    let mut text = Vec::new(alloc);
    write_pulled(&mut text, k, reply)?;
    Ok(text)
}

/// The word for why a line is bad.
fn line_reason_text(reason: LineReason) -> &'static str
    ensures { result.now ≡ line_reason_text reason }
{
    match reason {
        LineReason::Lines => "lines",
        LineReason::Long => "long",
        LineReason::Kind => "kind",
        LineReason::Events => "events",
        LineReason::Moment => "moment",
        LineReason::End => "end",
        LineReason::Hex => "hex",
    }
}

/// The word for why a capture is read no further.
fn error_reason_text(reason: ErrorReason) -> &'static str
    ensures { result.now ≡ error_reason_text reason }
{
    match reason {
        ErrorReason::Settings => "settings",
        ErrorReason::Line(reason) => line_reason_text(reason),
    }
}

/// The last line of a transcript, if line `k` is bad for this reason. It fails only if it is out of memory.
#[tactic(auto, unfolding(crate::specs::Transcript::error_line))]
pub fn text_of_error(alloc: Global, k: u32, reason: ErrorReason) -> Result<Vec<u8>, NoMemory>
    ensures text { IfOk result (λ text. text.items ≡ error_line k reason) }
{
    let word = error_reason_text(reason);
    Ok(format!(in alloc; "error line {k} {word}\n")?.into_bytes())
}
