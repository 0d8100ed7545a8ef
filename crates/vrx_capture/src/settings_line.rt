//! What the settings line of a capture says, the first line:
//!
//! ```text
//! vrx 1 codec=C ssrc=H pt=N[ red=N[ fec=N]][ rtxssrc=H rtx=N[ rtxred=N]] from=H[ interval=N]
//! ```
//!
//! C is `vp8` or `h264`, H eight lower-case hexadecimal digits, and N one to five decimal digits without a leading
//! zero, at most 255 for a payload type. What stands in brackets may be absent. [`read_settings`] reads it.

ghost use Rattle.std.specs.Prelude.{◌≡◌, codes};
ghost use Rattle.std.specs.List.{list_any};
ghost use Rattle.std.specs.Option.{option_map};
ghost use Rattle.vrx_capture.specs.SettingsLine.{is_upper, ssrc_in, codec_in, type_in, interval_in, field, field_if, group_if, red_in, rtx_in, last_interval, settings_in};

use crate::words::{after_prefix, from_space, number_in, until_space};
use hex::FromHex;
use vrx_core::{Red, Rtx, Settings};

/// The interval of requests if the settings line reports none, in milliseconds.
const USUAL_INTERVAL: u32 = 100;

/// The codec that a settings line names.
#[derive(Clone, Copy, Debug, PartialEq, Eq)]
pub enum CodecName {
    /// VP8 (RFC 7741), `vp8`.
    Vp8,
    /// H.264 (RFC 6184), `h264`.
    H264,
}

/// Whether some octet is an upper-case letter.
fn has_upper(digits: &[u8]) -> bool
    ensures { result ≡ list_any is_upper digits.now }
{
    digits.iter().any(|octet| octet.is_ascii_uppercase())
}

/// The SSRC that eight lower-case hexadecimal digits spell.
#[tactic(auto, unfolding(crate::specs::SettingsLine::ssrc_in))]
fn ssrc_in(digits: &[u8]) -> Option<u32>
    ensures { result ≡ ssrc_in digits.now }
{
    if has_upper(digits) {
        return None;
    }
    match <[u8; 4] as FromHex>::from_hex(digits) {
        Ok(octets) => Some(u32::from_be_bytes(octets)),
        Err(_) => None,
    }
}

/// The codec of a name.
#[tactic(auto, unfolding(crate::specs::SettingsLine::codec_in))]
fn codec_in(name: &[u8]) -> Option<CodecName>
    ensures { result ≡ codec_in name.now }
{
    if name == b"vp8".as_slice() {
        Some(CodecName::Vp8)
    } else if name == b"h264".as_slice() {
        Some(CodecName::H264)
    } else {
        None
    }
}

/// The payload type that decimal digits spell.
#[tactic(auto, unfolding(crate::specs::SettingsLine::type_in))]
fn type_in(digits: &[u8]) -> Option<u8>
    ensures { result ≡ type_in digits.now }
{
    match number_in(255, digits) {
        Some(number) => Some(number as u8),
        None => None,
    }
}

/// The interval of requests that decimal digits spell, in milliseconds.
#[tactic(auto, unfolding(crate::specs::SettingsLine::interval_in))]
fn interval_in(digits: &[u8]) -> Option<u32>
    ensures { result ≡ interval_in digits.now }
{
    match number_in(99_999, digits) {
        Some(number) => Some(number as u32),
        None => None,
    }
}

/// The codec of a field with this name, and what stands after the field.
#[tactic(auto, unfolding(crate::specs::SettingsLine::field))]
fn codec_field<'a>(name: &[u8], text: &'a [u8]) -> Option<(CodecName, &'a [u8])>
    ensures { option_map (λ x. (x.0, x.1.now)) result ≡ field name.now codec_in text.now }
{
    let told = after_prefix(name, text)?;
    let codec = codec_in(until_space(told))?;
    Some((codec, from_space(told)))
}

/// The SSRC of a field with this name, and what stands after the field.
#[tactic(auto, unfolding(crate::specs::SettingsLine::field))]
fn ssrc_field<'a>(name: &[u8], text: &'a [u8]) -> Option<(u32, &'a [u8])>
    ensures { option_map (λ x. (x.0, x.1.now)) result ≡ field name.now ssrc_in text.now }
{
    let told = after_prefix(name, text)?;
    let ssrc = ssrc_in(until_space(told))?;
    Some((ssrc, from_space(told)))
}

/// The payload type of a field with this name, and what stands after the field.
#[tactic(auto, unfolding(crate::specs::SettingsLine::field))]
fn type_field<'a>(name: &[u8], text: &'a [u8]) -> Option<(u8, &'a [u8])>
    ensures { option_map (λ x. (x.0, x.1.now)) result ≡ field name.now type_in text.now }
{
    let told = after_prefix(name, text)?;
    let payload_type = type_in(until_space(told))?;
    Some((payload_type, from_space(told)))
}

/// The interval of a field with this name, and what stands after the field.
#[tactic(auto, unfolding(crate::specs::SettingsLine::field))]
fn interval_field<'a>(name: &[u8], text: &'a [u8]) -> Option<(u32, &'a [u8])>
    ensures { option_map (λ x. (x.0, x.1.now)) result ≡ field name.now interval_in text.now }
{
    let told = after_prefix(name, text)?;
    let interval = interval_in(until_space(told))?;
    Some((interval, from_space(told)))
}

/// The payload type of a field with this name, if the text begins with it, and what stands after it.
#[tactic(auto, unfolding(crate::specs::SettingsLine::group_if))]
fn type_field_if<'a>(name: &[u8], text: &'a [u8]) -> Option<(Option<u8>, &'a [u8])>
    ensures { option_map (λ x. (x.0, x.1.now)) result ≡ field_if name.now type_in text.now }
{
    if after_prefix(name, text).is_none() {
        return Some((None, text));
    }
    let (payload_type, rest) = type_field(name, text)?;
    Some((Some(payload_type), rest))
}

/// The interval of a field with this name, if the text begins with it, and what stands after it.
#[tactic(auto, unfolding(crate::specs::SettingsLine::group_if))]
fn interval_field_if<'a>(name: &[u8], text: &'a [u8]) -> Option<(Option<u32>, &'a [u8])>
    ensures { option_map (λ x. (x.0, x.1.now)) result ≡ field_if name.now interval_in text.now }
{
    if after_prefix(name, text).is_none() {
        return Some((None, text));
    }
    let (interval, rest) = interval_field(name, text)?;
    Some((Some(interval), rest))
}

/// The payload types of RED, and what stands after them.
#[tactic(auto, unfolding(crate::specs::SettingsLine::red_in))]
fn red_in(text: &[u8]) -> Option<(Red, &[u8])>
    ensures { option_map (λ x. (x.0, x.1.now)) result ≡ red_in text.now }
{
    let (red_type, rest) = type_field(b" red=", text)?;
    let (fec_type, rest) = type_field_if(b" fec=", rest)?;
    Some((Red { red_type, fec_type }, rest))
}

/// The payload types of RED, if the text begins with them, and what stands after them.
#[tactic(auto, unfolding(crate::specs::SettingsLine::group_if))]
fn red_if(text: &[u8]) -> Option<(Option<Red>, &[u8])>
    ensures { option_map (λ x. (x.0, x.1.now)) result ≡ group_if (codes " red=") red_in text.now }
{
    if after_prefix(b" red=", text).is_none() {
        return Some((None, text));
    }
    let (red, rest) = red_in(text)?;
    Some((Some(red), rest))
}

/// The stream of retransmissions, and what stands after it.
#[tactic(auto, unfolding(crate::specs::SettingsLine::rtx_in))]
fn rtx_in(text: &[u8]) -> Option<(Rtx, &[u8])>
    ensures { option_map (λ x. (x.0, x.1.now)) result ≡ rtx_in text.now }
{
    let (ssrc, rest) = ssrc_field(b" rtxssrc=", text)?;
    let (media_rtx_type, rest) = type_field(b" rtx=", rest)?;
    let (red_rtx_type, rest) = type_field_if(b" rtxred=", rest)?;
    let rtx = Rtx {
        ssrc,
        media_rtx_type,
        red_rtx_type,
    };
    Some((rtx, rest))
}

/// The stream of retransmissions, if the text begins with it, and what stands after it.
#[tactic(auto, unfolding(crate::specs::SettingsLine::group_if))]
fn rtx_if(text: &[u8]) -> Option<(Option<Rtx>, &[u8])>
    ensures { option_map (λ x. (x.0, x.1.now)) result ≡ group_if (codes " rtxssrc=") rtx_in text.now }
{
    if after_prefix(b" rtxssrc=", text).is_none() {
        return Some((None, text));
    }
    let (rtx, rest) = rtx_in(text)?;
    Some((Some(rtx), rest))
}

/// The interval that ends the line, or the usual one if the line ends without.
#[tactic(auto, unfolding(crate::specs::SettingsLine::last_interval))]
fn last_interval(text: &[u8]) -> Option<u32>
    ensures { result ≡ last_interval text.now }
{
    let (interval, rest) = interval_field_if(b" interval=", text)?;
    if rest.is_empty() {
        Some(interval.unwrap_or(USUAL_INTERVAL))
    } else {
        None
    }
}

/// The codec and the settings that the settings line reports, the first line of a capture: `None` if the line isn't
/// one. An interval that is absent is 100 milliseconds. It takes no memory.
///
/// Settings that read may still be refused by `vrx_core::Engine::new`, as those with a payload type of 64 are.
#[tactic(auto, unfolding(crate::specs::SettingsLine::settings_in))]
pub fn read_settings(line: &[u8]) -> Option<(CodecName, Settings)>
    ensures settings { result ≡ settings_in line.now }
{
    let (codec, rest) = codec_field(b"vrx 1 codec=", line)?;
    let (media_ssrc, rest) = ssrc_field(b" ssrc=", rest)?;
    let (media_type, rest) = type_field(b" pt=", rest)?;
    let (red, rest) = red_if(rest)?;
    let (rtx, rest) = rtx_if(rest)?;
    let (from_ssrc, rest) = ssrc_field(b" from=", rest)?;
    let interval = last_interval(rest)?;
    let settings = Settings {
        media_ssrc,
        media_type,
        red,
        rtx,
        from_ssrc,
        interval,
    };
    Some((codec, settings))
}
