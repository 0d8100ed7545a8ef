//! What holds of the definitions themselves. The functions do nothing: their clauses are laws, for callers' proofs.

ghost use Rattle.std.specs.Prelude.{◌≡◌, ℕ, ◌≤◌, List, length, Option};
ghost use Rattle.std.specs.Option.{option_map};
ghost use Rattle.vrx_num.specs.declared.limits.TheConstants.{WINDOW};
ghost use Rattle.vrx_codec.specs.Meaning.{Meaning};
ghost use Rattle.vrx_window.specs.Content.{Content, content_of, contents_of};
ghost use Rattle.vrx_window.specs.IsWindow.{IsWithin};
ghost use Rattle.vrx_window.specs.Sound.{AreSound, IsSound};
ghost use Rattle.vrx_window.specs.Window.{Contents, at, after_giving_up, nothing, after_placing, would_of};
ghost use Rattle.vrx_window.specs.WindowMeans.{GivenUpMeans, PlacedMeans, WouldMeans};
ghost use Rattle.vrx_window.specs.declared.held.Held.{Held};

/// What the window's definitions mean, number by number, whatever is held. A packet placed under a number is held
/// under it; each other number in the new window stays as it was; what the window left is gone. A number given up is
/// given up, and all else stays. Each answer of `would` comes exactly if its sentence says so.
pub fn window_means<X>()
    ensures placed { (n : ℕ) (held : X) (window : Contents X) → PlacedMeans n held window (after_placing n held window) }
    ensures given_up { (n : ℕ) (window : Contents X) → GivenUpMeans n window (after_giving_up n window) }
    ensures would { (window : Contents X) (n : ℕ) → WouldMeans window n }
{}

/// A window of packets, seen by their contents, changes as the window does: nothing to begin with, a packet placed, a
/// number given up. Under a number stands the content of what is held there, and the same becomes of each number.
pub fn contents_are()
    ensures nothing { contents_of nothing ≡ nothing }
    ensures placed { (n : ℕ) (held : Held) (window : Contents Held) → contents_of (after_placing n held window) ≡ after_placing n (content_of held) (contents_of window) }
    ensures given_up { (n : ℕ) (window : Contents Held) → contents_of (after_giving_up n window) ≡ after_giving_up n (contents_of window) }
    ensures at { (n : ℕ) (window : Contents Held) → at n (contents_of window).packets ≡ option_map content_of (at n window.packets) }
    ensures would { (window : Contents Held) (n : ℕ) → would_of (contents_of window) n ≡ would_of window n }
{}

/// If each packet held is sound, and so is the one that is placed, each packet held afterwards is. A number given up
/// changes no packet.
pub fn sound_stays()
    ensures placed { (codec : Meaning) (n : ℕ) (held : Held) (window : Contents Held) → AreSound codec window.packets → IsSound codec held → AreSound codec (after_placing n held window).packets }
    ensures given_up { (codec : Meaning) (n : ℕ) (window : Contents Held) → AreSound codec window.packets → AreSound codec (after_giving_up n window).packets }
{}

/// A map of contents in the order of its numbers, all of them in one window, has at most as many entries as the window
/// has numbers.
pub fn contents_are_few()
    ensures few { (newest : Option ℕ) (entries : List (ℕ × Content)) → IsWithin newest entries → length entries ≤ WINDOW }
{}
