//! What holds of the grammar of the settings line itself.

ghost use Rattle.std.specs.Prelude.{◌≡◌, ℕ, ◌↔◌, List, Some};
ghost use Rattle.vrx_core.specs.declared.settings.Settings.{Settings};
ghost use Rattle.vrx_capture.specs.SettingsLine.{settings_in};
ghost use Rattle.vrx_capture.specs.IsSettingsLine.{IsSettingsLine};
ghost use Rattle.vrx_capture.specs.declared.settings_line.CodecName.{CodecName};

/// What the grammar of the settings line means: a line reports a codec and settings exactly if it is spelled so. The
/// function does nothing.
pub fn settings_lines_mean()
    ensures spelled { (line : List ℕ) (codec : CodecName) (settings : Settings) →
        ((settings_in line ≡ Some (codec, settings)) ↔ IsSettingsLine line codec settings) }
{}
