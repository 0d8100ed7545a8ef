//! What holds of the definitions themselves. The functions do nothing: their clauses are the laws.

ghost use Rattle.vrx_frames.specs.IsRun.{RunsApart, RunsAre, RunsRise};

/// A run is among the runs exactly if it meets their conditions.
pub fn runs_are()
    ensures { RunsAre }
{}

/// Among packets in the order of their numbers the runs rise by their first numbers.
pub fn runs_rise()
    ensures { RunsRise }
{}

/// Two runs with a common number are one.
pub fn runs_apart()
    ensures { RunsApart }
{}
