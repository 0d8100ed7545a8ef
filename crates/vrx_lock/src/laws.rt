//! What the definitions come to. A law runs nothing: its clause is what it is for.

ghost use Rattle.vrx_lock.specs.Journal.{RepliesHold};

/// The machine's replies to the events of a journal, one after the other, are at each place the reply to the event
/// there, after the events of the entries before. So a journal's replies are those that its offers got.
pub fn journal_replies()
    ensures replies { RepliesHold }
{}
