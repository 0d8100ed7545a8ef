//! The words that the program knows.

ghost use Rattle.std.specs.Prelude.{◌≡◌, ◌↔◌, [], ◌∷◌, map, IsTrue, MatchOption};
ghost use Rattle.std.specs.String.{string_bytes};
ghost use Rattle.vrx_program.specs.Words.{IsWord};

/// What the program does with a capture.
#[derive(Clone, Copy, Debug, PartialEq, Eq)]
pub enum Word {
    /// `replay`: it writes what the receiver replies to each event.
    Replay,
    /// `inspect`: it writes what each datagram is.
    Inspect,
}

/// Whether the words are only this one.
pub(crate) fn is_alone(words: &[String], text: &str) -> bool
    ensures { IsTrue result ↔ (map string_bytes words.now ≡ text.now ∷ []) }
{
    match words {
        [word] => word.as_str() == text,
        _ => false,
    }
}

/// The word that these words are, if the program knows them.
pub(crate) fn word_of(words: &[String]) -> Option<Word>
    ensures word { MatchOption result
        ((word : Word) → ¬ IsWord word (map string_bytes words.now))
        (λ word. IsWord word (map string_bytes words.now)) }
{
    if is_alone(words, "replay") {
        Some(Word::Replay)
    } else if is_alone(words, "inspect") {
        Some(Word::Inspect)
    } else {
        None
    }
}
