//! The texts of all calls, by their places.

ghost use Rattle.std.specs.Prelude.{◌≡◌, ℕ, ◌<◌, All, [], ◌∷◌, length, map, replicate, set, slice_get, Some, IfOk};
ghost use Rattle.vrx_live.specs.inside.Placed.{blank, placed, told};

use crate::pieces::Piece;
use std::alloc::Global;
use std::marker::Model;
use vrx_num::NoMemory;

/// The lines of a reply, and the number of the line of its event.
#[derive(Debug, Drop)]
pub struct Text {
    k: u32,
    octets: Vec<u8>,
}

/// The texts of the replies of a journal, in the order of its places.
///
/// Contracts see them as a list of pairs: the number of the line of an event, and the text of the reply.
#[derive(Debug, Drop)]
pub struct Printed {
    texts: Vec<Text>,
}

impl Model for Printed {
    ghost use Rattle.std.specs.Prelude.{List, ℕ, map};
    ghost use Rattle.vrx_live.specs.inside.Placed.{told};

    ghost Value = { List (ℕ × List ℕ) };

    ghost view = { λ a. map told a.texts.items };
}

/// So many texts without an octet.
fn blanks(alloc: Global, count: usize) -> Result<Vec<Text>, NoMemory>
    ensures { IfOk result (λ texts. map told texts.items ≡ replicate count blank) }
{
    let mut texts = Vec::new(alloc);
    for _ in 0..count {
        texts.push(Text {
            k: 0,
            octets: Vec::new(alloc),
        })?;
    }
    Ok(texts)
}

/// Puts a text at its place.
fn put(texts: &mut Vec<Text>, place: u64, text: Text)
    requires within { place < length texts.old.items }
    ensures { texts.new.items ≡ set texts.old.items place text }
{
    texts[place as usize] = text;
}

/// Puts each text at its place.
fn put_all(texts: &mut Vec<Text>, mut pieces: Vec<Piece>)
    requires within { All (λ piece. piece.place < length texts.old.items) pieces.items }
    ensures texts { map told texts.new.items ≡ placed pieces.items (map told texts.old.items) }
    ensures len { length texts.new.items ≡ length texts.old.items }
{
    'pieces: while let Some(piece) = pieces.pop() {
        let Piece { place, k, text } = piece;
        put(texts, place, Text { k, octets: text });
    }
}

impl Printed {
    /// The texts of three workers, which have all places between them.
    pub(crate) fn of(
        alloc: Global,
        count: usize,
        datagrams: Vec<Piece>,
        ticks: Vec<Piece>,
        pulls: Vec<Piece>,
    ) -> Result<Printed, NoMemory>
        requires datagrams { All (λ piece. piece.place < count) datagrams.items }
        requires ticks { All (λ piece. piece.place < count) ticks.items }
        requires pulls { All (λ piece. piece.place < count) pulls.items }
        ensures { IfOk result (λ printed.
            printed ≡ placed pulls.items (placed ticks.items (placed datagrams.items (replicate count blank)))) }
    {
        let mut texts = blanks(alloc, count)?;
        put_all(&mut texts, datagrams);
        put_all(&mut texts, ticks);
        put_all(&mut texts, pulls);
        Ok(Printed { texts })
    }

    /// The text at a place, which lies below the length of the journal. It takes no memory.
    pub fn text(&self, place: u64) -> &[u8]
        requires within { place < length self.now }
        ensures text { (k : ℕ) × (slice_get self.now place ≡ Some (k, result.now)) }
    {
        let text = &self.texts[place as usize];
        text.octets.as_slice()
    }

    /// How many texts there are.
    pub fn len(&self) -> u64
        ensures { result ≡ length self.now }
    {
        self.texts.len() as u64
    }
}
