//! What a seat of the shelf knows. Such values exist in proofs alone.
use floor_words::ListOf;

/// One step that a seat made on the owner word of a place.
#[derive(Clone, Copy)]
pub enum Deed {
    /// It looked at the word, and found this.
    Looked { place: u32, found: u64 },
    /// It tried to take the place against the word that it had seen, and found this.
    Tried { place: u32, seen: u64, found: u64 },
    /// It put the traveller of the place back, and stored this.
    Stored { place: u32, word: u64 },
}

/// What a seat knows: its steps, oldest first, and the place whose traveller is out with it.
#[derive(Drop)]
pub struct View {
    pub deeds: ListOf<Deed>,
    pub out: Option<u32>,
}
