//! Room for all that the program does, made before its input is looked at.
ghost use Rattle.std.specs.Prelude.{◌≡◌, ◌≤◌, [], vec_len, vec_capacity};

use answers::Answer;
use book::BookRoom;

/// Room for a table of 64 records of any width, for a book, and for the answers to any input.
///
/// Invariant: it is as large as that.
#[derive(Drop)]
pub struct Room {
    pub(crate) memory: Vec<u8>,
    pub(crate) book: BookRoom,
    pub(crate) answers: Vec<Answer>,
    ghost records: { vec_len memory ≡ 18496 },
    ghost none: { answers.items ≡ [] },
    ghost empty: { vec_len answers ≡ 0 },
    ghost many: { 65537 ≤ vec_capacity answers },
}
