//! The program's room, and the book that is opened in it.
ghost use Rattle.std.specs.Prelude.{◌≡◌, IfOk};
ghost use Rattle.console.specs.Answering.{Ready, Opened};

use crate::room::Room;
use answers::Answer;
use book::{Book, BookRoom, record_width};
use lines::Policy;
use row_table::RowTable;
use scales::Plain;
use std::alloc::{AllocError, Global};

/// The most runs that the program's book keeps.
const LIMIT: usize = 64;

/// The bytes of the widest record.
const WIDEST: usize = 289;

/// One answer for the policy and one for each byte of the longest input.
const MOST_ANSWERS: usize = 65_537;

impl Room {
    /// Makes the room, and does nothing else.
    pub fn new(heap: Global) -> Result<Room, AllocError>
        ensures { IfOk result Ready }
    {
        let memory = vec![in heap; 0; LIMIT * WIDEST]?;
        let book = BookRoom::new(heap)?;
        let answers = Vec::with_capacity(heap, MOST_ANSWERS)?;
        Ok(Room {
            memory,
            book,
            answers,
        })
    }

    /// A book of the policy with no runs yet, and the room for the answers.
    pub(crate) fn open(self, policy: Policy) -> (Book<Plain, RowTable>, Vec<Answer>)
        ensures book { Opened policy result.0.policy result.0.store }
        ensures answers { result.1 ≡ self.answers }
    {
        let Room {
            mut memory,
            book,
            answers,
        } = self;
        let width = record_width(&policy);
        memory.truncate(LIMIT * width);
        // the memory is just what that many records take, and the table is empty and as wide as the policy asks
        let Ok(table) = RowTable::new(memory, width) else {
            unreachable!()
        };
        let Ok(book) = Book::open_in(book, policy, Plain, table) else {
            unreachable!()
        };
        (book, answers)
    }
}
