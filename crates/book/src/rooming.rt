//! Room for a book, and opening one in room that was made before its policy was known.
ghost use Rattle.std.specs.Prelude.{◌≡◌, ◌≤◌, [], length, IfOk, None, MatchResult, vec_len};
ghost use Rattle.lines.specs.Policies.{lines_of};
ghost use Rattle.book.specs.Books.{Keeps, opening_refusal};
ghost use Rattle.book.specs.Opened.{OnlyRefuses};
ghost use Rattle.book.specs.Rooms.{Fits};

use crate::book::{Book, Room};
use crate::opening::{OpenFault, Unopened, check_opening, record_width};
use lines::Policy;
use scales::Scale;
use std::alloc::{AllocError, Global};
use stores::Store;

/// The most atoms, and the most lines, that a policy has.
const MOST_ATOMS: usize = 32;

const MOST_LINES: usize = 128;

/// Makes room for so many atoms and lines, and does nothing else.
pub(crate) fn make_room(heap: Global, atoms: usize, lines: usize) -> Result<Room, AllocError>
    requires { (atoms ≤ 32) × (lines ≤ 128) }
    ensures { IfOk result (λ x. Fits x atoms lines) }
{
    let rec = vec![in heap; 0; 1 + atoms + 2 * lines]?;
    let previous = vec![in heap; 0; lines]?;
    let row = vec![in heap; 0; lines]?;
    Ok(Room { rec, previous, row })
}

/// Room for the book of any policy.
#[derive(Drop)]
pub struct BookRoom {
    pub(crate) room: Room,
    ghost fits: { Fits room 32 128 },
}

impl BookRoom {
    /// Makes the room, and does nothing else.
    pub fn new(heap: Global) -> Result<BookRoom, AllocError>
        ensures { IfOk result (λ b. vec_len b.room.rec ≡ 289) }
    {
        let room = make_room(heap, MOST_ATOMS, MOST_LINES)?;
        Ok(BookRoom { room })
    }

    /// As much of the room as the policy asks for, where no row of the table refuses its book on the store.
    fn cut_for<S: Store>(self, policy: &Policy, store: &S) -> Result<Room, OpenFault>
        ensures { MatchResult result
            (λ r. (opening_refusal policy.now (S.Store.meaning store.now) ≡ None) × Fits r policy.now.atoms (length (lines_of policy.now)))
            (λ fault. OnlyRefuses fault (opening_refusal policy.now (S.Store.meaning store.now))) }
    {
        check_opening(policy, store)?;
        let BookRoom { room } = self;
        let Room {
            mut rec,
            mut previous,
            mut row,
        } = room;
        let lines = policy.lines().len();
        rec.truncate(record_width(policy));
        previous.truncate(lines);
        row.truncate(lines);
        Ok(Room { rec, previous, row })
    }
}

impl<K: Scale, S: Store> Book<K, S> {
    /// A book on an empty store of the policy's width. Nothing is allocated.
    ///
    /// Refuses where `check_opening` does; then scale and store come back as they were.
    pub fn open_in(
        room: BookRoom,
        policy: Policy,
        scale: K,
        store: S,
    ) -> Result<Book<K, S>, Unopened<K, S>>
        ensures value { MatchResult result
            (λ b. (opening_refusal policy (S.Store.meaning store) ≡ None) × (b.policy ≡ policy) × (b.scale ≡ scale) × (b.store ≡ store) × Keeps K.Scale.algebra policy (S.Store.meaning store) [])
            (λ e. OnlyRefuses e.fault (opening_refusal policy (S.Store.meaning store)) × (e.scale ≡ scale) × (e.store ≡ store)) }
    {
        let room = room.cut_for(&policy, &store);
        Book::of_parts(room, policy, scale, store)
    }
}
