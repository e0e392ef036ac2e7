//! Opening a book, and handing its store back.
ghost use Rattle.std.specs.Prelude.{◌≡◌, ◌+◌, ◌*◌, [], length, IfOk, Ok, Err, None, MatchResult};
ghost use Rattle.lines.specs.Policies.{lines_of};
ghost use Rattle.meaning.specs.Calls.{unless};
ghost use Rattle.book.specs.Books.{Keeps, opening_refusal};
ghost use Rattle.book.specs.declared.opening.OpenFault.TheVariants.{Refused as of_book, NoMemory as no_memory};
ghost use Rattle.book.specs.Opened.{Refuses};
ghost use Rattle.book.specs.Rooms.{Fits};

use crate::book::{Book, Room};
use crate::rooming::make_room;
use lines::Policy;
use meaning::BookFault;
use scales::Scale;
use std::alloc::{AllocError, Global};
use stores::Store;

/// Why no book was opened.
#[derive(Clone, Copy)]
pub enum OpenFault {
    /// A row of the refusal table.
    Refused(BookFault),
    /// Want of memory.
    NoMemory,
}

impl From<BookFault> for OpenFault {
    ghost from_gives = { λ f r. r ≡ of_book f };

    fn from(f: BookFault) -> OpenFault {
        OpenFault::Refused(f)
    }
}

impl From<AllocError> for OpenFault {
    ghost from_gives = { λ _ r. r ≡ no_memory };

    fn from(_f: AllocError) -> OpenFault {
        OpenFault::NoMemory
    }
}

/// What comes back where no book was opened: the scale and the store as they were handed over.
#[derive(Drop)]
pub struct Unopened<K, S> {
    pub fault: OpenFault,
    pub scale: K,
    pub store: S,
}

/// How many bytes the record of a run has.
pub fn record_width(policy: &Policy) -> usize
    ensures { result ≡ 1 + policy.now.atoms + 2 * length (lines_of policy.now) }
{
    1 + policy.atoms() + 2 * policy.lines().len()
}

/// Whether a book of this policy can be opened on the store.
///
/// Refuses by 10, 11, in this order.
pub fn check_opening<S: Store>(policy: &Policy, store: &S) -> Result<(), BookFault>
    ensures value { result ≡ unless (opening_refusal policy.now (S.Store.meaning store.now)) tt }
{
    if store.width() != record_width(policy) {
        return Err(BookFault::Width(store.width()));
    }
    // 0 for no run, as a store answers
    if store.high() != 0 {
        return Err(BookFault::Holding(store.high()));
    }
    Ok(())
}

/// Room for a book of this policy on the store, where none of the table's rows refuses it.
fn room_for<S: Store>(heap: Global, policy: &Policy, store: &S) -> Result<Room, OpenFault>
    ensures { MatchResult result
        (λ r. (opening_refusal policy.now (S.Store.meaning store.now) ≡ None) × Fits r policy.now.atoms (length (lines_of policy.now)))
        (λ fault. Refuses fault (opening_refusal policy.now (S.Store.meaning store.now))) }
{
    check_opening(policy, store)?;
    Ok(make_room(heap, policy.atoms(), policy.lines().len())?)
}

impl<K: Scale, S: Store> Book<K, S> {
    /// The book of these parts, or scale and store handed back with the fault that stands in the room's place.
    pub(crate) fn of_parts(
        room: Result<Room, OpenFault>,
        policy: Policy,
        scale: K,
        store: S,
    ) -> Result<Book<K, S>, Unopened<K, S>>
        requires { IfOk room (λ r. Fits r policy.atoms (length (lines_of policy))) }
        ensures { MatchResult result
            (λ b. (room ≡ Ok b.room) × (b.policy ≡ policy) × (b.scale ≡ scale) × (b.store ≡ store))
            (λ e. (room ≡ Err e.fault) × (e.scale ≡ scale) × (e.store ≡ store)) }
    {
        match room {
            Ok(room) => Ok(Book {
                policy,
                scale,
                store,
                room,
            }),
            Err(fault) => Err(Unopened {
                fault,
                scale,
                store,
            }),
        }
    }

    /// A book on an empty store of the policy's width.
    ///
    /// Refuses where `check_opening` does. Where no book is opened, scale and store come back as they were.
    pub fn open(
        heap: Global,
        policy: Policy,
        scale: K,
        store: S,
    ) -> Result<Book<K, S>, Unopened<K, S>>
        ensures value { MatchResult result
            (λ b. (opening_refusal policy (S.Store.meaning store) ≡ None) × (b.policy ≡ policy) × (b.scale ≡ scale) × (b.store ≡ store) × Keeps K.Scale.algebra policy (S.Store.meaning store) [])
            (λ e. Refuses e.fault (opening_refusal policy (S.Store.meaning store)) × (e.scale ≡ scale) × (e.store ≡ store)) }
    {
        let room = room_for(heap, &policy, &store);
        Book::of_parts(room, policy, scale, store)
    }

    /// The book's policy.
    pub fn policy(&self) -> &Policy
        ensures value { result.now ≡ self.now.policy }
    {
        &self.policy
    }

    /// The book's store, to look at.
    pub fn store(&self) -> &S
        ensures value { result.now ≡ self.now.store }
    {
        &self.store
    }

    /// The scale and the store, handed back as they stand.
    pub fn into_parts(self) -> (K, S)
        ensures value { (result.0 ≡ self.scale) × (result.1 ≡ self.store) }
    {
        let Book {
            policy: _,
            scale,
            store,
            room: _,
        } = self;
        (scale, store)
    }
}
