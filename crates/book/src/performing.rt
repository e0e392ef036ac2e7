//! A book's calls by value, one at a time and in lists.
ghost use Rattle.std.specs.Prelude.{◌≡◌, ◌+◌, ◌≤◌, List, [], ◌++◌, map, length, IfOk, None, vec_len, vec_capacity, MatchResult};
ghost use Rattle.clearness.specs.Clearness.{ClearerCalls, ClearerAnswers};
ghost use Rattle.stores.specs.Meaning.{Meaning};
ghost use Rattle.meaning.specs.Calls.{Asked, asked};
ghost use Rattle.book.specs.Books.{Every, opening_refusal, answer, then, answers, after};
ghost use Rattle.book.specs.Opened.{Refuses};

use crate::book::Book;
use crate::opening::{OpenFault, Unopened};
use lines::Policy;
use meaning::{Answer, BookFault, Call};
use scales::Scale;
use std::alloc::Global;
use stores::Store;

impl<K: Scale, S: Store> Book<K, S> {
    /// Performs one call: the step that `perform` is made of.
    pub fn answer(&mut self, call: Call<'_>) -> Result<Answer, BookFault>
        ensures value { Every K.Scale.algebra self.old.policy (S.Store.meaning self.old.store) (λ h. result ≡ answer K.Scale.algebra self.old.policy (S.Store.meaning self.old.store) h (asked call.entry)) }
        ensures after { Every K.Scale.algebra self.old.policy (S.Store.meaning self.old.store) (λ h. S.Store.meaning self.new.store ≡ then K.Scale.algebra self.old.policy (S.Store.meaning self.old.store) h (asked call.entry)) }
        ensures same { (self.new.policy ≡ self.old.policy) × (self.new.scale ≡ self.old.scale) × (S.Store.size self.new.store ≡ S.Store.size self.old.store) }
    {
        match call {
            Call::Start(codes) => self.start(codes).map(Answer::Started),
            Call::Report(run, codes) => self
                .report(run, codes)
                .map(|(count, truth)| Answer::Changed(count, truth)),
            Call::Preview(run, codes) => self.preview(run, codes).map(Answer::Would),
            Call::Close(run) => self.close(run).map(Answer::Closed),
            Call::Verdict => self.verdict().map(Answer::Verdict),
            Call::Truth(run, line) => self.truth(run, line).map(Answer::Truth),
        }
    }
}

/// Performs the calls one by one, each building on the last; the answers go to `out`, which has room for them.
fn answer_each<K: Scale, S: Store>(
    book: &mut Book<K, S>,
    calls: &[Call<'_>],
    out: &mut Vec<Result<Answer, BookFault>>,
)
    requires { vec_len out.old + length calls.now ≤ vec_capacity out.old }
    ensures value { Every K.Scale.algebra book.old.policy (S.Store.meaning book.old.store) (λ h. out.new.items ≡ out.old.items ++ answers K.Scale.algebra book.old.policy (S.Store.meaning book.old.store) h (map asked calls.now)) }
    ensures after { Every K.Scale.algebra book.old.policy (S.Store.meaning book.old.store) (λ h. S.Store.meaning book.new.store ≡ after K.Scale.algebra book.old.policy (S.Store.meaning book.old.store) h (map asked calls.now)) }
    ensures same { (book.new.policy ≡ book.old.policy) × (book.new.scale ≡ book.old.scale) × (S.Store.size book.new.store ≡ S.Store.size book.old.store) }
{
    for call in calls {
        let a = book.answer(*call);
        out.push_reserved(a);
    }
}

/// What a list of calls gives: the answers, one a call, and the scale and the store as they stand then.
#[derive(Drop)]
pub struct Performed<K, S> {
    pub answers: Vec<Result<Answer, BookFault>>,
    pub scale: K,
    pub store: S,
}

/// Opens a book on an empty store and performs a list of calls, from the opening to the end.
///
/// Refuses where the opening does. Room for all answers is made before the first call, so no call is performed and
/// then lost; where there is none, scale and store come back as they were.
///
/// Another book of the same policy, scale and limit, whatever its store, that performs the same calls with clearer
/// codes gives clearer answers (`clearer`, `elsewhere`): it accepts and refuses alike, and a yes or no stays.
pub fn perform<K: Scale, S: Store>(
    heap: Global,
    policy: Policy,
    scale: K,
    store: S,
    calls: &[Call<'_>],
) -> Result<Performed<K, S>, Unopened<K, S>>
    ensures value { MatchResult result
        (λ p. (opening_refusal policy (S.Store.meaning store) ≡ None) × (p.answers.items ≡ answers K.Scale.algebra policy (S.Store.meaning store) [] (map asked calls.now)))
        (λ e. Refuses e.fault (opening_refusal policy (S.Store.meaning store))) }
    ensures after { MatchResult result
        (λ p. (S.Store.meaning p.store ≡ after K.Scale.algebra policy (S.Store.meaning store) [] (map asked calls.now)) × (p.scale ≡ scale) × (S.Store.size p.store ≡ S.Store.size store))
        (λ e. (e.scale ≡ scale) × (e.store ≡ store)) }
    ensures clearer { IfOk result (λ p. (ds : List Asked) → ClearerCalls K.Scale.algebra (map asked calls.now) ds →
        ClearerAnswers K.Scale.algebra p.answers.items (answers K.Scale.algebra policy (S.Store.meaning store) [] ds)) }
    ensures elsewhere { IfOk result (λ p. (other : Meaning) (ds : List Asked) → other.limit ≡ (S.Store.meaning store).limit → ClearerCalls K.Scale.algebra (map asked calls.now) ds →
        ClearerAnswers K.Scale.algebra p.answers.items (answers K.Scale.algebra policy other [] ds)) }
{
    let mut book = Book::open(heap, policy, scale, store)?;
    let Ok(mut answers) = Vec::with_capacity(heap, calls.len()) else {
        let (scale, store) = book.into_parts();
        // The book is open by now, so its parts come back from it.
        let fault = OpenFault::NoMemory;
        return Err(Unopened {
            fault,
            scale,
            store,
        });
    };
    answer_each(&mut book, calls, &mut answers);
    let (scale, store) = book.into_parts();
    Ok(Performed {
        answers,
        scale,
        store,
    })
}
