//! A store's calls by value, one at a time and in lists.
ghost use Rattle.std.specs.Prelude.{◌≡◌, true, map, Decides};
ghost use Rattle.store_calls.specs.Calls.{asked, setting, answered, after_call, after_calls, answers};

use crate::call::{StoreAnswer, StoreCall};
use stores::{Store, StoreFault};

/// Performs a call; what it reads goes to `room`.
pub fn perform<S: Store>(
    store: &mut S,
    call: StoreCall<'_>,
    room: &mut [u8],
) -> Result<StoreAnswer, StoreFault>
    ensures value { result ≡ answered (setting (S.Store.meaning store.old) room.old) (asked call.entry) }
    ensures after { setting (S.Store.meaning store.new) room.new ≡ after_call (setting (S.Store.meaning store.old) room.old) (asked call.entry) }
    ensures same { S.Store.size store.new ≡ S.Store.size store.old }
{
    match call {
        StoreCall::Width => Ok(StoreAnswer::Number(store.width())),
        StoreCall::Limit => Ok(StoreAnswer::Number(store.limit())),
        StoreCall::Low => Ok(StoreAnswer::Number(store.low() as usize)),
        StoreCall::High => Ok(StoreAnswer::Number(store.high() as usize)),
        StoreCall::Read(run) => store.read(run, room).map(|()| StoreAnswer::Done),
        StoreCall::Write(run, rec) => store.write(run, rec).map(|()| StoreAnswer::Done),
        StoreCall::Append(rec) => store.append(rec).map(|()| StoreAnswer::Done),
        StoreCall::Forget(run) => store.forget(run).map(|()| StoreAnswer::Done),
    }
}

/// Performs the calls on both stores, each with a room of its own; whether all answers, and the rooms after each, were alike.
///
/// Two stores of equal meaning answer every list of calls alike, and have equal meanings afterwards.
pub fn agree<S: Store, T: Store>(
    one: &mut S,
    other: &mut T,
    calls: &[StoreCall<'_>],
    a: &mut [u8],
    b: &mut [u8],
) -> bool
    ensures value { Decides result (answers (setting (S.Store.meaning one.old) a.old) (map asked calls.now) ≡ answers (setting (T.Store.meaning other.old) b.old) (map asked calls.now)) }
    ensures after { (setting (S.Store.meaning one.new) a.new ≡ after_calls (setting (S.Store.meaning one.old) a.old) (map asked calls.now)) × (setting (T.Store.meaning other.new) b.new ≡ after_calls (setting (T.Store.meaning other.old) b.old) (map asked calls.now)) }
    ensures alike { S.Store.meaning one.old ≡ T.Store.meaning other.old → a.old ≡ b.old → (result ≡ true) × (S.Store.meaning one.new ≡ T.Store.meaning other.new) × (a.new ≡ b.new) }
    ensures same { (S.Store.size one.new ≡ S.Store.size one.old) × (T.Store.size other.new ≡ T.Store.size other.old) }
{
    let mut alike = true;
    for call in calls {
        let x = perform(one, *call, a);
        let y = perform(other, *call, b);
        alike &= (x, &*a) == (y, &*b);
    }
    alike
}
