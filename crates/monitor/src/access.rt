//! Reading and writing a run that the store holds. A run that it does not hold leaves all as it was.
ghost use Rattle.std.specs.Prelude.{◌≡◌, length};
ghost use Rattle.meaning.specs.Walking.{Reads, Writes};

use stores::Store;

pub fn fetch<S: Store>(store: &S, run: u32, rec: &mut [u8])
    ensures { Reads (S.Store.meaning store.now) (length rec.old) run rec.new }
{
    // A refusal is let go, as it leaves `rec` alone; to match on it would say no more.
    let _ = store.read(run, rec);
}

pub fn keep<S: Store>(store: &mut S, run: u32, rec: &[u8])
    ensures after { Writes (S.Store.meaning store.old) (S.Store.meaning store.new) (length rec.now) run rec.now }
    ensures same { S.Store.size store.new ≡ S.Store.size store.old }
{
    // A refusal is let go here too, as it leaves the store alone.
    let _ = store.write(run, rec);
}
