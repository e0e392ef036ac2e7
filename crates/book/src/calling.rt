//! The calls of a book.
ghost use Rattle.std.specs.Prelude.{◌≡◌, IfOk};
ghost use Rattle.lines.specs.Policies.{lines_of};
ghost use Rattle.meaning.specs.Reaching.{Reach, StoreReach};
ghost use Rattle.meaning.specs.Calls.{ask_start, ask_report, ask_close};
ghost use Rattle.book.specs.Books.{Every, started, reported, previewed, closed, verdict_given, truth_given, then};

use crate::book::Book;
use lines::Policy;
use meaning::BookFault;
use monitor::Rules;
use scales::Scale;
use stores::Store;

fn rules_of<'a, K>(scale: &'a K, policy: &'a Policy) -> Rules<'a, K>
    ensures { (result.scale.now ≡ scale.now) × (result.table.now ≡ lines_of policy.now) × (result.atoms ≡ policy.now.atoms) }
{
    Rules {
        scale,
        table: policy.lines(),
        atoms: policy.atoms(),
    }
}

impl<K: Scale, S: Store> Book<K, S> {
    /// Starts a run with its first state; the run's number.
    ///
    /// Refuses by 20, 21, and by what the store finds, 25, 24, in this order; then nothing has changed.
    pub fn start(&mut self, codes: &[u8]) -> Result<u32, BookFault>
        ensures value { Every K.Scale.algebra self.old.policy (S.Store.meaning self.old.store) (λ h. result ≡ started K.Scale.algebra self.old.policy (S.Store.meaning self.old.store) h codes.now) }
        ensures after { Every K.Scale.algebra self.old.policy (S.Store.meaning self.old.store) (λ h. S.Store.meaning self.new.store ≡ then K.Scale.algebra self.old.policy (S.Store.meaning self.old.store) h (ask_start codes.now)) }
        ensures same { (self.new.policy ≡ self.old.policy) × (self.new.scale ≡ self.old.scale) × (S.Store.size self.new.store ≡ S.Store.size self.old.store) }
    {
        monitor::start(
            rules_of(&self.scale, &self.policy),
            &mut self.store,
            &mut self.room.rec,
            &mut self.room.previous,
            &mut self.room.row,
            codes,
        )
    }

    /// Gives a run its next state; the reach of the report, and the rule's truth at the newest run after it.
    ///
    /// Refuses by 22, 23, 20, 21, in this order; then nothing has changed.
    pub fn report(&mut self, run: u32, codes: &[u8]) -> Result<(u32, u8), BookFault>
        ensures value { Every K.Scale.algebra self.old.policy (S.Store.meaning self.old.store) (λ h. result ≡ reported K.Scale.algebra self.old.policy (S.Store.meaning self.old.store) h run codes.now) }
        ensures after { Every K.Scale.algebra self.old.policy (S.Store.meaning self.old.store) (λ h. S.Store.meaning self.new.store ≡ then K.Scale.algebra self.old.policy (S.Store.meaning self.old.store) h (ask_report run codes.now)) }
        ensures reach { Every K.Scale.algebra self.old.policy (S.Store.meaning self.old.store) (λ h. IfOk result (λ p. Reach K.Scale.algebra (lines_of self.old.policy) h run codes.now p.0 × StoreReach (S.Store.meaning self.old.store) (S.Store.meaning self.new.store) run p.0)) }
        ensures same { (self.new.policy ≡ self.old.policy) × (self.new.scale ≡ self.old.scale) × (S.Store.size self.new.store ≡ S.Store.size self.old.store) }
    {
        monitor::report(
            rules_of(&self.scale, &self.policy),
            &mut self.store,
            &mut self.room.rec,
            &mut self.room.previous,
            &mut self.room.row,
            run,
            codes,
        )
    }

    /// The verdict that the report would give. Nothing changes.
    ///
    /// Refuses as the report does.
    pub fn preview(&mut self, run: u32, codes: &[u8]) -> Result<u8, BookFault>
        ensures value { Every K.Scale.algebra self.old.policy (S.Store.meaning self.old.store) (λ h. result ≡ previewed K.Scale.algebra self.old.policy (S.Store.meaning self.old.store) h run codes.now) }
        ensures same { (self.new.policy ≡ self.old.policy) × (self.new.scale ≡ self.old.scale) × (self.new.store ≡ self.old.store) }
    {
        monitor::preview(
            rules_of(&self.scale, &self.policy),
            &self.store,
            &mut self.room.rec,
            &mut self.room.previous,
            &mut self.room.row,
            run,
            codes,
        )
    }

    /// Closes a run; how many runs are gone with it.
    ///
    /// Refuses by 22, 23, in this order; then nothing has changed.
    pub fn close(&mut self, run: u32) -> Result<u32, BookFault>
        ensures value { Every K.Scale.algebra self.old.policy (S.Store.meaning self.old.store) (λ h. result ≡ closed K.Scale.algebra self.old.policy (S.Store.meaning self.old.store) h run) }
        ensures after { Every K.Scale.algebra self.old.policy (S.Store.meaning self.old.store) (λ h. S.Store.meaning self.new.store ≡ then K.Scale.algebra self.old.policy (S.Store.meaning self.old.store) h (ask_close run)) }
        ensures same { (self.new.policy ≡ self.old.policy) × (self.new.scale ≡ self.old.scale) × (S.Store.size self.new.store ≡ S.Store.size self.old.store) }
    {
        monitor::close(&mut self.store, &mut self.room.rec, run)
    }

    /// The rule's truth at the newest run. Nothing changes.
    ///
    /// Refuses by 26.
    pub fn verdict(&mut self) -> Result<u8, BookFault>
        ensures value { Every K.Scale.algebra self.old.policy (S.Store.meaning self.old.store) (λ h. result ≡ verdict_given K.Scale.algebra self.old.policy (S.Store.meaning self.old.store) h) }
        ensures same { (self.new.policy ≡ self.old.policy) × (self.new.scale ≡ self.old.scale) × (self.new.store ≡ self.old.store) }
    {
        let atoms = self.policy.atoms();
        let lines = self.policy.lines().len();
        monitor::verdict(atoms, lines, &self.store, &mut self.room.rec)
    }

    /// The truth of a line at a run. Nothing changes.
    ///
    /// Refuses by 22, 27, 28, in this order.
    pub fn truth(&mut self, run: u32, line: u16) -> Result<u8, BookFault>
        ensures value { Every K.Scale.algebra self.old.policy (S.Store.meaning self.old.store) (λ h. result ≡ truth_given K.Scale.algebra self.old.policy (S.Store.meaning self.old.store) h run line) }
        ensures same { (self.new.policy ≡ self.old.policy) × (self.new.scale ≡ self.old.scale) × (self.new.store ≡ self.old.store) }
    {
        let atoms = self.policy.atoms();
        let lines = self.policy.lines().len();
        monitor::truth(atoms, lines, &self.store, &mut self.room.rec, run, line)
    }
}
