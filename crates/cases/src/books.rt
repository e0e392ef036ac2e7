//! Cases of books: each call alone, with the store's memory after it, and then the whole list at once.
use crate::printer::Printer;
use crate::steps::{Answered, parse_calls, parse_codes};
use crate::tables::{InMemory, print_table};
use crate::words::Words;
use anyhow::anyhow;
use book::{Book, perform, record_width};
use lines::Policy;
use meaning::Call;
use row_table::RowTable;
use scales::{Open, Plain, Scale};
use std::alloc::Global;
use std::io::Write;
use stores::Store;
use stretch_store::StretchTable;

/// A policy's text, as a policy.
fn policy_of(text: &[u8]) -> anyhow::Result<Policy> {
    text::read(text)
        .map(|reading| reading.policy)
        .map_err(|_| anyhow!("no policy"))
}

/// An empty table of the width that the policy's records have.
fn table_for<T: InMemory>(heap: Global, policy: &Policy, size: usize) -> anyhow::Result<T> {
    T::make(vec![in heap; 255; size]?, record_width(policy)).map_err(|_| anyhow!("no table"))
}

/// Performs the calls one by one, and prints the memory after each.
fn run_steps<W: Write + Drop, K: Scale + Drop, T: InMemory + Drop>(
    to: &mut Printer<W>,
    mut book: Book<K, T>,
    calls: &[Call<'_>],
) -> anyhow::Result<()> {
    for call in calls {
        write!(to.out, "{}", Answered(book.answer(*call)))?;
        print_table(to, book.store())?;
    }
    Ok(())
}

/// Performs the calls as one list on another table, and prints all answers and the memory at the end.
fn run_list<W: Write + Drop, K: Scale + Drop, T: InMemory + Drop>(
    to: &mut Printer<W>,
    policy: Policy,
    scale: K,
    table: T,
    calls: &[Call<'_>],
) -> anyhow::Result<()> {
    let Ok(performed) = perform(to.heap, policy, scale, table, calls) else {
        return Err(anyhow!("no book"));
    };
    for answer in performed.answers.as_slice() {
        write!(to.out, "{}, ", Answered(*answer))?;
    }
    print_table(to, &performed.store)
}

/// Opens a book and performs the calls, one by one and as a list.
fn run_book<W: Write + Drop, K: Scale + Copy, T: InMemory + Drop>(
    to: &mut Printer<W>,
    policy: Policy,
    scale: K,
    size: usize,
    line: &str,
) -> anyhow::Result<()> {
    let codes = parse_codes(to.heap, line)?;
    let calls = parse_calls(to.heap, line, codes.as_slice())?;
    let table = table_for::<T>(to.heap, &policy, size)?;
    let Ok(book) = Book::open(to.heap, policy, scale, table) else {
        return Err(anyhow!("no book"));
    };
    run_steps(to, book, calls.as_slice())?;
    let table = table_for::<T>(to.heap, &policy, size)?;
    run_list(to, policy, scale, table, calls.as_slice())
}

/// Runs a case: the scale, the kind of table, the size of its memory and the policy's text, then the calls.
pub(crate) fn run<W: Write + Drop>(
    to: &mut Printer<W>,
    mut words: Words<'_>,
    line: &str,
) -> anyhow::Result<()> {
    let scale = words.next();
    let kind = words.next();
    let size = words.number()?;
    let text = words.bytes(to.heap)?;
    let policy = policy_of(text.as_slice())?;
    // each pair is a type of its own, so no value can stand for the choice
    match (scale, kind) {
        ("plain", "row") => run_book::<W, Plain, RowTable>(to, policy, Plain, size, line),
        ("open", "row") => run_book::<W, Open, RowTable>(to, policy, Open, size, line),
        ("plain", "stretch") => {
            run_book::<W, Plain, StretchTable>(to, policy, Plain, size, line)
        }
        ("open", "stretch") => { run_book::<W, Open, StretchTable>(to, policy, Open, size, line) }
        _ => Err(anyhow!("no book")),
    }
}
