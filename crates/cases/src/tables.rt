//! Cases of row stores.
use crate::printer::Printer;
use crate::words::Words;
use anyhow::anyhow;
use refusals::Refusal;
use row_table::RowTable;
use std::fmt;
use std::io::Write;
use stores::{Store, StoreFault};
use stretch_store::StretchTable;

/// A store that is made in memory handed over, and whose memory can be looked at.
pub trait InMemory: Store {
    fn make(memory: Vec<u8>, width: usize) -> Result<Self, StoreFault>;

    fn bytes(&self) -> &[u8];
}

impl InMemory for RowTable {
    fn make(memory: Vec<u8>, width: usize) -> Result<RowTable, StoreFault> {
        RowTable::new(memory, width).map_err(|(fault, _memory)| fault)
    }

    fn bytes(&self) -> &[u8] {
        self.memory()
    }
}

impl InMemory for StretchTable {
    fn make(memory: Vec<u8>, width: usize) -> Result<StretchTable, StoreFault> {
        StretchTable::new(memory, width).map_err(|(fault, _memory)| fault)
    }

    fn bytes(&self) -> &[u8] {
        self.memory()
    }
}

/// Prints low, high and every byte of the memory.
// Here and in `print_read` no `Display`: the bytes are written part by part, and a record is read into room of the heap.
pub(crate) fn print_table<W: Write + Drop, T: InMemory>(
    to: &mut Printer<W>,
    table: &T,
) -> anyhow::Result<()> {
    let low = table.low();
    let high = table.high();
    write!(to.out, " low {low} high {high} memory ")?;
    to.print_hex(table.bytes())?;
    writeln!(to.out, "")?;
    Ok(())
}

/// What a call answers that gives nothing back, as it is printed.
#[derive(Clone, Copy)]
struct Done(Result<(), StoreFault>);

impl fmt::Display for Done {
    fn fmt<W: fmt::Write>(&self, f: &mut fmt::Formatter<W>) -> fmt::Result {
        match self.0 {
            Ok(()) => write!(f, "done"),
            Err(fault) => write!(f, "{}", Refusal::from(fault)),
        }
    }
}

/// Reads a run into a room of `len` bytes, and prints the record.
fn print_read<W: Write + Drop, T: InMemory>(
    to: &mut Printer<W>,
    table: &T,
    run: u32,
    len: usize,
) -> anyhow::Result<()> {
    let mut room = vec![in to.heap; 170; len]?;
    match table.read(run, &mut room) {
        Ok(()) => to.print_hex(room.as_slice())?,
        Err(fault) => write!(to.out, "{}", Refusal::from(fault))?,
    }
    Ok(())
}

/// Performs one call, and prints its answer.
fn run_call<W: Write + Drop, T: InMemory>(
    to: &mut Printer<W>,
    table: &mut T,
    call: &str,
) -> anyhow::Result<()> {
    let mut words = Words::new(call);
    let done = match words.next() {
        "read" => {
            let run = words.number()?;
            let len = words.number()?;
            return print_read(to, table, run, len);
        }
        "write" => table.write(words.number()?, words.bytes(to.heap)?.as_slice()),
        "append" => table.append(words.bytes(to.heap)?.as_slice()),
        "forget" => table.forget(words.number()?),
        _ => return Err(anyhow!("no call")),
    };
    write!(to.out, "{}", Done(done))?;
    Ok(())
}

/// Makes a table in memory that is not zero, performs the calls, and prints the memory after each.
fn run_calls<W: Write + Drop, T: InMemory + Drop>(
    to: &mut Printer<W>,
    width: usize,
    size: usize,
    line: &str,
) -> anyhow::Result<()> {
    let mut table = match T::make(vec![in to.heap; 255; size]?, width) {
        Ok(table) => table,
        Err(fault) => {
            writeln!(to.out, "{}", Refusal::from(fault))?;
            return Ok(());
        }
    };
    let limit = table.limit();
    write!(to.out, "limit {limit}")?;
    print_table(to, &table)?;
    for call in line.split(';').skip(1) {
        run_call(to, &mut table, call)?;
        print_table(to, &table)?;
    }
    Ok(())
}

/// Runs a case: the kind of table, the width and the size of its memory, then the calls.
pub(crate) fn run<W: Write + Drop>(
    to: &mut Printer<W>,
    mut words: Words<'_>,
    line: &str,
) -> anyhow::Result<()> {
    let kind = words.next();
    let width = words.number()?;
    let size = words.number()?;
    match kind {
        "row" => run_calls::<W, RowTable>(to, width, size, line),
        "stretch" => run_calls::<W, StretchTable>(to, width, size, line),
        _ => Err(anyhow!("no table")),
    }
}
