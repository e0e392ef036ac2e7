//! The number, layer and place of a book's faults.
ghost use Rattle.std.specs.Prelude.{◌≡◌};
ghost use Rattle.meaning.specs.declared.fault.BookFault.TheVariants.{Store as of_store};
ghost use Rattle.meaning.specs.Refusals.{refusal_of};

use crate::fault::BookFault;
use refusals::{Layer, Refusal};
use stores::StoreFault;

impl From<StoreFault> for BookFault {
    ghost from_gives = { λ f r. r ≡ of_store f };

    fn from(f: StoreFault) -> BookFault {
        BookFault::Store(f)
    }
}

/// The row of the refusal table that a fault is, with its place; a store's fault keeps its own.
impl From<BookFault> for Refusal {
    ghost from_gives = { λ f r. r ≡ refusal_of f };

    fn from(f: BookFault) -> Refusal {
        let (number, place) = match f {
            BookFault::Width(width) => (10, width),
            BookFault::Holding(high) => (11, high as usize),
            BookFault::Count(count) => (20, count),
            BookFault::Code(index) => (21, index),
            BookFault::NoRun(run) => (22, run as usize),
            BookFault::Closed(run) => (23, run as usize),
            BookFault::NoRuns => (26, 0),
            BookFault::Gone(run) => (27, run as usize),
            BookFault::NoLine(line) => (28, line as usize),
            BookFault::Store(fault) => return Refusal::from(fault),
        };
        Refusal {
            number,
            layer: Layer::Book,
            place,
        }
    }
}
