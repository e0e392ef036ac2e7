//! The type of a refusal, without its printed form.

/// The part of the system in which a refusal arises.
#[derive(Clone, Copy, PartialEq, Eq, Debug)]
pub enum Layer {
    Signs = 1,
    Grammar = 2,
    Lines = 3,
    Book = 4,
    Store = 5,
    Program = 6,
}

/// Why an input is refused: a row of the refusal table (`number`), the layer that found it, and where.
#[derive(Clone, Copy, PartialEq, Eq, Debug)]
pub struct Refusal {
    // The row of the table as it is printed; which kinds of fault there are is said by each layer's own enum.
    pub number: u8,
    pub layer: Layer,
    pub place: usize,
}
