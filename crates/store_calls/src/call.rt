//! The calls of a store, and its answers, as values.
/// A call of a store. What is read goes to a room that is handed over beside it.
#[derive(Clone, Copy)]
pub enum StoreCall<'a> {
    Width,
    Limit,
    Low,
    High,
    Read(u32),
    Write(u32, &'a [u8]),
    Append(&'a [u8]),
    Forget(u32),
}

/// What a store answers to a call that it does not refuse.
#[derive(Clone, Copy, PartialEq, Eq, Debug)]
pub enum StoreAnswer {
    Number(usize),
    Done,
}
