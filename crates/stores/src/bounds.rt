//! The numbers of a store, as a type.

/// What a store's four questions answer: how many bytes a record has, how many records find place, the oldest run
/// held and the newest. A store that holds nothing has low 1 and high 0.
#[derive(Clone, Copy)]
pub struct Bounds {
    pub width: usize,
    pub limit: usize,
    pub low: u32,
    pub high: u32,
}
