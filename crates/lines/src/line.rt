//! What a line of a policy's table is, and the operations of the text that lines stand for.

/// An operation that stands before its one part (a unary operator). Signs with L look back over the
/// states of one run, signs with G over the runs before: Y yesterday, O once, H historically.
#[derive(Clone, Copy)]
pub enum Prefix {
    Not,
    YL,
    OL,
    HL,
    YG,
    OG,
    HG,
}

/// An operation that stands between its two parts (a binary operator). S is since.
#[derive(Clone, Copy)]
pub enum Infix {
    SL,
    SG,
    And,
    Or,
    Implies,
}

/// One entry of a policy's table (a subformula): an atom by its number, a constant, or an operation
/// on lines above it by their numbers.
#[derive(Clone, Copy)]
pub enum Line {
    Atom(u8),
    No,
    Yes,
    Not(u16),
    Or(u16, u16),
    YL(u16),
    SL(u16, u16),
    YG(u16),
    SG(u16, u16),
}
