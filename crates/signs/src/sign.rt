//! What a policy text is made of.

/// A sign with one spelling.
#[derive(Clone, Copy, PartialEq, Eq, Debug)]
pub enum Mark {
    Open,
    Close,
    Not,
    And,
    Or,
    Arrow,
    Comma,
    Semicolon,
    Stop,
    YL,
    SL,
    OL,
    HL,
    YG,
    SG,
    OG,
    HG,
    Atoms,
    Rule,
    True,
    False,
}

/// A sign (a token): a mark, a name as a part of the text, or the end of the text.
#[derive(Clone, Copy, PartialEq, Eq, Debug)]
pub enum Sign<'a> {
    Mark(Mark),
    Name(&'a [u8]),
    End,
}

/// A sign, its first byte's place and the place behind it.
#[derive(Clone, Copy, PartialEq, Eq, Debug)]
pub struct Placed<'a> {
    pub sign: Sign<'a>,
    pub from: usize,
    pub to: usize,
}

/// Why no sign can be read, with the place of the byte at fault.
#[derive(Clone, Copy, PartialEq, Eq, Debug)]
pub enum SignFault {
    /// The text has over 8,192 bytes.
    TooLong,
    /// No sign begins here.
    NoSign(usize),
    /// A name of over 16 bytes begins here.
    LongName(usize),
}
