//! The signs of a policy text (its tokens).
//!
//! `Reader` walks over the text that it was handed and copies nothing; a name stays a part of the text.
//! Its contract equates each sign, its places or the fault with `next_sign` (specs/Signs.antt), and states
//! the law of signs (specs/Stands.antt). Rests on `refusals`.
#![tactic(auto)]

ghost use Rattle.std.specs.Prelude.{◌≡◌, ℕ, ◌<◌, ◌≤◌, Bool, length, IfSome, slice_index};
ghost use Rattle.std.specs.List.{prefix_len};
ghost use Rattle.signs.specs.Signs.{Answers, is_blank, is_name_byte, kind_of, mark_at, word_of, length_answer, found_at, next_sign, told, place_after, refusal_of};
ghost use Rattle.signs.specs.Stands.{Stands};

use refusals::{Layer, Refusal};

mod reader;
mod sign;

pub use reader::Reader;
pub use sign::{Mark, Placed, Sign, SignFault};

/// The most bytes that a text may have.
pub const MOST_BYTES: usize = 8192;

/// The most bytes that a name may have.
const MOST_NAME_BYTES: usize = 16;

/// The fault's row in the refusal table.
impl From<SignFault> for Refusal {
    ghost from_gives = { λ f r. r ≡ refusal_of f };

    fn from(fault: SignFault) -> Refusal {
        let (number, place) = match fault {
            SignFault::TooLong => (1, MOST_BYTES),
            SignFault::NoSign(place) => (2, place),
            SignFault::LongName(place) => (4, place),
        };
        Refusal {
            number,
            layer: Layer::Signs,
            place,
        }
    }
}

/// Refuses a text of over 8,192 bytes: the first thing that is asked of a text.
pub fn check_length(text: &[u8]) -> Result<(), SignFault>
    ensures { result ≡ length_answer text.now }
{
    if text.len() > MOST_BYTES {
        return Err(SignFault::TooLong);
    }
    Ok(())
}

fn blank(b: u8) -> bool
    ensures { result ≡ is_blank b }
{
    matches!(b, 9 | 10 | 13 | 32)
}

fn name_byte(b: u8) -> bool
    ensures { result ≡ is_name_byte b }
{
    matches!(b, b'a'..=b'z' | b'0'..=b'9')
}

/// How many bytes pass the test before the first that does not.
fn leading<F: Fn(u8) -> bool>(bytes: &[u8], passes: F) -> usize
    requires { F.IsAlwaysCallable passes }
    ensures value { (p : ℕ → Bool) → Answers (F.post passes) p → result ≡ prefix_len p bytes.now }
    ensures within { result ≤ length bytes.now }
{
    bytes.iter().take_while(|&&b| passes(b)).count()
}

/// The mark that begins with `b`, before the byte `after`, and its length.
fn mark(b: u8, after: u8) -> Option<(Mark, usize)>
    ensures value { result ≡ mark_at b after }
    ensures bound { IfSome result (λ m. (m.1 ≤ 2) × (after ≡ 0 → m.1 ≤ 1)) }
{
    match b as char {
        '(' => Some((Mark::Open, 1)),
        ')' => Some((Mark::Close, 1)),
        '~' => Some((Mark::Not, 1)),
        '&' => Some((Mark::And, 1)),
        '|' => Some((Mark::Or, 1)),
        ',' => Some((Mark::Comma, 1)),
        ';' => Some((Mark::Semicolon, 1)),
        '.' => Some((Mark::Stop, 1)),
        '-' if after == b'>' => Some((Mark::Arrow, 2)),
        'Y' if after == b'L' => Some((Mark::YL, 2)),
        'S' if after == b'L' => Some((Mark::SL, 2)),
        'O' if after == b'L' => Some((Mark::OL, 2)),
        'H' if after == b'L' => Some((Mark::HL, 2)),
        'Y' if after == b'G' => Some((Mark::YG, 2)),
        'S' if after == b'G' => Some((Mark::SG, 2)),
        'O' if after == b'G' => Some((Mark::OG, 2)),
        'H' if after == b'G' => Some((Mark::HG, 2)),
        _ => None,
    }
}

/// The sign that the bytes of a word are.
fn word<'a>(text: &'a [u8]) -> Sign<'a>
    ensures { kind_of result ≡ word_of text.now }
{
    match text {
        b"atoms" => Sign::Mark(Mark::Atoms),
        b"rule" => Sign::Mark(Mark::Rule),
        b"true" => Sign::Mark(Mark::True),
        b"false" => Sign::Mark(Mark::False),
        _ => Sign::Name(text),
    }
}

/// The byte at `i`, and 0 past the end.
fn byte_at(text: &[u8], i: usize) -> u8
    ensures value { result ≡ slice_index text.now i }
    ensures past { length text.now ≤ i → result ≡ 0 }
{
    text.get(i).copied().unwrap_or(0)
}

/// The sign at the place `from`, which has no blank and lies in the text.
fn sign_from<'a>(text: &'a [u8], from: usize) -> Result<Placed<'a>, SignFault>
    requires { from < length text.now }
    ensures { told result ≡ found_at text.now from }
{
    let b = text[from];
    if b.is_ascii_lowercase() {
        let to = from + leading(&text[from..], name_byte);
        if to - from > MOST_NAME_BYTES {
            return Err(SignFault::LongName(from));
        }
        return Ok(Placed {
            sign: word(&text[from..to]),
            from,
            to,
        });
    }
    let (m, len) = mark(b, byte_at(text, from + 1)).ok_or(SignFault::NoSign(from))?;
    Ok(Placed {
        sign: Sign::Mark(m),
        from,
        to: from + len,
    })
}

/// The next sign from the place `at` on.
fn sign_at<'a>(text: &'a [u8], at: usize) -> Result<Placed<'a>, SignFault>
    requires { at ≤ length text.now }
    ensures { told result ≡ next_sign text.now at }
{
    let from = at + leading(&text[at..], blank);
    if from == text.len() {
        return Ok(Placed {
            sign: Sign::End,
            from,
            to: from,
        });
    }
    sign_from(text, from)
}

impl<'a> Reader<'a> {
    /// A reader at the first byte of the text.
    pub fn new(text: &'a [u8]) -> Reader<'a>
        ensures text { result.text.now ≡ text.now }
        ensures place { result.at ≡ 0 }
    {
        Reader { text, at: 0 }
    }

    /// The text that is read.
    pub fn text(&self) -> &'a [u8]
        ensures { result.now ≡ self.now.text.now }
    {
        self.text
    }

    /// The next sign with its places; the reader then stands behind it. At a fault it stays.
    // No Iterator: this never ends, since at the text's end the sign End comes again and again.
    pub fn next(&mut self) -> Result<Placed<'a>, SignFault>
        ensures value { told result ≡ next_sign self.old.text.now self.old.at }
        ensures stands { Stands self.old.text.now self.old.at (told result) }
        ensures text { self.new.text.now ≡ self.old.text.now }
        ensures place { self.new.at ≡ place_after self.old.at (told result) }
    {
        let placed = sign_at(self.text, self.at)?;
        self.at = placed.to;
        Ok(placed)
    }
}
