//! What a refusal is made of: a number, a layer and a place. Every layer's faults turn into this one
//! type, and its printed form is fixed byte by byte.
//!
//! Rests on nothing. specs/Written.antt has the bytes.
#![tactic(auto)]

ghost use Rattle.std.specs.Prelude.{Some};
ghost use Rattle.refusals.specs.Written.{written};

use std::fmt;

mod refusal;

pub use refusal::{Layer, Refusal};

impl fmt::Display for Refusal {
    ghost output = { λ r. Some (written r) };

    fn fmt<W: fmt::Write>(&self, f: &mut fmt::Formatter<W>) -> fmt::Result {
        let Refusal {
            number,
            layer,
            place,
        } = *self;
        write!(f, "refused {number} layer {} place {place}", layer as u8)
    }
}
