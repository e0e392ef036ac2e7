//! The number, layer and place of a store's faults.
ghost use Rattle.std.specs.Prelude.{◌≡◌};
ghost use Rattle.stores.specs.Refusals.{refusal_of};

use crate::fault::StoreFault;
use refusals::{Layer, Refusal};

impl From<StoreFault> for Refusal {
    ghost from_gives = { λ f r. r ≡ refusal_of f };

    /// The row of the refusal table that a fault is, with its place.
    fn from(f: StoreFault) -> Refusal {
        let (number, place) = match f {
            StoreFault::Unfit => (12, 0),
            StoreFault::Length(len) => (31, len),
            StoreFault::Run(run) => (30, run as usize),
            StoreFault::Last => (25, 999_999),
            StoreFault::Full(limit) => (24, limit),
        };
        Refusal {
            number,
            layer: Layer::Store,
            place,
        }
    }
}
