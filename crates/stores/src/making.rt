//! The first call of every making.
ghost use Rattle.std.specs.Prelude.{◌≡◌};
ghost use Rattle.stores.specs.Making.{making};

use crate::fault::StoreFault;

/// The limit of a store for records of `width` bytes, each with `head` bytes beside it, in `size` bytes of memory.
///
/// Refuses by 12 where the width is not 4 to 289 or the limit would be below 2.
pub fn limit_for(width: usize, head: u8, size: usize) -> Result<usize, StoreFault>
    ensures value { result ≡ making width head size }
{
    if !(4..=289).contains(&width) {
        return Err(StoreFault::Unfit);
    }
    let limit = (size / (width + head as usize)).min(4096);
    if limit < 2 {
        return Err(StoreFault::Unfit);
    }
    Ok(limit)
}
