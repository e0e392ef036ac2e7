//! Making a table of records, and its memory.
ghost use Rattle.std.specs.Prelude.{◌≡◌, length, replicate, Ok, vec_len};
ghost use Rattle.stores.specs.Making.{making};
ghost use Rattle.stores.specs.Meaning.{empty};
ghost use Rattle.stretch_table.specs.Image.{image};
ghost use Rattle.stretch_table.specs.Means.{means, bytes_of};

use crate::entries::Entries;
use crate::table::StretchRecords;
use stores::Bounds;

impl StretchRecords {
    /// No records yet, in all of the memory, which is set to zero.
    pub fn new(mut memory: Vec<u8>, width: usize, limit: usize) -> StretchRecords
        requires { making width 8 (vec_len memory) ≡ Ok limit }
        ensures after { means result ≡ empty width limit }
        ensures bytes { bytes_of result ≡ replicate (vec_len memory) 0 }
    {
        memory.fill(0);
        let bounds = Bounds {
            width,
            limit,
            low: 1,
            high: 0,
        };
        StretchRecords {
            entries: Entries {
                bytes: memory,
                bounds,
                used: 0,
            },
        }
    }

    /// Every byte of the memory.
    pub fn memory(&self) -> &[u8]
        ensures value { result.now ≡ image (means self.now) (length (bytes_of self.now)) }
    {
        self.entries.bytes.as_slice()
    }

    /// The memory, handed back as it stands.
    pub fn into_memory(self) -> Vec<u8>
        ensures value { result.items ≡ image (means self) (length (bytes_of self)) }
    {
        let Entries { bytes, .. } = self.entries;
        bytes
    }
}
