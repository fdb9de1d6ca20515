//! A dictionary of byte strings that never holds a value twice, whatever the hash does.
#![tactic(auto)]

mod hash;
mod interner;
mod plain;
mod slot;
mod storage;

pub use hash::{Fnv1a, KeyHash, SeededFnv1a, ZeroHash};
pub use interner::Interner;
pub use plain::PlainStorage;
pub use storage::Storage;
