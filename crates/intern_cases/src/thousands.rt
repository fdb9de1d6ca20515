//! Some thousands of values under each hash: byte strings until the memory is full, and values of eight bytes until the entries are.
use interner::{Fnv1a, Interner, KeyHash, PlainStorage, Storage, ZeroHash};
use page_format::{Column, Fault, Width};
use std::alloc::{AllocError, Global};
use std::io::Print;

const SEED: u64 = 20261118;

// The next state of a linear congruential generator.
fn stepped(state: u64) -> u64 {
    state
        .wrapping_mul(6364136223846793005)
        .wrapping_add(1442695040888963407)
}

// Drawing paths, some of them again and again. A key for each, or `!` and the number of the rejection.
fn path_keys<H: KeyHash + Drop>(alloc: Global, hash: H) -> Result<String, AllocError> {
    let memory = vec![in alloc; 0u8; 30000]?;
    let mut interner = Interner::new(PlainStorage::new(Column::ByteStrings, memory), hash);
    let mut text = String::new(alloc);
    let mut state = SEED;
    for place in 0..3000 {
        state = stepped(state);
        let path = format!(in alloc; "drawings/{}.dwg", (state >> 33) % 2600)?;
        match interner.intern(path.as_bytes(), place) {
            Ok(key) => write!(text, " {key}")?,
            Err(fault) => write!(text, " !{}", u8::from(fault.number))?,
        }
    }
    Ok(text)
}

// Digests of eight bytes, each one new: the bytes that the accepted ones take, and the fault of the first that was not.
fn digest_tally<H: KeyHash + Drop>(alloc: Global, hash: H) -> Result<String, AllocError> {
    let column = Column::Fixed(Width::new(8).unwrap());
    let memory = vec![in alloc; 0u8; 65536]?;
    let mut interner = Interner::new(PlainStorage::new(column, memory), hash);
    let rejected = (0..5000).find_map(|place| {
        let digest = stepped(place as u64).to_le_bytes();
        interner.intern(&digest, place).err()
    });
    match rejected {
        Some(
            Fault {
                number,
                layer,
                place,
            },
        ) => {
            let used = interner.storage().bytes_in_use();
            let (number, layer) = (u8::from(number), u8::from(layer));
            format!(in alloc; "{used} bytes in use, then {number} {layer} {place}")
        }
        None => String::from_str(alloc, "none was rejected"),
    }
}

pub(crate) fn print_keys(rt: &(impl Print + AllocGlobal)) -> anyhow::Result<()> {
    let alloc = rt.alloc();
    // six prints: no loop goes over hashes of different types
    println!(rt; "fnv-1a:{}", path_keys(alloc, Fnv1a::new())?)?;
    println!(rt; "seeded:{}", path_keys(alloc, Fnv1a::with_seed(SEED))?)?;
    println!(rt; "zero:{}", path_keys(alloc, ZeroHash)?)?;
    println!(rt; "fnv-1a: {}", digest_tally(alloc, Fnv1a::new())?)?;
    println!(rt; "seeded: {}", digest_tally(alloc, Fnv1a::with_seed(SEED))?)?;
    println!(rt; "zero: {}", digest_tally(alloc, ZeroHash)?)?;
    Ok(())
}
