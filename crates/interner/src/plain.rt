//! A store whose memory is its page: entries in PLAIN one after another, and a table of where each one stands.
ghost use Rattle.std.specs.Prelude.{◌≡◌, ◌+◌, ◌≤◌, true, false, [], length, replicate, vec_len, MatchOption};
ghost use Rattle.page_format.specs.Limits.{most_entries};
ghost use Rattle.page_format.specs.Plain.{plain_head, plain_form};
ghost use Rattle.page_format.specs.Writes.{Wrote, HasRoom, Appends};
ghost use Rattle.interner.specs.Layouts.{no_entry, stored, Laid, plain_suits, plain_need, plain_store};
ghost use Rattle.interner.specs.Laying;
ghost use Rattle.std.proofs.Common.{sym};

use crate::storage::Storage;
use page_format::{BitWriter, Column, Fault, Layer, MAX_ENTRIES, MAX_VALUE_BYTES, Rejection};

// Where an entry stands in the memory of its store.
#[derive(Clone, Copy)]
struct Entry {
    start: usize,
    len: usize,
}

/// The library allocates nothing, so there is no Vec that grows: the memory is the caller's, with the number of bytes in use
/// beside it, and the table has a fixed size, with the number of entries beside it.
#[derive(Drop)]
pub struct PlainStorage {
    column: Column,
    bytes: Vec<u8>,
    table: [Entry; MAX_ENTRIES],
    count: usize,
    used: usize,
    ghost laid: { Laid column bytes.items table count used },
}

// Writes what stands in front of a value in PLAIN.
fn append_head(out: &mut BitWriter<'_>, column: Column, value: &[u8])
    requires { HasRoom (length (plain_head column value.now)) out.old }
    ensures { Appends (plain_head column value.now) out.old out.new }
{
    if let Column::ByteStrings = column {
        out.write_le(4, value.len() as u64).unwrap();
    }
}

// Writes a value in PLAIN.
fn append_form(out: &mut BitWriter<'_>, column: Column, value: &[u8])
    requires { HasRoom (length (plain_form column value.now)) out.old }
    ensures { Appends (plain_form column value.now) out.old out.new }
{
    append_head(out, column, value);
    out.write_bytes(value).unwrap();
}

// The same at a place of the memory; answers the place behind it.
fn write_form(memory: &mut [u8], at: usize, column: Column, value: &[u8]) -> usize
    requires { at + length (plain_form column value.now) ≤ length memory.old }
    ensures { Wrote (plain_form column value.now) at memory.old result memory.new }
{
    let mut out = BitWriter::new(memory);
    out.move_to(at).unwrap();
    append_form(&mut out, column, value);
    out.position()
}

// Fills an element of the table, which is lent: a rule of this project (DECISIONS.md, "Forms").
fn record_entry(entry: &mut Entry, start: usize, len: usize)
    ensures { entry.new ≡ record { start = start; len = len } }
{
    entry.start = start;
    entry.len = len;
}

impl PlainStorage {
    /// A store without entries. The length of the memory that it is handed is its budget.
    pub fn new(column: Column, memory: Vec<u8>) -> PlainStorage
        ensures column { result.column ≡ column }
        ensures memory { result.bytes ≡ memory }
        ensures blank { result.table ≡ replicate most_entries no_entry }
        ensures empty { stored result.bytes.items result.table result.count ≡ [] }
    {
        PlainStorage {
            column,
            bytes: memory,
            table: [Entry { start: 0, len: 0 }; MAX_ENTRIES],
            count: 0,
            used: 0,
        }
    }

    /// Gives its memory back.
    pub fn into_memory(self) -> Vec<u8>
        ensures { result ≡ self.bytes }
    {
        self.bytes
    }

    // The bytes that a value needs, or none where the store takes no such value.
    fn need(&self, value: &[u8]) -> Option<usize>
        ensures { MatchOption result (plain_suits self.now.column value.now ≡ false) (λ n. (plain_suits self.now.column value.now ≡ true) × (n ≡ plain_need self.now.column value.now)) }
    {
        match self.column {
            Column::ByteStrings if value.len() <= MAX_VALUE_BYTES => Some(4 + value.len()),
            Column::Fixed(width) if value.len() == width.bytes() => Some(value.len()),
            _ => None,
        }
    }
}

impl Storage for PlainStorage {
    ghost entries = { λ s. stored s.bytes.items s.table s.count };

    ghost memory = { λ s. s.bytes.items };

    ghost store = { λ s. plain_store s.column (vec_len s.bytes) };

    ghost lawful = { λ x. Laying.lawful x.column x.bytes.len };

    ghost kept = { λ x. Laying.kept x.laid (sym x.bytes.ok.0) };

    fn column(&self) -> Column {
        self.column
    }

    #[tactic(auto, using(crate::proofs::Holding::count_of))]
    fn len(&self) -> usize {
        self.count
    }

    #[tactic(auto, using(crate::proofs::Holding::used_of))]
    fn bytes_in_use(&self) -> usize {
        self.used
    }

    fn get(&self, key: usize) -> Option<&[u8]> {
        let entry = self.table[..self.count].get(key)?;
        Some(&self.bytes[entry.start..entry.start + entry.len])
    }

    fn page(&self) -> &[u8] {
        &self.bytes[..self.used]
    }

    #[tactic(auto, using(crate::proofs::Holding::count_of, crate::proofs::Holding::used_of, crate::proofs::Holding::memory_of, crate::specs::Laying::form_need))]
    fn push(&mut self, value: &[u8], place: usize) -> Result<usize, Fault> {
        let Some(need) = self.need(value) else {
            return Err(Fault::new(Rejection::UnsuitedValue, Layer::Store, place));
        };
        let key = self.count;
        if key >= MAX_ENTRIES {
            return Err(Fault::new(Rejection::DictionaryFull, Layer::Store, place));
        }
        if need > self.bytes.len() - self.used {
            return Err(Fault::new(Rejection::MemoryFull, Layer::Store, place));
        }
        let end = write_form(&mut self.bytes, self.used, self.column, value);
        record_entry(&mut self.table[key], end - value.len(), value.len());
        self.count = key + 1;
        self.used = end;
        Ok(key)
    }
}
