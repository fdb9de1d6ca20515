//! `gather KIND :HEX :HEX .. / I I ..`: the values as an array of that kind, and of these the ones that the indices name, interned one by one.
//! The answer is the page of their keys, and the number of entries with their page. It is asked for under each hash.
use crate::unanswered::answer_text;
use crate::words::{bytes, numbers, part};
use arrays::{ArrayAccessor, ArrowNativeType, BinaryArray, DictionaryArray, FixedSizeBinaryArray};
use interner::{Fnv1a, Interner, KeyHash, PlainStorage, Storage, ZeroHash};
use key_pages::key_width;
use page_format::Column;
use page_report::{Failure, own_page};
use page_text::Hex;
use std::alloc::{AllocError, Global};
use std::str::SplitWhitespace;

// What the values become: `b32`, `b64`, or a dictionary on these, `dict`, `dict64`, or on an array of one width, `dictfix`.
#[derive(Clone, Copy)]
enum Kind {
    Binary32,
    Binary64,
    Dictionary32,
    Dictionary64,
    FixedDictionary,
}

// Of any other word the first letter and the end say what it counts as.
impl From<&str> for Kind {
    fn from(word: &str) -> Kind {
        if word == "dictfix" {
            return Kind::FixedDictionary;
        }
        match (word.starts_with("b"), word.ends_with("64")) {
            (true, false) => Kind::Binary32,
            (true, true) => Kind::Binary64,
            (false, false) => Kind::Dictionary32,
            (false, true) => Kind::Dictionary64,
        }
    }
}

pub(crate) fn gather_answer(alloc: Global, command: &str) -> Result<String, Failure> {
    let kind = Kind::from(command.split_whitespace().nth(1).unwrap_or(""));
    let mut values = part(command, 0);
    let _gather = values.next();
    let _kind = values.next();
    let indices = numbers(alloc, part(command, 1))?;
    let text = match kind {
        Kind::Binary32 => gathered(alloc, &binary::<i32>(alloc, values)?, &indices)?,
        Kind::Binary64 => gathered(alloc, &binary::<i64>(alloc, values)?, &indices)?,
        Kind::Dictionary32 => in_dictionary(alloc, binary::<i32>(alloc, values)?, &indices)?,
        Kind::Dictionary64 => in_dictionary(alloc, binary::<i64>(alloc, values)?, &indices)?,
        Kind::FixedDictionary => in_dictionary(alloc, fixed(alloc, values)?, &indices)?,
    };
    Ok(text)
}

// Where each value begins, one behind another, and where the last one ends; and the values. A place that the type lacks counts as 0.
fn laid_out<O>(alloc: Global, values: SplitWhitespace<'_>) -> Result<(Vec<O>, Vec<u8>), AllocError>
where
    O: TryFrom<usize> + Default + Drop,
    O::Error: Drop,
{
    let mut data = Vec::new(alloc);
    let mut offsets = Vec::new(alloc);
    offsets.push(O::default())?;
    for word in values {
        data.extend_from_slice(&bytes(alloc, word)?)?;
        offsets.push(O::try_from(data.len()).unwrap_or_default())?;
    }
    Ok((offsets, data))
}

fn binary<O>(alloc: Global, values: SplitWhitespace<'_>) -> Result<BinaryArray<O>, Failure>
where
    O: ArrowNativeType + TryFrom<usize> + Default,
    O::Error: Drop,
{
    let (offsets, data) = laid_out(alloc, values)?;
    Ok(BinaryArray::open(offsets, data)?)
}

// All at the width of the last one.
fn fixed(alloc: Global, values: SplitWhitespace<'_>) -> Result<FixedSizeBinaryArray, Failure> {
    let mut data = Vec::new(alloc);
    let mut width = 0;
    for word in values {
        let value = bytes(alloc, word)?;
        width = value.len();
        data.extend_from_slice(&value)?;
    }
    Ok(FixedSizeBinaryArray::open(width, data)?)
}

// The answer over a dictionary with a key to each value.
fn in_dictionary<A: ArrayAccessor + Drop>(
    alloc: Global,
    below: A,
    indices: &[usize],
) -> Result<String, Failure> {
    let keys = (0..below.len()).map(|place| place as i32).collect(alloc)?;
    Ok(gathered(alloc, &DictionaryArray::open(below, keys)?, indices)?)
}

// The answer, if each hash gives the same, the text of a fault as well.
fn gathered<A: ArrayAccessor>(
    alloc: Global,
    array: &A,
    indices: &[usize],
) -> Result<String, AllocError> {
    let gathering = Gathering { array, indices };
    let text = answer_text(alloc, gathering.interned(alloc, Fnv1a::new()))?;
    let seeded = answer_text(alloc, gathering.interned(alloc, Fnv1a::with_seed(7)))?;
    let zero = answer_text(alloc, gathering.interned(alloc, ZeroHash))?;
    if seeded == text && zero == text {
        Ok(text)
    } else {
        String::from_str(alloc, "the hashes differ")
    }
}

// The values of an array that indices name.
#[derive(Clone, Copy)]
struct Gathering<'a, A: ArrayAccessor> {
    array: &'a A,
    indices: &'a [usize],
}

impl<A: ArrayAccessor> Gathering<'_, A> {
    // Their keys. An index that names none stands for no bytes.
    fn keys<H: KeyHash>(
        &self,
        alloc: Global,
        interner: &mut Interner<PlainStorage, H>,
    ) -> Result<Vec<u32>, Failure> {
        self.indices
            .iter()
            .enumerate()
            .map(|(place, index)| -> Result<u32, Failure> {
                let key = interner.intern(self.array.value(*index).unwrap_or(b""), place)?;
                Ok(key as u32)
            })
            .try_collect(alloc)
    }

    // The page of their keys, and the page of the entries. Not inlined: the frame of a caller would hold an interner for each hash.
    #[inline(never)]
    fn interned<H: KeyHash + Drop>(&self, alloc: Global, hash: H) -> Result<String, Failure> {
        let memory = vec![in alloc; 0u8; 65536]?;
        let mut interner = Interner::new(PlainStorage::new(Column::ByteStrings, memory), hash);
        let keys = self.keys(alloc, &mut interner)?;
        let store = interner.storage();
        let entries = store.len();
        let page = page_or_none(alloc, key_width(entries), &keys)?;
        Ok(format!(in alloc;
            "page :{} dict {entries} :{}",
            Hex(&page),
            Hex(store.page())
        )?)
    }
}

// The page of the keys, and no bytes where our writer rejects them.
fn page_or_none(alloc: Global, width: usize, keys: &[u32]) -> Result<Vec<u8>, AllocError> {
    match own_page(alloc, width, keys) {
        Ok(page) => Ok(page),
        Err(Failure::Rejected(_)) => Ok(Vec::new(alloc)),
        Err(Failure::Memory(error)) => Err(error),
    }
}
