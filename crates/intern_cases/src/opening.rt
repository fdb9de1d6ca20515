//! Opening arrays: `b32 :DATA O O ..`, `b64 :DATA O O ..`, `fixed W :DATA`, `dict32 :DATA O O .. / K K ..`, `dict64` the same,
//! `twice :DATA O O .. / K K .. / K K ..` (a dictionary on a dictionary), and `many KIND N` (so many offsets, or values, that are all alike).
//! The answer is the values, or the fault.
use crate::words::{bytes, next_word, numbers, part};
use arrays::{ArrayAccessor, ArrowNativeType, BinaryArray, DictionaryArray, FixedSizeBinaryArray};
use page_report::Failure;
use page_text::Hex;
use recorded::number;
use std::alloc::{AllocError, Global};
use std::str::{FromStr, SplitWhitespace};

// What a command opens. The offsets of `Twice` have 32 bits.
#[derive(Clone, Copy)]
enum Kind {
    Binary32,
    Binary64,
    Fixed,
    Dictionary32,
    Dictionary64,
    Twice,
    Many,
}

// Any other word counts as a dictionary, with offsets of 64 bits where it ends so.
impl From<&str> for Kind {
    fn from(word: &str) -> Kind {
        match word {
            "b32" => Kind::Binary32,
            "b64" => Kind::Binary64,
            "fixed" => Kind::Fixed,
            "twice" => Kind::Twice,
            "many" => Kind::Many,
            _ if word.ends_with("64") => Kind::Dictionary64,
            _ => Kind::Dictionary32,
        }
    }
}

pub(crate) fn open_answer(alloc: Global, command: &str) -> Result<String, Failure> {
    let mut words = part(command, 0);
    let keys = part(command, 1);
    let text = match Kind::from(next_word(&mut words)) {
        Kind::Binary32 => values_text(alloc, &binary::<i32>(alloc, words)?)?,
        Kind::Binary64 => values_text(alloc, &binary::<i64>(alloc, words)?)?,
        Kind::Fixed => values_text(alloc, &fixed(alloc, words)?)?,
        Kind::Dictionary32 => values_text(alloc, &dictionary::<i32>(alloc, words, keys)?)?,
        Kind::Dictionary64 => values_text(alloc, &dictionary::<i64>(alloc, words, keys)?)?,
        Kind::Twice => {
            let below = dictionary::<i32>(alloc, words, keys)?;
            let keys = numbers(alloc, part(command, 2))?;
            values_text(alloc, &DictionaryArray::open(below, keys)?)?
        }
        Kind::Many => many_answer(alloc, command)?,
    };
    Ok(text)
}

fn values_text<A: ArrayAccessor>(alloc: Global, array: &A) -> Result<String, AllocError> {
    let mut text = String::from_str(alloc, "values")?;
    for value in (0..array.len()).filter_map(|i| array.value(i)) {
        write!(text, " :{}", Hex(value))?;
    }
    Ok(text)
}

fn binary<O>(alloc: Global, mut words: SplitWhitespace<'_>) -> Result<BinaryArray<O>, Failure>
where
    O: ArrowNativeType + FromStr + Default,
    O::Err: Drop,
{
    let data = bytes(alloc, next_word(&mut words))?;
    Ok(BinaryArray::open(numbers(alloc, words)?, data)?)
}

fn fixed(alloc: Global, mut words: SplitWhitespace<'_>) -> Result<FixedSizeBinaryArray, Failure> {
    let width = number(next_word(&mut words));
    let data = bytes(alloc, next_word(&mut words))?;
    Ok(FixedSizeBinaryArray::open(width, data)?)
}

fn dictionary<O>(
    alloc: Global,
    words: SplitWhitespace<'_>,
    keys: SplitWhitespace<'_>,
) -> Result<DictionaryArray<BinaryArray<O>>, Failure>
where
    O: ArrowNativeType + FromStr + Default,
    O::Err: Drop,
{
    let below = binary(alloc, words)?;
    Ok(DictionaryArray::open(below, numbers(alloc, keys)?)?)
}

// So many offsets of 0, or so many values of one byte: the length of the array, or its fault. Any other kind counts as `fixed`.
fn many_answer(alloc: Global, command: &str) -> Result<String, Failure> {
    let mut words = command.split_whitespace();
    let _many = words.next();
    let kind = Kind::from(next_word(&mut words));
    let count = number(next_word(&mut words));
    let len = match kind {
        Kind::Binary32 => zeros::<i32>(alloc, count)?.len(),
        Kind::Binary64 => zeros::<i64>(alloc, count)?.len(),
        _ => FixedSizeBinaryArray::open(1, vec![in alloc; 0u8; count]?)?.len(),
    };
    Ok(format!(in alloc; "values {len}")?)
}

fn zeros<O: ArrowNativeType + Default>(
    alloc: Global,
    count: usize,
) -> Result<BinaryArray<O>, Failure> {
    let offsets = vec![in alloc; O::default(); count]?;
    Ok(BinaryArray::open(offsets, Vec::new(alloc))?)
}
