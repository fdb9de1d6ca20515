//! Arrays of byte strings in Arrow's layouts, which reject unfit memory when they are opened.
#![tactic(auto)]

mod accessor;
mod binary;
mod dictionary;
mod fixed_size_binary;
mod native;

pub use accessor::ArrayAccessor;
pub use binary::BinaryArray;
pub use dictionary::DictionaryArray;
pub use fixed_size_binary::FixedSizeBinaryArray;
pub use native::ArrowNativeType;
