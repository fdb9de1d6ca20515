//! Key pages: dictionary keys as Parquet's hybrid of repeat and packed runs, written and read.
#![tactic(auto)]

mod encoder;
mod keys;
mod pages;
mod reader;
mod run;
mod run_bytes;
mod runs;
mod width;

pub use encoder::RleEncoder;
pub use keys::Keys;
pub use pages::{key_width, max_buffer_size, worked_pages, write_key_page};
pub use reader::KeyPage;
pub use run::Run;
pub use runs::Runs;
