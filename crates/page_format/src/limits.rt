//! The limits, each once. `specs/Limits.antt` says what each one bounds.
ghost use Rattle.std.specs.Prelude.{◌≡◌, [], ◌∷◌};
ghost use Rattle.page_format.specs.Limits.{value_bytes, most_entries, page_values, array_values, data_bytes, fixed_width, key_width, table_slots, run_groups};

pub const MAX_VALUE_BYTES: usize = 4096;

pub const MAX_ENTRIES: usize = 4096;

pub const MAX_PAGE_VALUES: usize = 16_384;

pub const MAX_ARRAY_VALUES: usize = 1_048_576;

pub const MAX_DATA_BYTES: usize = 2_147_483_647;

pub const MAX_FIXED_WIDTH: usize = 64;

pub const MAX_KEY_WIDTH: usize = 32;

pub const TABLE_SLOTS: usize = 8192;

pub const MAX_RUN_GROUPS: usize = 63;

/// All of them, in the order above.
pub fn all_limits() -> [usize; 9]
    ensures { result ≡ value_bytes ∷ most_entries ∷ page_values ∷ array_values ∷ data_bytes ∷ fixed_width ∷ key_width ∷ table_slots ∷ run_groups ∷ [] }
{
    [
        MAX_VALUE_BYTES,
        MAX_ENTRIES,
        MAX_PAGE_VALUES,
        MAX_ARRAY_VALUES,
        MAX_DATA_BYTES,
        MAX_FIXED_WIDTH,
        MAX_KEY_WIDTH,
        TABLE_SLOTS,
        MAX_RUN_GROUPS,
    ]
}
