//! Numbers of bits, and signed numbers as unsigned ones.
ghost use Rattle.std.specs.Prelude.{◌≡◌, ℕ, ◌+◌, ◌*◌, ◌%◌, ◌^◌, ◌<◌, ◌≤◌};
ghost use Rattle.page_format.specs.Bits.{BitsOf, PartsOf, zigzagged, unzigzagged};
ghost use Rattle.page_format.specs.Laws.{ZigzagReadsBack};

/// The least number of bits that hold `x`.
pub fn num_required_bits(x: u64) -> u8
    ensures { BitsOf x result }
{
    (64 - x.leading_zeros()) as u8
}

/// The least number of parts of size `divisor` that hold `value`; 0 for parts of size 0.
pub fn ceil(value: usize, divisor: usize) -> usize
    ensures least { 0 < divisor → PartsOf value divisor result }
    ensures none { divisor ≡ 0 → result ≡ 0 }
{
    if divisor == 0 {
        0
    } else {
        value.div_ceil(divisor)
    }
}

/// The `num_bits` least significant bits of `v`.
pub fn trailing_bits(v: u64, num_bits: usize) -> u64
    ensures { result ≡ v % 2 ^ num_bits }
{
    if num_bits >= 64 {
        v
    } else {
        v & ((1 << num_bits) - 1)
    }
}

/// 2v, or −2v − 1 below 0: numbers near 0 stay small.
pub fn zigzag(v: i32) -> u32
    ensures value { result ≡ zigzagged v }
    ensures reads_back { ZigzagReadsBack }
{
    if v >= 0 {
        2 * (v as u32)
    } else {
        2 * (-(v + 1) as u32) + 1
    }
}

/// The signed number that `n` is the zigzag of.
pub fn unzigzag(n: u32) -> i32
    ensures { result ≡ unzigzagged n }
{
    let half = (n / 2) as i32;
    if n % 2 == 0 { half } else { -half - 1 }
}
