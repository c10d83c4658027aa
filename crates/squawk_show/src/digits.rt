//! Decimal digits by table look-up, four at a time: numbers are the larger part of a report.
ghost use Rattle.std.specs.Prelude.{◌≡◌, ℕ, ◌≤◌, ◌<◌, ◌+◌, ◌++◌, ◌∷◌, [], length, take, decimal, IfOk, IfSome};
ghost use Rattle.squawk_show.specs.Digits as spec;

use std::alloc::{AllocError, Global};

// The numbers of at most four digits, one group, are those below.
const GROUP: u32 = 10_000;

// The ASCII code of a digit.
fn digit(n: u32) -> u8
    requires { n < 10 }
    ensures { result ≡ 48 + n }
{
    b'0' + n as u8
}

// The number of digits of a number.
fn digit_count(n: u32) -> usize
    requires { n < 10000 }
    ensures count { result ≡ length (decimal n) }
    ensures narrow { result ≤ 4 }
{
    if n < 10 {
        1
    } else if n < 100 {
        2
    } else if n < 1000 {
        3
    } else {
        4
    }
}

// Four bytes that start with all digits of a number. The bytes after them have no meaning.
fn leading_bytes(n: u32) -> [u8; 4]
    requires { n < 10000 }
    ensures { take (length (decimal n)) result ≡ decimal n }
{
    if n < 10 {
        [digit(n), b'0', b'0', b'0']
    } else if n < 100 {
        [digit(n / 10), digit(n % 10), b'0', b'0']
    } else if n < 1000 {
        [digit(n / 100), digit(n / 10 % 10), digit(n % 10), b'0']
    } else {
        [
            digit(n / 1000),
            digit(n / 100 % 10),
            digit(n / 10 % 10),
            digit(n % 10),
        ]
    }
}

// The last four digits of a number, with leading zeros.
fn trailing_bytes(n: u32) -> [u8; 4]
    ensures { result ≡ spec.last_four_digits n }
{
    [
        digit(n / 1000 % 10),
        digit(n / 100 % 10),
        digit(n / 10 % 10),
        digit(n % 10),
    ]
}

// Packs four bytes in a `u32`.
fn pack_u32(bytes: [u8; 4]) -> u32
    ensures { spec.u32_bytes result ≡ bytes }
{
    u32::from_le_bytes(bytes)
}

// The table of leading digits of the numbers below 10000.
fn make_leading(alloc: Global) -> Result<Vec<u32>, AllocError>
    ensures { IfOk result (λ table. spec.IsLeadingTable 10000 table.items) }
{
    let mut table = Vec::new(alloc);
    for n in 0..GROUP {
        table.push(pack_u32(leading_bytes(n)))?;
    }
    Ok(table)
}

// The table of the last four digits of the numbers below 10000.
fn make_trailing(alloc: Global) -> Result<Vec<u32>, AllocError>
    ensures { IfOk result (λ table. spec.IsTrailingTable 10000 table.items) }
{
    let mut table = Vec::new(alloc);
    for n in 0..GROUP {
        table.push(pack_u32(trailing_bytes(n)))?;
    }
    Ok(table)
}

// The digits of the numbers below 10000, as packed bytes.
#[derive(Drop)]
pub(crate) struct DigitTables {
    leading: Vec<u32>,
    trailing: Vec<u32>,
    ghost leading_digits: { spec.IsLeadingTable 10000 leading.items },
    ghost trailing_digits: { spec.IsTrailingTable 10000 trailing.items },
}

// A number with its digits in packed bytes: `width` digits from `upper`, and then digits from
// `lower` up to `len` digits in all. A number of five digits or more has its last four in `lower`,
// and `high` is what the others spell; else `high` is 0.
#[derive(Clone, Copy)]
pub(crate) struct Number {
    pub(crate) value: u32,
    high: u32,
    upper: u64,
    lower: u32,
    width: usize,
    len: usize,
    ghost digits: { spec.SpellsNumber value (record {
      upper = upper;
      lower = lower;
      width = width;
      len = len;
    }) },
    ghost upper_digits: { spec.SpellsUpper value high (record {
      upper = upper;
      lower = lower;
      width = width;
      len = len;
    }) },
}

impl Number {
    pub(crate) fn zero() -> Number
        ensures { result.value ≡ 0 }
    {
        Number {
            value: 0,
            high: 0,
            upper: b'0' as u64,
            lower: 0,
            width: 1,
            len: 1,
        }
    }
}

// Writes four packed bytes at an offset. Callers need only a prefix of them; the rest is
// overwritten later or cut off.
#[inline(always)]
fn put_u32(text: &mut [u8], at: usize, packed: u32)
    requires { at + 4 ≤ length text.old }
    ensures written { (n : ℕ) → n ≤ 4
        → take (at + n) text.new ≡ take at text.old ++ take n (spec.u32_bytes packed) }
    ensures same_length { length text.new ≡ length text.old }
{
    text[at..at + 4].copy_from_slice(&packed.to_le_bytes());
}

// Writes eight packed bytes at an offset, as `put_u32` does four.
#[inline(always)]
fn put_u64(text: &mut [u8], at: usize, packed: u64)
    requires { at + 8 ≤ length text.old }
    ensures written { (n : ℕ) → n ≤ 8
        → take (at + n) text.new ≡ take at text.old ++ take n (spec.u64_bytes packed) }
    ensures same_length { length text.new ≡ length text.old }
{
    text[at..at + 8].copy_from_slice(&packed.to_le_bytes());
}

// Packs eight bytes in a `u64`.
fn pack_u64(bytes: [u8; 8]) -> u64
    ensures { spec.u64_bytes result ≡ bytes }
{
    u64::from_le_bytes(bytes)
}

// Packs the first `width` of four bytes, and then four bytes.
fn join_groups(first: u32, width: usize, second: u32) -> u64
    requires { width ≤ 4 }
    ensures { take (width + 4) (spec.u64_bytes result)
        ≡ take width (spec.u32_bytes first) ++ spec.u32_bytes second }
{
    let mut bytes = [0u8; 8];
    put_u32(&mut bytes, 0, first);
    put_u32(&mut bytes, width, second);
    pack_u64(bytes)
}

impl DigitTables {
    pub(crate) fn new(alloc: Global) -> Result<DigitTables, AllocError> {
        let leading = make_leading(alloc)?;
        let trailing = make_trailing(alloc)?;
        Ok(DigitTables { leading, trailing })
    }

    // Packed bytes that start with all digits of a number of at most six digits, and the number of
    // its digits.
    fn upper_digits(&self, value: u32) -> (u64, usize)
        requires { value < 1000000 }
        ensures { spec.StartsPacked value result.0 result.1 }
    {
        if value < GROUP {
            return (self.leading[value as usize] as u64, digit_count(value));
        }
        let high = value / GROUP;
        let width = digit_count(high);
        let lower = self.trailing[(value % GROUP) as usize];
        let upper = join_groups(self.leading[high as usize], width, lower);
        (upper, width + 4)
    }

    // A number with its digits.
    pub(crate) fn number(&self, value: u32) -> Number
        ensures { result.value ≡ value }
    {
        if value < GROUP {
            let (upper, width) = self.upper_digits(value);
            return Number {
                value,
                high: 0,
                upper,
                lower: 0,
                width,
                len: width,
            };
        }
        let high = value / GROUP;
        let (upper, width) = self.upper_digits(high);
        Number {
            value,
            high,
            upper,
            lower: self.trailing[(value % GROUP) as usize],
            width,
            len: width + 4,
        }
    }

    // A number with its digits, if all but the last four are those of `near`.
    #[inline(always)]
    pub(crate) fn number_sharing(&self, near: Number, value: u32) -> Option<Number>
        ensures { IfSome result (λ number. number.value ≡ value) }
    {
        let high = value / GROUP;
        if high == near.high && high > 0 {
            let lower = self.trailing[(value % GROUP) as usize];
            return Some(Number {
                value,
                high,
                upper: near.upper,
                lower,
                width: near.width,
                len: near.len,
            });
        }
        None
    }
}

// Writes the digits of a number at an offset, and returns the offset after them: at most ten. It
// writes bytes after them too: copies of a fixed size are faster than one of any size.
#[inline(always)]
pub(crate) fn put_number(text: &mut [u8], at: usize, number: Number) -> usize
    requires { at + 10 ≤ length text.old }
    ensures near { (at ≤ result) × (result ≤ at + 10) }
    ensures written { take result text.new ≡ take at text.old ++ decimal number.value }
    ensures same_length { length text.new ≡ length text.old }
{
    put_u64(text, at, number.upper);
    put_u32(text, at + number.width, number.lower);
    at + number.len
}
