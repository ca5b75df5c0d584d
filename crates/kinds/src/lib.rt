// The kinds of tensor data, and the size of a tensor.
#![tactic(auto)]

ghost use Rattle.std.specs.Prelude.{◌≡◌, true, ◌*◌, ◌≤◌, leb};
ghost use Rattle.kinds.specs.Table.{block, block_of, known_kind, written_kind};
ghost use Rattle.kinds.specs.Shape.{greatest, whole_blocks, bytes_for, product_of, products_fit, bounded_product, measure_of};
ghost use Rattle.reading.specs.Replies.{as_result};

use reading::Reason;

// How many numbers a block of a kind holds, and how many bytes it takes. A block of no numbers:
// there is no such kind.
#[derive(Clone, Copy)]
pub struct Block {
    pub numbers: u64,
    pub bytes: u64,
}

// A tensor's count of numbers, and its size in bytes.
#[derive(Clone, Copy)]
pub struct Measure {
    pub product: u64,
    pub size: u64,
}

// How many numbers a block of a kind holds: none where a number names no kind.
#[tactic(auto, unfolding(crate::specs::Table::block_of))]
fn block_size(kind: u64) -> u64
    ensures { result ≡ (block_of kind).numbers }
{
    match kind {
        0..=1 | 24..=28 | 30 => 1,
        2..=3 | 6..=9 | 20 | 39 => 32,
        4..=5 => 0,
        10..=19 | 21..=23 | 29 | 31..=38 => 256,
        _ => 0,
    }
}

// How many bytes a block of a kind takes: none where a kind is never written, and where a number
// names no kind. Single numbers make the match one look into a table.
#[tactic(auto, unfolding(crate::specs::Table::block_of))]
fn type_size(kind: u64) -> u64
    ensures { result ≡ (block_of kind).bytes }
{
    match kind {
        0 | 26 => 4,
        1 | 25 | 30 => 2,
        2 | 20 => 18,
        3 => 20,
        6 => 22,
        7 => 24,
        8 => 34,
        9 => 36,
        10 => 84,
        11 | 21 => 110,
        12 => 144,
        13 => 176,
        14 => 210,
        15 => 292,
        16 | 35 => 66,
        17 => 74,
        18 => 98,
        19 => 50,
        22 => 82,
        23 => 136,
        24 => 1,
        27 => 8,
        28 => 8,
        29 => 56,
        34 => 54,
        39 => 17,
        _ => 0,
    }
}

// The block of a kind.
pub fn block_and_type_size(kind: u64) -> Block
    ensures { result ≡ block_of kind }
{
    Block {
        bytes: type_size(kind),
        numbers: block_size(kind),
    }
}

// Whether a number names a kind.
#[tactic(auto, unfolding(crate::specs::Table::block_of))]
pub fn is_known(kind: u64) -> bool
    ensures { result ≡ known_kind kind }
{
    matches!(kind, 0..=3 | 6..=39)
}

// Whether a kind is written.
pub fn is_written(kind: u64) -> bool
    ensures { result ≡ written_kind kind }
{
    0 < type_size(kind)
}

// Whether n numbers are whole blocks of a kind. A multiple of 256 is, whatever the kind. Of other
// numbers blocks of 256 never are, unless they take no bytes, and blocks of one always.
pub fn whole_blocks(n: u64, kind: u64) -> bool
    ensures { result ≡ whole_blocks n kind }
{
    if n % 256 == 0 {
        return true;
    }
    match block_size(kind) {
        32 => n % 32 == 0,
        256 => !is_written(kind),
        _ => true,
    }
}

// The product of a shape's lengths, from the left: each product on the way must fit.
pub fn product(shape: [u64; 4]) -> Option<u64>
    ensures { result ≡ bounded_product shape }
{
    let plane = shape[0].checked_mul(shape[1])?;
    let solid = plane.checked_mul(shape[2])?;
    solid.checked_mul(shape[3])
}

// The product of a shape's lengths, for callers that know that each product on the way fits.
pub fn known_product(shape: [u64; 4]) -> u64
    requires { products_fit shape ≡ true }
    ensures { result ≡ product_of shape }
{
    shape[0] * shape[1] * shape[2] * shape[3]
}

// Whether the bytes of so many numbers of a kind fit 64 bits. No block takes 512 bytes, so of fewer
// than 2 ^ 55 numbers they do.
#[tactic(auto, using(crate::proofs::SizeTests::few_numbers_fit))]
pub fn fits(numbers: u64, kind: u64) -> bool
    ensures { result ≡ leb (numbers * (block_of kind).bytes) greatest }
{
    if numbers < 1 << 55 {
        return true;
    }
    numbers.checked_mul(type_size(kind)).is_some()
}

// The bytes of so many numbers of a kind, for callers that know that they fit. Each arm divides by a
// constant, because that is a shift.
// Inlined, for the loop that fills rows.
#[inline(always)]
pub fn known_size(numbers: u64, kind: u64) -> u64
    requires { numbers * (block_of kind).bytes ≤ greatest }
    ensures { result ≡ bytes_for numbers kind }
{
    let bytes = numbers * type_size(kind);
    match block_size(kind) {
        1 => bytes,
        32 => bytes / 32,
        256 => bytes / 256,
        _ => 0,
    }
}

// The numbers and the bytes of a tensor.
pub fn size(shape: [u64; 4], kind: u64) -> Result<Measure, Reason>
    ensures { as_result result ≡ measure_of shape kind }
{
    let block = block_and_type_size(kind);
    if block.numbers == 0 {
        return Err(Reason::UnknownKind);
    }
    if !whole_blocks(shape[0], kind) {
        return Err(Reason::PartialBlock);
    }
    let numbers = product(shape).ok_or(Reason::ProductOverflow)?;
    let bytes = numbers
        .checked_mul(block.bytes)
        .ok_or(Reason::SizeOverflow)?;
    Ok(Measure {
        product: numbers,
        size: bytes / block.numbers,
    })
}
