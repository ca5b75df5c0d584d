// Scalars: the eleven types of single values, their widths, their bits, and their words in a row.
#![tactic(auto)]

ghost use Rattle.std.specs.Prelude.{◌<◌, ◌≡◌};
ghost use Rattle.fields.specs.Value.{number};
ghost use Rattle.reading.specs.Reading.{run};
ghost use Rattle.reading.specs.Replies.{as_answer};
ghost use Rattle.scalars.specs.Scalars.{as_width};
ghost use Rattle.scalars.specs.Scalars as scalar;

use fields::Width;
use reading::Read;

// A scalar of one of eleven types. A float is kept as its bits.
#[derive(Clone, Copy)]
pub enum Scalar {
    U8(u8),
    I8(i8),
    U16(u16),
    I16(i16),
    U32(u32),
    I32(i32),
    F32(u32),
    Bool(bool),
    U64(u64),
    I64(i64),
    F64(u64),
}

// The scalar of a type that bits stand for. Every type that is no other scalar's is read as the
// last one's.
pub fn scalar_of(t: u64, bits: u64) -> Scalar
    ensures { result ≡ scalar.scalar_of t bits }
{
    match t {
        0 => Scalar::U8((bits % (1 << 8)) as u8),
        1 => Scalar::I8(((bits % (1 << 8)) as u8).cast_signed()),
        2 => Scalar::U16((bits % (1 << 16)) as u16),
        3 => Scalar::I16(((bits % (1 << 16)) as u16).cast_signed()),
        4 => Scalar::U32((bits % (1 << 32)) as u32),
        5 => Scalar::I32(((bits % (1 << 32)) as u32).cast_signed()),
        6 => Scalar::F32((bits % (1 << 32)) as u32),
        7 => Scalar::Bool(bits % (1 << 8) != 0),
        10 => Scalar::U64(bits),
        11 => Scalar::I64(bits.cast_signed()),
        _ => Scalar::F64(bits),
    }
}

// The width of a scalar's type. None: no scalar has that type.
#[tactic(auto, unfolding(crate::specs::Scalars::scalar_width))]
pub fn scalar_width(t: u64) -> Option<Width>
    ensures { as_width result ≡ scalar.scalar_width t }
{
    match t {
        0..=1 | 7 => Some(Width::One),
        2..=3 => Some(Width::Two),
        4..=6 => Some(Width::Four),
        10..=12 => Some(Width::Eight),
        _ => None,
    }
}

// The bits of a scalar of the type t.
pub fn read_scalar(s: &[u8], at: usize, t: u64, big: bool) -> Read<u64>
    requires { 0 < scalar.scalar_width t }
    ensures { as_answer result ≡ run (number (scalar.scalar_width t) big) s.now at }
{
    let Some(width) = scalar_width(t) else {
        unreachable!()
    };
    fields::number_at(s, at, width, big)
}

// The number of an integer that is not below 0. A float and a bool have none.
pub fn natural_of(x: Scalar) -> Option<u64>
    ensures { result ≡ scalar.natural_of x }
{
    match x {
        Scalar::U8(n) => Some(u64::from(n)),
        Scalar::I8(n) => u64::try_from(n).ok(),
        Scalar::U16(n) => Some(u64::from(n)),
        Scalar::I16(n) => u64::try_from(n).ok(),
        Scalar::U32(n) => Some(u64::from(n)),
        Scalar::I32(n) => u64::try_from(n).ok(),
        Scalar::U64(n) => Some(n),
        Scalar::I64(n) => u64::try_from(n).ok(),
        Scalar::F32(_) | Scalar::Bool(_) | Scalar::F64(_) => None,
    }
}

// A scalar's type, and its word: the first two of a value's words.
pub fn scalar_words(x: Scalar) -> [u64; 2]
    ensures { result ≡ scalar.scalar_words x }
{
    match x {
        Scalar::U8(n) => [0, u64::from(n)],
        Scalar::I8(n) => [1, i64::from(n).cast_unsigned()],
        Scalar::U16(n) => [2, u64::from(n)],
        Scalar::I16(n) => [3, i64::from(n).cast_unsigned()],
        Scalar::U32(n) => [4, u64::from(n)],
        Scalar::I32(n) => [5, i64::from(n).cast_unsigned()],
        Scalar::F32(n) => [6, u64::from(n)],
        Scalar::Bool(b) => [7, u64::from(b)],
        Scalar::U64(n) => [10, n],
        Scalar::I64(n) => [11, n.cast_unsigned()],
        Scalar::F64(n) => [12, n],
    }
}
