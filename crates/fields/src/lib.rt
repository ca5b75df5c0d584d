// Numbers and bytes at a place of a slice, in either byte order: read where they are wholly there,
// and written into what the caller lends.
//
// `number_at` reads every width, and `put_number` writes every width, in either order. With a known
// width and order the sums of bytes that it is made of compile to one load (and a swap).
#![tactic(auto)]

ghost use Rattle.std.specs.Prelude.{◌+◌, ◌/◌, ◌<◌, ◌^◌, ◌≤◌, drop, length, replicate, take, false, true, [], ◌∷◌, ◌≡◌};
ghost use Rattle.fields.specs.Bytes.{Wrote, bytes_of};
ghost use Rattle.fields.specs.Order.{before};
ghost use Rattle.fields.specs.Value.{halves, le_value, number, value, width_of};
ghost use Rattle.reading.specs.Reading.{run};
ghost use Rattle.reading.specs.Replies.{as_answer};

use reading::{Read, Reason, Refusal};

// The greatest number of 64 bits.
pub const GREATEST: u64 = u64::MAX;

// The widths that a number has.
#[derive(Clone, Copy)]
pub enum Width {
    One,
    Two,
    Four,
    Eight,
}

// A width in bytes.
pub fn bytes_in(width: Width) -> usize
    ensures { result ≡ width_of width }
{
    match width {
        Width::One => 1,
        Width::Two => 2,
        Width::Four => 4,
        Width::Eight => 8,
    }
}

// How many numbers of a width stand in len bytes, one after the other. Each divisor stands in the
// text, so that the compiler has a shift and no division.
pub fn numbers_in(len: usize, width: Width) -> usize
    ensures { result ≡ len / width_of width }
{
    match width {
        Width::One => len,
        Width::Two => len / 2,
        Width::Four => len / 4,
        Width::Eight => len / 8,
    }
}

// Four bytes as a little-endian number: a sum that the compiler turns into one load.
fn four(a: u8, b: u8, c: u8, d: u8) -> u32
    ensures { result ≡ le_value (a ∷ b ∷ c ∷ d ∷ []) }
{
    (a as u32) + 256 * ((b as u32) + 256 * ((c as u32) + 256 * (d as u32)))
}

// A number of four bytes, turned round: sums that the compiler knows as a swap.
#[tactic(auto, unfolding(crate::specs::Bytes::little, crate::specs::Bytes::bytes_of))]
fn turned(v: u32) -> u32
    ensures { result ≡ value true (bytes_of false 4 v) }
{
    let second = v / 256;
    let third = second / 256;
    let fourth = third / 256;
    four(
        (fourth % 256) as u8,
        (third % 256) as u8,
        (second % 256) as u8,
        (v % 256) as u8,
    )
}

// The number of four bytes that are there: one load, and a swap where it is big-endian.
fn four_in(s: &[u8], at: usize, big: bool) -> u32
    requires { at + 4 ≤ length s.now }
    ensures { result ≡ value big (take 4 (drop at s.now)) }
{
    let v = four(s[at], s[at + 1], s[at + 2], s[at + 3]);
    if big { turned(v) } else { v }
}

// The number of two halves, each of which is below unit.
fn joined(first: u64, second: u64, unit: u64, big: bool) -> u64
    requires { (first < unit) × (second < unit) × (unit ≤ 2 ^ 32) }
    ensures { result ≡ halves big unit first second }
{
    if big {
        second + unit * first
    } else {
        first + unit * second
    }
}

// The number of eight bytes that are there: again one load, and a swap.
fn eight_in(s: &[u8], at: usize, big: bool) -> u64
    requires { at + 8 ≤ length s.now }
    ensures { result ≡ value big (take 8 (drop at s.now)) }
{
    let first = four_in(s, at, false) as u64;
    let second = four_in(s, at + 4, false) as u64;
    let v = joined(first, second, 4294967296, false);
    if big {
        let low = turned((v % 4294967296) as u32) as u64;
        let high = turned((v / 4294967296) as u32) as u64;
        high + 4294967296 * low
    } else {
        v
    }
}

// The number of a field that is wholly there, for callers that know that it is.
pub fn value_in(s: &[u8], at: usize, width: Width, big: bool) -> u64
    requires { at + width_of width ≤ length s.now }
    ensures { result ≡ value big (take (width_of width) (drop at s.now)) }
{
    match width {
        Width::One => s[at] as u64,
        Width::Two => joined(s[at] as u64, s[at + 1] as u64, 256, big),
        Width::Four => four_in(s, at, big) as u64,
        Width::Eight => eight_in(s, at, big),
    }
}

// A number at a place, where it is wholly there.
#[tactic(auto, unfolding(reading::specs::Reading::run, crate::specs::Value::number))]
pub fn number_at(s: &[u8], at: usize, width: Width, big: bool) -> Read<u64>
    ensures { as_answer result ≡ run (number (width_of width) big) s.now at }
{
    let w = bytes_in(width);
    if s.len() < w || s.len() - w < at {
        return Err(Refusal {
            why: Reason::CutOff,
            place: at,
        });
    }
    Ok((value_in(s, at, width, big), at + w))
}

// The w lowest bytes of v, at the front of out.
fn put_bytes(out: &mut [u8], v: u64, w: usize, big: bool) -> usize
    requires { w ≤ length out.old }
    ensures value { result ≡ w }
    ensures wrote { Wrote (bytes_of big w v) out.old out.new result }
{
    let mut rest = v;
    for i in (0..w).rev() {
        let to = if big { i } else { w - 1 - i };
        out[to] = (rest % 256) as u8;
        rest /= 256;
    }
    w
}

// A number at the front of out. Answers its count of bytes.
pub fn put_number(out: &mut [u8], v: u64, width: Width, big: bool) -> usize
    requires { width_of width ≤ length out.old }
    ensures value { result ≡ width_of width }
    ensures wrote { Wrote (bytes_of big (width_of width) v) out.old out.new result }
{
    put_bytes(out, v, bytes_in(width), big)
}

// The bytes of src at the front of out. Answers their count.
pub fn copy_bytes(out: &mut [u8], src: &[u8]) -> usize
    requires { length src.now ≤ length out.old }
    ensures value { result ≡ length src.now }
    ensures wrote { Wrote src.now out.old out.new result }
{
    // Not `copy_from_slice`: it would make the archive need `memmove` besides `memcpy` and `memset`.
    for (i, &b) in src.iter().enumerate() {
        out[i] = b;
    }
    src.len()
}

// So many zeros at the front of out. Answers the count.
pub fn put_zeros(out: &mut [u8], n: usize) -> usize
    requires { n ≤ length out.old }
    ensures value { result ≡ n }
    ensures wrote { Wrote (replicate n 0) out.old out.new result }
{
    out[..n].fill(0);
    n
}

// Whether one text comes before another, of which neither is long, one byte after the other.
fn short_comes_before(a: &[u8], b: &[u8]) -> bool
    ensures { result ≡ before a.now b.now }
{
    for (i, &byte) in a.iter().enumerate() {
        if b.len() <= i {
            return false;
        }
        if byte != b[i] {
            return byte < b[i];
        }
    }
    a.len() < b.len()
}

// The same of texts that begin alike: `cmp` passes equal bytes in groups. Not inlined, because it is
// rare, and would make its caller long.
#[tactic(auto, using(crate::proofs::Order::before_std))]
#[inline(never)]
fn like_comes_before(a: &[u8], b: &[u8]) -> bool
    ensures { result ≡ before a.now b.now }
{
    a.cmp(b).is_lt()
}

// Whether one text comes before another, byte by byte; the front of a text comes before it. Most
// texts differ early: of eight bytes and more, the first eight are compared as a number.
pub fn comes_before(a: &[u8], b: &[u8]) -> bool
    ensures { result ≡ before a.now b.now }
{
    if a.len() < 8 || b.len() < 8 {
        return short_comes_before(a, b);
    }
    let first = eight_in(a, 0, true);
    let second = eight_in(b, 0, true);
    if first != second {
        return first < second;
    }
    like_comes_before(a, b)
}
