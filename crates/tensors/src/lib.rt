// Tensors of a header, read at a place as the format says (specs/Format.antt), and their rows.
//
// `read_tensor` tests everything. The steps after it read a tensor again that was accepted before,
// and test nothing.
#![tactic(auto)]

ghost use Rattle.std.specs.Prelude.{◌*◌, ◌+◌, ◌≤◌, length, true, [], ◌≡◌};
ghost use Rattle.kinds.specs.Shape.{products_fit, size_within};
ghost use Rattle.reading.specs.Ceilings.{under};
ghost use Rattle.reading.specs.Reading.{accepted, is_accepted, run};
ghost use Rattle.reading.specs.Replies.{as_answer};
ghost use Rattle.tensors.specs.Format.{lengths};
ghost use Rattle.tensors.specs.Rows.{tensor_row};
ghost use Rattle.tensors.specs.Steps.{length_in, in_order_of, after_name, shape_in, tensor_of};
ghost use Rattle.values.specs.Format.{text};
ghost use Rattle.tensors.specs.Format as format;
ghost use Rattle.tensors.specs.Rows as rows;

use fields::Width;
use reading::{Limits, Read, Reason, Refusal};
use rows::TensorRow;
use values::{Dialect, Span};

// The stated count of dimensions, and four lengths, of which those beyond the count are 1.
#[derive(Clone, Copy)]
pub struct Shape {
    pub dimensions: u64,
    pub first: u64,
    pub second: u64,
    pub third: u64,
    pub fourth: u64,
}

// A tensor's kind, and the offset of its data from the data's start.
#[derive(Clone, Copy)]
pub struct KindAndOffset {
    pub kind: u64,
    pub offset: u64,
}

// A tensor. Its parameters are the product of its lengths.
#[derive(Clone, Copy)]
pub struct Tensor {
    pub name: Span,
    pub shape: Shape,
    pub kind: u64,
    pub offset: u64,
    pub parameters: u64,
    pub size: u64,
}

// What stands after a tensor's name, and the place after it.
#[derive(Clone, Copy)]
pub struct AfterName {
    pub shape: Shape,
    pub kind: u64,
    pub offset: u64,
    pub next: usize,
}

// The length at the place i of a shape of n dimensions.
#[tactic(auto, unfolding(crate::specs::Format::length_at, reading::specs::Reading::run))]
fn read_length(s: &[u8], at: usize, dialect: Dialect, n: u64, i: u64) -> Read<u64>
    ensures { as_answer result ≡ run (format.length_at dialect n i) s.now at }
{
    if i < n {
        fields::number_at(s, at, Width::Eight, dialect.big)
    } else {
        Ok((1, at))
    }
}

// The four lengths of a shape of n dimensions.
#[tactic(auto, using(reading::proofs::RunLaws::run_bind), unfolding(crate::specs::Format::lengths_of, reading::specs::Reading::run, reading::specs::Reading::and_then))]
pub fn read_lengths(s: &[u8], at: usize, dialect: Dialect, n: u64) -> Read<Shape>
    ensures { as_answer result ≡ run (format.lengths_of dialect n) s.now at }
{
    let (first, at) = read_length(s, at, dialect, n, 0)?;
    let (second, at) = read_length(s, at, dialect, n, 1)?;
    let (third, at) = read_length(s, at, dialect, n, 2)?;
    let (fourth, next) = read_length(s, at, dialect, n, 3)?;
    Ok((
        Shape {
            dimensions: n,
            first,
            second,
            third,
            fourth,
        },
        next,
    ))
}

// The count of dimensions, and four lengths.
#[tactic(auto, using(reading::proofs::RunLaws::run_bind), unfolding(crate::specs::Format::shape, reading::specs::Reading::here, reading::specs::Reading::run, reading::specs::Reading::and_then))]
#[inline(always)]
fn read_shape(s: &[u8], at: usize, dialect: Dialect) -> Read<Shape>
    ensures { as_answer result ≡ run (format.shape dialect) s.now at }
{
    let (n, lengths_at) = fields::number_at(s, at, Width::Four, dialect.big)?;
    if 4 < n {
        return Err(Refusal {
            why: Reason::TooManyDimensions,
            place: at,
        });
    }
    read_lengths(s, lengths_at, dialect, n)
}

// The kind and the offset; the kind is judged once both are read.
#[tactic(auto, using(crate::proofs::Steps::steps), unfolding(crate::specs::Format::kind_and_offset, reading::specs::Reading::here, reading::specs::Reading::run, reading::specs::Reading::and_then, reading::specs::Ceilings::under))]
fn read_kind_and_offset(
    s: &[u8],
    at: usize,
    dialect: Dialect,
    limits: Limits,
) -> Read<KindAndOffset>
    ensures { as_answer result ≡ run (under limits (format.kind_and_offset dialect)) s.now at }
{
    let (kind, offset_at) = fields::number_at(s, at, Width::Four, dialect.big)?;
    let (offset, next) = fields::number_at(s, offset_at, Width::Eight, dialect.big)?;
    if !kinds::is_known(kind) {
        return Err(Refusal {
            why: Reason::UnknownKind,
            place: at,
        });
    }
    if limits.kinds < kind {
        return Err(Refusal {
            why: Reason::KindAboveCeiling,
            place: at,
        });
    }
    Ok((KindAndOffset { kind, offset }, next))
}

// The tensor of what was read, where its first length is whole blocks, and its products, its size
// and the new total fit.
#[inline(always)]
fn fitting_tensor(
    at: usize,
    total: u64,
    name: Span,
    shape: Shape,
    stored: KindAndOffset,
    next: usize,
) -> Read<Tensor>
    ensures { as_answer result ≡ run (format.fitting at total name shape stored) [] next }
{
    let kind = stored.kind;
    let refusal = |why| Refusal { why, place: at };
    if !kinds::whole_blocks(shape.first, kind) {
        return Err(refusal(Reason::PartialBlock));
    }
    let lengths = [shape.first, shape.second, shape.third, shape.fourth];
    let parameters = kinds::product(lengths).ok_or(refusal(Reason::ProductOverflow))?;
    if !kinds::fits(parameters, kind) {
        return Err(refusal(Reason::SizeOverflow));
    }
    if total.checked_add(parameters).is_none() {
        return Err(refusal(Reason::TotalOverflow));
    }
    let tensor = Tensor {
        name,
        shape,
        kind,
        offset: stored.offset,
        parameters,
        size: kinds::known_size(parameters, kind),
    };
    Ok((tensor, next))
}

// A tensor, where the products of those before it come to total.
// Inlined with its parts, because a tensor costs a third more through a call.
#[tactic(auto, using(crate::proofs::Steps::steps), unfolding(crate::specs::Format::tensor, reading::specs::Reading::here, reading::specs::Reading::run, reading::specs::Reading::and_then, reading::specs::Ceilings::under))]
#[inline(always)]
pub fn read_tensor(
    s: &[u8],
    at: usize,
    dialect: Dialect,
    total: u64,
    limits: Limits,
) -> Read<Tensor>
    ensures { as_answer result ≡ run (under limits (format.tensor dialect total)) s.now at }
{
    let (name, shape_at) = values::read_string(s, at, dialect)?;
    let (shape, kind_at) = read_shape(s, shape_at, dialect)?;
    let (stored, next) = read_kind_and_offset(s, kind_at, dialect, limits)?;
    fitting_tensor(at, total, name, shape, stored, next)
}

// A tensor's row.
pub fn tensor_row(tensor: Tensor) -> TensorRow
    ensures { result ≡ rows.tensor_row tensor }
{
    let name = tensor.name;
    let x = tensor.shape;
    [
        name.place as u64,
        name.len as u64,
        tensor.kind,
        x.dimensions,
        x.first,
        x.second,
        x.third,
        x.fourth,
        tensor.offset,
        tensor.size,
    ]
}

// The name of a tensor that is there.
pub fn known_name(s: &[u8], at: usize, version: u64, big: bool) -> Span
    requires { is_accepted (run (text (in_order_of version big)) s.now at) ≡ true }
    ensures { accepted result (result.place + result.len) ≡ run (text (in_order_of version big)) s.now at }
{
    if version == 1 {
        Span {
            place: at + 4,
            len: fields::value_in(s, at, Width::Four, big) as usize,
        }
    } else {
        Span {
            place: at + 8,
            len: fields::value_in(s, at, Width::Eight, big) as usize,
        }
    }
}

// The length i of a shape of n dimensions, of which the first stands at at.
fn known_length(s: &[u8], at: usize, big: bool, n: u64, i: u64) -> u64
    requires { at + 8 * n ≤ length s.now }
    ensures { result ≡ length_in s.now at big n i }
{
    if i < n {
        fields::value_in(s, at + 8 * (i as usize), Width::Eight, big)
    } else {
        1
    }
}

// The shape of n dimensions, of which the first length stands at at.
pub fn known_shape(s: &[u8], at: usize, big: bool, n: u64) -> Shape
    requires { at + 8 * n ≤ length s.now }
    ensures { result ≡ shape_in s.now at big n }
{
    Shape {
        dimensions: n,
        first: known_length(s, at, big, n, 0),
        second: known_length(s, at, big, n, 1),
        third: known_length(s, at, big, n, 2),
        fourth: known_length(s, at, big, n, 3),
    }
}

// What stands after the name of a tensor that is there.
pub fn known_after_name(s: &[u8], at: usize, big: bool) -> AfterName
    requires { is_accepted (run (after_name big) s.now at) ≡ true }
    ensures { accepted result result.next ≡ run (after_name big) s.now at }
{
    let n = fields::value_in(s, at, Width::Four, big);
    let from = at + 4;
    let to = from + 8 * (n as usize);
    AfterName {
        shape: known_shape(s, from, big, n),
        kind: fields::value_in(s, to, Width::Four, big),
        offset: fields::value_in(s, to + 4, Width::Eight, big),
        next: to + 12,
    }
}

// The row of a tensor of which all is known to fit.
pub fn known_row(name: Span, again: AfterName) -> TensorRow
    requires shape_value { products_fit (lengths again.shape) ≡ true }
    requires kind_value { size_within (lengths again.shape) again.kind ≡ true }
    ensures { result ≡ tensor_row (tensor_of name again) }
{
    let x = again.shape;
    let parameters = kinds::known_product([x.first, x.second, x.third, x.fourth]);
    tensor_row(Tensor {
        name,
        shape: x,
        kind: again.kind,
        offset: again.offset,
        parameters,
        size: kinds::known_size(parameters, again.kind),
    })
}
