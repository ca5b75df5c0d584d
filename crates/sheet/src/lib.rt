// The record sheet: metadata entries with ascending keys and then tensors, from which a header is
// written.
//
// `check` answers whether a sheet is well formed and how many records it has; `entry_at` and
// `tensor_at` tell where the parts of one entry are, and `known_entry` those of an entry that was
// checked before, with no test. Reading a sheet copies nothing: keys, names and values are places
// in it.
#![tactic(auto)]

ghost use Rattle.std.specs.Prelude.{◌≡◌, true, ◌+◌, ◌≤◌, ◌<◌, length, Some};
ghost use Rattle.reading.specs.Reading.{run, seen, is_accepted};
ghost use Rattle.reading.specs.Each.{times};
ghost use Rattle.fields.specs.Value.{width_of};
ghost use Rattle.reading.specs.Replies.{as_answer};
ghost use Rattle.scalars.specs.Scalars.{scalar_width};
ghost use Rattle.values.specs.Contents.{inside_of};
ghost use Rattle.sheet.specs.Format as format;
ghost use Rattle.sheet.specs.Sheet as sheet;
ghost use Rattle.sheet.specs.Steps.{count_of, opened_of, shape_of, step_of};

use fields::Width;
use reading::{Read, Reason, Refusal};
use tensors::Shape;
use values::{Dialect, Span};

// A metadata entry: its key, the number of its type, and the place of its value.
#[derive(Clone, Copy)]
pub struct EntryParts {
    pub key: Span,
    pub form: u64,
    pub value: usize,
}

// A tensor: its name, its kind and its shape.
#[derive(Clone, Copy)]
pub struct TensorParts {
    pub name: Span,
    pub kind: u64,
    pub shape: Shape,
}

// How many metadata entries and how many tensors a sheet has, and where its tensors begin.
#[derive(Clone, Copy)]
pub struct Counts {
    pub entries: usize,
    pub tensors: usize,
    pub first: usize,
}

// A text of n bytes.
#[tactic(auto, using(crate::proofs::Steps::steps), unfolding(crate::specs::Format::text_of, crate::specs::Format::bytes, reading::specs::Reading::here, reading::specs::Reading::run, reading::specs::Reading::and_then))]
fn text_of(s: &[u8], at: usize, n: u64) -> Option<(Span, usize)>
    ensures { result ≡ sheet.span_of (run (format.text_of n) s.now at) }
{
    if 1073741824 < n {
        return None;
    }
    let len = n as usize;
    if s.len() < len || s.len() - len < at {
        return None;
    }
    Some((Span { place: at, len }, at + len))
}

// A length and a text.
#[tactic(auto, using(crate::proofs::Steps::steps), unfolding(crate::specs::Format::text, reading::specs::Reading::and_then))]
pub fn text_at(s: &[u8], at: usize) -> Option<(Span, usize)>
    ensures { result ≡ sheet.span_of (run format.text s.now at) }
{
    let (n, first) = fields::number_at(s, at, Width::Four, true).ok()?;
    text_of(s, first, n)
}

// A scalar of the type t: a bool is 0 or 1.
#[tactic(auto, using(crate::proofs::Steps::steps), unfolding(crate::specs::Format::scalar, reading::specs::Reading::run, reading::specs::Reading::and_then))]
fn scalar_at(s: &[u8], at: usize, t: u64, width: Width) -> Read<u64>
    requires { width_of width ≡ scalar_width t }
    ensures { as_answer result ≡ run (format.scalar t) s.now at }
{
    let (value, next) = fields::number_at(s, at, width, true)?;
    if t == 7 && 1 < value {
        return Err(Refusal {
            why: Reason::BadSheet,
            place: 0,
        });
    }
    Ok((value, next))
}

// An item of an array, passed, which is no array.
#[tactic(auto, using(crate::proofs::SheetItems::item_steps), unfolding(reading::specs::Reading::and_then))]
fn pass_item(s: &[u8], at: usize, t: u64) -> Option<usize>
    ensures { result ≡ step_of (run (format.item 1 t) s.now at) }
{
    if let Some(width) = scalars::scalar_width(t) {
        let (_, next) = scalar_at(s, at, t, width).ok()?;
        return Some(next);
    }
    if t != 8 {
        return None;
    }
    let (_, next) = text_at(s, at)?;
    Some(next)
}

// Passes n items of the type t, which are no arrays.
#[tactic(auto, using(crate::proofs::Steps::turns))]
fn pass_items(s: &[u8], at: usize, n: u64, t: u64) -> Option<usize>
    ensures { result ≡ step_of (run (times n (format.item 1 t)) s.now at) }
{
    // pass_arrays has such a loop too. A function for both would take the step, and its contract
    // would have to say what any step reads: no plainer.
    let mut from = at;
    for _ in 0..n {
        from = pass_item(s, from, t)?;
    }
    Some(from)
}

// Whether the items of an array in which depth more may stand in one another may be of the type t.
fn is_item_type(depth: u64, t: u64) -> bool
    ensures { result ≡ format.item_type depth t }
{
    if t == 9 { 0 < depth } else { t <= 12 }
}

// An array, passed, in which, itself counted, depth arrays may stand in one another. It and
// `pass_arrays` call each other at most depth times, so that depth bounds their stack.
#[cycle(arrays)]
#[tactic(auto, using(crate::proofs::SheetArrays::array_steps))]
pub fn pass_array(s: &[u8], at: usize, depth: u64) -> Option<usize>
    ensures { result ≡ step_of (run (format.array depth (format.item depth)) s.now at) }
{
    if depth == 0 {
        return None;
    }
    let (t, p) = fields::number_at(s, at, Width::One, true).ok()?;
    if !is_item_type(depth - 1, t) {
        return None;
    }
    let (n, first) = fields::number_at(s, p, Width::Four, true).ok()?;
    if t == 9 {
        return pass_arrays(s, first, n, depth - 1);
    }
    pass_items(s, first, n, t)
}

// Passes n arrays, in each of which, itself counted, depth arrays may stand in one another.
#[cycle(arrays)]
#[tactic(auto, using(crate::proofs::Steps::turns))]
fn pass_arrays(s: &[u8], at: usize, n: u64, depth: u64) -> Option<usize>
    ensures { result ≡ step_of (run (times n (format.array depth (format.item depth))) s.now at) }
{
    let mut from = at;
    for _ in 0..n {
        from = pass_array(s, from, depth)?;
    }
    Some(from)
}

// The value of the type t of an entry that ends at end, passed.
#[tactic(auto, using(crate::proofs::SheetItems::value_steps), unfolding(reading::specs::Reading::and_then))]
fn pass_value(s: &[u8], at: usize, end: usize, t: u64) -> Option<usize>
    ensures { result ≡ step_of (run (format.value end t) s.now at) }
{
    if let Some(width) = scalars::scalar_width(t) {
        let (_, next) = scalar_at(s, at, t, width).ok()?;
        return Some(next);
    }
    if t == 9 {
        return pass_array(s, at, 4);
    }
    if t != 8 {
        return None;
    }
    let (_, next) = text_of(s, at, end.saturating_sub(at) as u64)?;
    Some(next)
}

// Where the body of an entry of that tag begins and ends.
#[tactic(auto, using(crate::proofs::Steps::opening_steps), unfolding(crate::specs::Format::opening, reading::specs::Reading::here, reading::specs::Reading::run, reading::specs::Reading::and_then))]
fn body_at(s: &[u8], at: usize, tag: u64) -> Option<(usize, usize)>
    ensures { result ≡ opened_of (length s.now) (run (format.opening tag) s.now at) }
{
    let (n, p) = fields::number_at(s, at, Width::Four, true).ok()?;
    let (t, from) = fields::number_at(s, p, Width::One, true).ok()?;
    if t != tag || ((s.len() - p) as u64) < n {
        return None;
    }
    Some((from, p + (n as usize)))
}

// A key, a type and a value, up to the entry's end.
#[tactic(auto, using(crate::proofs::Steps::steps), unfolding(crate::specs::Format::entry_body, reading::specs::Reading::here, reading::specs::Reading::run, reading::specs::Reading::and_then))]
fn entry_body_at(s: &[u8], at: usize, end: usize) -> Option<(EntryParts, usize)>
    ensures { result ≡ sheet.entry_of (run (format.entry_body end) s.now at) }
{
    let (key, p) = text_at(s, at)?;
    let (form, value) = fields::number_at(s, p, Width::One, true).ok()?;
    let next = pass_value(s, value, end, form)?;
    Some((EntryParts { key, form, value }, next))
}

// The metadata entry at a place: where its parts are, and the place after it.
#[tactic(auto, using(crate::proofs::Frames::frame_steps), unfolding(crate::specs::Format::metadata, crate::specs::Format::framed, reading::specs::Reading::here, reading::specs::Reading::run, reading::specs::Reading::and_then))]
pub fn entry_at(s: &[u8], at: usize) -> Option<(EntryParts, usize)>
    ensures { result ≡ sheet.entry_of (run format.metadata s.now at) }
{
    let (from, end) = body_at(s, at, 1)?;
    let (parts, next) = entry_body_at(s, from, end)?;
    if next != end {
        return None;
    }
    Some((parts, next))
}

// Where the parts of a metadata entry are that was checked before. It tests nothing and passes no
// value: the entry's own length says where it ends.
pub fn known_entry(s: &[u8], at: usize) -> (EntryParts, usize)
    requires { is_accepted (run format.metadata s.now at) ≡ true }
    ensures { Some result ≡ sheet.entry_of (run format.metadata s.now at) }
{
    let n = fields::value_in(s, at, Width::Four, true);
    let len = fields::value_in(s, at + 5, Width::Four, true) as usize;
    let place = at + 9;
    let to = place + len;
    let parts = EntryParts {
        key: Span { place, len },
        form: fields::value_in(s, to, Width::One, true),
        value: to + 1,
    };
    (parts, at + 4 + (n as usize))
}

// The count of dimensions, and four lengths.
#[tactic(auto, using(crate::proofs::Steps::steps), unfolding(crate::specs::Format::shape, reading::specs::Reading::run, reading::specs::Reading::and_then))]
fn shape_at(s: &[u8], at: usize) -> Option<(Shape, usize)>
    ensures { result ≡ shape_of (run format.shape s.now at) }
{
    let dialect = Dialect {
        version: 3,
        big: true,
        turned: false,
    };
    let (n, p) = fields::number_at(s, at, Width::One, true).ok()?;
    if 4 < n {
        return None;
    }
    tensors::read_lengths(s, p, dialect, n).ok()
}

// A name, a kind and a shape.
#[tactic(auto, using(crate::proofs::Steps::steps), unfolding(crate::specs::Format::tensor_body, reading::specs::Reading::run, reading::specs::Reading::and_then))]
fn tensor_body_at(s: &[u8], at: usize) -> Option<(TensorParts, usize)>
    ensures { result ≡ sheet.tensor_of (run format.tensor_body s.now at) }
{
    let (name, p) = text_at(s, at)?;
    let (kind, q) = fields::number_at(s, p, Width::Four, true).ok()?;
    let (shape, next) = shape_at(s, q)?;
    Some((TensorParts { name, kind, shape }, next))
}

// The tensor at a place: its name's place, its kind and its shape, and the place after it.
#[tactic(auto, using(crate::proofs::Frames::frame_steps), unfolding(crate::specs::Format::tensor, crate::specs::Format::framed, reading::specs::Reading::here, reading::specs::Reading::run, reading::specs::Reading::and_then))]
pub fn tensor_at(s: &[u8], at: usize) -> Option<(TensorParts, usize)>
    ensures { result ≡ sheet.tensor_of (run format.tensor s.now at) }
{
    let (from, stop) = body_at(s, at, 2)?;
    let (parts, next) = tensor_body_at(s, from)?;
    if next != stop {
        return None;
    }
    Some((parts, next))
}

// Whether a key comes after the one before it.
fn key_follows(s: &[u8], last: Option<Span>, key: Span) -> bool
    ensures { result ≡ sheet.follows (sheet.last_in s.now last) (inside_of s.now key) }
{
    match last {
        None => true,
        Some(span) => fields::comes_before(values::inside(s, span), values::inside(s, key)),
    }
}

// The metadata entry at a place, whose key comes after the last one.
#[tactic(auto, using(crate::proofs::ManyEntries::next_steps), unfolding(crate::specs::Sheet::next, reading::specs::Reading::run, reading::specs::Reading::and_then))]
fn next_entry(s: &[u8], at: usize, last: Option<Span>) -> Option<(EntryParts, usize)>
    ensures { result ≡ sheet.entry_of (run (sheet.next (sheet.last_in s.now last)) s.now at) }
{
    let (parts, next) = entry_at(s, at)?;
    if !key_follows(s, last, parts.key) {
        return None;
    }
    Some((parts, next))
}

// Whether the entry at a place has the tag of metadata.
fn is_metadata(s: &[u8], at: usize) -> bool
    ensures { result ≡ sheet.is_metadata s.now at }
{
    matches!(s.get(at..), Some([_, _, _, _, 1, ..]))
}

// Counts the metadata entries, which begin after the version byte.
#[tactic(auto, using(crate::proofs::ManyEntries::entries_steps), unfolding(crate::specs::Sheet::entries_from))]
fn check_entries(s: &[u8]) -> Result<(usize, usize), usize>
    ensures { result ≡ count_of (sheet.entries_from s.now 1) }
{
    let mut from: usize = 1;
    let mut last = None;
    let mut count: usize = 0;
    // A `while`: only the entries themselves tell how many there are.
    while is_metadata(s, from) {
        let (parts, next) = next_entry(s, from, last).ok_or(from)?;
        last = Some(parts.key);
        from = next;
        count += 1;
    }
    Ok((count, from))
}

// Counts the tensors, up to the sheet's end.
#[tactic(auto, using(crate::proofs::ManyEntries::tensors_steps), unfolding(crate::specs::Sheet::tensors_from))]
fn check_tensors(s: &[u8], at: usize) -> Result<(usize, usize), usize>
    ensures { result ≡ count_of (sheet.tensors_from s.now at) }
{
    let mut from = at;
    let mut count: usize = 0;
    // A `while`: only the tensors themselves tell how many there are.
    while from < s.len() {
        let (_, next) = tensor_at(s, from).ok_or(from)?;
        from = next;
        count += 1;
    }
    Ok((count, from))
}

// Whether a sheet is well formed: how many records it has and where its tensors begin, or its first
// bad entry.
#[tactic(auto, using(std::proofs::lemmas::Bool::Decides::nat_tests), unfolding(crate::specs::Sheet::sheet_of, reading::specs::Reading::and_then))]
pub fn check(s: &[u8]) -> Result<Counts, usize>
    ensures { result ≡ sheet.checked_of (sheet.sheet_of s.now) }
{
    if s.first() != Some(&1) {
        return Err(0);
    }
    let (entries, first) = check_entries(s)?;
    let (tensors, _) = check_tensors(s, first)?;
    Ok(Counts {
        entries,
        tensors,
        first,
    })
}
