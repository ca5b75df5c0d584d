// Texts, keys, values, arrays and entries of a header, read at a place, each as the format says
// (specs/Format.antt).
//
// Every step takes the bytes and a place and answers what stands there with the place after it, or
// a refusal: why, and a place. Any slice, any place and any dialect gets an answer. Nothing is
// copied, and no byte of a text is looked at but where a key is compared.
//
// Arrays stand in one another: `read_array`, `pass_items` and `read_value_of` call one another, and
// the depth falls. What is no array is plain, and is read and passed outside that cycle
// (`read_plain`, `pass_plain`).
#![tactic(auto)]

ghost use Rattle.std.specs.Prelude.{ℕ, ◌+◌, ◌<◌, ◌≤◌, drop, length, take, ◌≡◌};
ghost use Rattle.fields.specs.Value.{number};
ghost use Rattle.reading.specs.Each.{times};
ghost use Rattle.reading.specs.Reading.{Reading, passed, run};
ghost use Rattle.reading.specs.Replies.{as_answer, as_passed};
ghost use Rattle.scalars.specs.Scalars.{scalar_width};
ghost use Rattle.values.specs.Contents as contents;
ghost use Rattle.values.specs.Format as format;
ghost use Rattle.values.specs.Rows as rows;

use fields::Width;
use reading::{Read, Reason, Refusal};
use rows::EntryRow;
use scalars::Scalar;

// How a file is written: its version; whether its numbers are big-endian; and whether its magic is
// turned round as well, as in one of the two big-endian forms. No record depends on that.
#[derive(Clone, Copy)]
pub struct Dialect {
    pub version: u64,
    pub big: bool,
    pub turned: bool,
}

// Where the bytes of a text are.
#[derive(Clone, Copy)]
pub struct Span {
    pub place: usize,
    pub len: usize,
}

// A key: where it is, whether it is "general.alignment", and whether it starts with "tokenizer.".
#[derive(Clone, Copy)]
pub struct Key {
    pub span: Span,
    pub is_alignment: bool,
    pub is_tokenizer: bool,
}

// An array: the type of its items, how many there are and how many are kept, and the place of the
// first.
#[derive(Clone, Copy)]
pub struct ArraySpan {
    pub item: u64,
    pub count: u64,
    pub kept: u64,
    pub first: usize,
}

#[derive(Clone, Copy)]
pub enum Value {
    Single(Scalar),
    Text(Span),
    Array(ArraySpan),
}

#[derive(Clone, Copy)]
pub struct Entry {
    pub key: Span,
    pub is_alignment: bool,
    pub value: Value,
}

// A size: of a text, an array, or one of the two lists of records.
#[tactic(auto, using(std::proofs::lemmas::Bool::Decides::nat_tests), unfolding(crate::specs::Format::size))]
pub fn read_version_size(s: &[u8], at: usize, dialect: Dialect) -> Read<u64>
    ensures { as_answer result ≡ run (format.size dialect) s.now at }
{
    // Each width stands in its call: so the compiler has one load for each.
    if dialect.version == 1 {
        fields::number_at(s, at, Width::Four, dialect.big)
    } else {
        fields::number_at(s, at, Width::Eight, dialect.big)
    }
}

// A text, of which no byte is looked at.
#[tactic(auto, using(crate::proofs::Texts::text_steps), unfolding(crate::specs::Format::text, crate::specs::Format::text_looking, reading::specs::Reading::here, reading::specs::Reading::run, reading::specs::Reading::and_then))]
pub fn read_string(s: &[u8], at: usize, dialect: Dialect) -> Read<Span>
    ensures { as_answer result ≡ run (format.text dialect) s.now at }
{
    let (size, place) = read_version_size(s, at, dialect)?;
    if 1073741824 < size {
        return Err(Refusal {
            why: Reason::StringTooLong,
            place: at,
        });
    }
    let len = size as usize;
    let end = place + len;
    if s.len() < end {
        return Err(Refusal {
            why: Reason::CutOff,
            place,
        });
    }
    Ok((Span { place, len }, end))
}

// Whether the bytes from a place on begin with those of word. Where there are fewer, they don't.
// Byte by byte: most keys differ early from the two words that are looked for in each.
pub fn begins_at(s: &[u8], place: usize, word: &[u8]) -> bool
    ensures { result ≡ format.begins word.now (drop place s.now) }
{
    if s.len() < word.len() || s.len() - word.len() < place {
        return word.is_empty();
    }
    for (i, &byte) in word.iter().enumerate() {
        if s[place + i] != byte {
            return false;
        }
    }
    true
}

// The part of s where a text is, and its empty front where that is not inside.
pub fn inside(s: &[u8], span: Span) -> &[u8]
    ensures { result.now ≡ contents.inside_of s.now span }
{
    s.get(span.place..)
        .and_then(|rest| rest.get(..span.len))
        .unwrap_or(&s[..0])
}

// Whether a text is "general.alignment".
pub fn is_alignment_key(text: &[u8]) -> bool
    ensures { result ≡ format.is_word format.alignment_key text.now }
{
    text.len() == 17 && begins_at(text, 0, b"general.alignment")
}

// Whether a text starts with "tokenizer.".
fn is_tokenizer_key(s: &[u8], span: Span) -> bool
    requires { span.place + span.len ≤ length s.now }
    ensures { result ≡ format.begins format.tokenizer_key (take 18 (take span.len (drop span.place s.now))) }
{
    10 <= span.len && begins_at(s, span.place, b"tokenizer.")
}

// A key, compared where it stands.
#[tactic(auto, using(crate::proofs::Texts::key_steps), unfolding(crate::specs::Format::key, reading::specs::Reading::and_then))]
fn read_key(s: &[u8], at: usize, dialect: Dialect) -> Read<Key>
    ensures { as_answer result ≡ run (format.key dialect) s.now at }
{
    let (span, next) = read_string(s, at, dialect)?;
    let is_alignment = is_alignment_key(inside(s, span));
    let is_tokenizer = is_tokenizer_key(s, span);
    Ok((
        Key {
            span,
            is_alignment,
            is_tokenizer,
        },
        next,
    ))
}

// A value's type, or an item's.
#[tactic(auto, using(crate::proofs::ValueForms::number_steps), unfolding(reading::specs::Reading::run, reading::specs::Reading::and_then))]
fn read_type(s: &[u8], at: usize, dialect: Dialect) -> Read<u64>
    ensures { as_answer result ≡ run (format.type dialect) s.now at }
{
    let (t, next) = fields::number_at(s, at, Width::Four, dialect.big)?;
    if 12 < t {
        return Err(Refusal {
            why: Reason::UnknownType,
            place: at,
        });
    }
    Ok((t, next))
}

// Passes n texts: every one is read.
#[tactic(auto, using(crate::proofs::Turns::turns), unfolding(reading::specs::Reading::seen))]
fn pass_texts(s: &[u8], at: usize, n: u64, dialect: Dialect) -> Result<usize, Refusal>
    ensures { as_passed result ≡ passed (run (times n (format.text dialect)) s.now at) }
{
    // pass_items has such a loop too. A function for both would take the step, and its contract would
    // have to say what any step reads: no plainer.
    let mut from = at;
    for _ in 0..n {
        from = read_string(s, from, dialect)?.1;
    }
    Ok(from)
}

// Passes n scalars of the type t in one step. What they say, in either byte order, is not asked for
// here: by their width the bytes that are left tell how many are there, and the first that is not
// stands behind those. The division comes before the product, so nothing can wrap, whatever n is.
#[tactic(auto, using(crate::proofs::ScalarsPassed::scalar_steps))]
fn pass_scalars(s: &[u8], at: usize, n: u64, dialect: Dialect, t: u64) -> Result<usize, Refusal>
    requires { 0 < scalar_width t }
    ensures { as_passed result ≡ passed (run (times n (number (scalar_width t) dialect.big)) s.now at) }
{
    let width = scalars::scalar_width(t).unwrap();
    let there = fields::numbers_in(s.len().saturating_sub(at), width) as u64;
    let end = at + there.min(n) as usize * fields::bytes_in(width);
    if there < n {
        return Err(Refusal {
            why: Reason::CutOff,
            place: end,
        });
    }
    Ok(end)
}

// Passes n items of the type t, which are no arrays: so the contract holds whatever reads an array,
// and wherever the type stands.
#[tactic(auto, using(crate::proofs::ValueForms::plain_steps))]
fn pass_plain(s: &[u8], at: usize, n: u64, dialect: Dialect, t: u64) -> Result<usize, Refusal>
    requires { (t ≤ 12) × (t ≡ 9 → ⊥) }
    ensures { (arrays : ℕ → Reading ArraySpan) (o : ℕ) → as_passed result ≡ passed (run (times n (format.value_of arrays dialect o t)) s.now at) }
{
    if t == 8 {
        pass_texts(s, at, n, dialect)
    } else {
        pass_scalars(s, at, n, dialect, t)
    }
}

// A value of the type t, which is no array: again whatever reads an array, and wherever the type
// stands.
#[tactic(auto, using(crate::proofs::ValueForms::value_steps), unfolding(reading::specs::Reading::and_then))]
fn read_plain(s: &[u8], at: usize, dialect: Dialect, t: u64) -> Read<Value>
    requires { (t ≤ 12) × (t ≡ 9 → ⊥) }
    ensures { (arrays : ℕ → Reading ArraySpan) (o : ℕ) → as_answer result ≡ run (format.value_of arrays dialect o t) s.now at }
{
    if t == 8 {
        let (span, next) = read_string(s, at, dialect)?;
        return Ok((Value::Text(span), next));
    }
    let (bits, next) = scalars::read_scalar(s, at, t, dialect.big)?;
    Ok((Value::Single(scalars::scalar_of(t, bits)), next))
}

// An array whose own type stands at o, where depth arrays may still stand in one another, itself
// counted. Where none may it is refused, at o: the item type of the array around it. The stack is
// bounded by depth: whatever is read inside an array is read at one depth less.
#[cycle(nested)]
#[tactic(auto, using(crate::proofs::ArrayForms::array_steps))]
fn read_array(s: &[u8], at: usize, dialect: Dialect, o: usize, depth: u64) -> Read<ArraySpan>
    ensures { as_answer result ≡ run (format.array depth dialect o) s.now at }
{
    if depth == 0 {
        return Err(Refusal {
            why: Reason::NestedArray,
            place: o,
        });
    }
    let (item, p) = read_type(s, at, dialect)?;
    let (count, first) = read_version_size(s, p, dialect)?;
    let next = pass_items(s, first, count, dialect, item, at, depth - 1)?;
    Ok((
        ArraySpan {
            item,
            count,
            kept: count,
            first,
        },
        next,
    ))
}

// Passes n items of the type t, which stands at o, where depth arrays may still stand in one
// another: arrays are read, one after the other, and what is no array is passed without a call of
// the cycle.
#[cycle(nested)]
#[tactic(auto, using(crate::proofs::Turns::turns), unfolding(reading::specs::Reading::seen))]
fn pass_items(
    s: &[u8],
    at: usize,
    n: u64,
    dialect: Dialect,
    t: u64,
    o: usize,
    depth: u64,
) -> Result<usize, Refusal>
    requires { t ≤ 12 }
    ensures { as_passed result ≡ passed (run (times n (format.value_of (format.array depth dialect) dialect o t)) s.now at) }
{
    if t != 9 {
        return pass_plain(s, at, n, dialect, t);
    }
    let mut from = at;
    for _ in 0..n {
        from = read_value_of(s, from, dialect, t, o, depth)?.1;
    }
    Ok(from)
}

// A value of the type t, which stands at o, where depth arrays may still stand in one another.
#[cycle(nested)]
#[tactic(auto, using(crate::proofs::ValueForms::value_steps), unfolding(reading::specs::Reading::and_then))]
fn read_value_of(s: &[u8], at: usize, dialect: Dialect, t: u64, o: usize, depth: u64) -> Read<Value>
    requires { t ≤ 12 }
    ensures { as_answer result ≡ run (format.value_of (format.array depth dialect) dialect o t) s.now at }
{
    if t != 9 {
        return read_plain(s, at, dialect, t);
    }
    let (array, next) = read_array(s, at, dialect, o, depth)?;
    Ok((Value::Array(array), next))
}

// A type, and a value of it: arrays stand in one another four deep, the outermost counted. What is
// no array makes no call of the cycle. The test of the type stands here for that, as a literal: by
// it the compiler finds that the cycle is entered for arrays only, and scalars and texts stay fast.
#[tactic(auto, using(crate::proofs::ValueForms::type_steps), unfolding(crate::specs::Format::value, reading::specs::Reading::here, reading::specs::Reading::run, reading::specs::Reading::and_then))]
pub fn read_value(s: &[u8], at: usize, dialect: Dialect) -> Read<Value>
    ensures { as_answer result ≡ run (format.value dialect) s.now at }
{
    let (t, next) = read_type(s, at, dialect)?;
    if t != 9 {
        return read_plain(s, next, dialect, t);
    }
    read_value_of(s, next, dialect, t, at, 4)
}

// The value with its kept count: under a key that starts with "tokenizer." an array keeps at most
// cap items.
fn keeping(tokens: bool, cap: u64, value: Value) -> Value
    ensures { result ≡ format.keeping tokens cap value }
{
    match value {
        Value::Array(a) => {
            let kept = if tokens { cap.min(a.count) } else { a.count };
            Value::Array(ArraySpan { kept, ..a })
        }
        other => other,
    }
}

// An entry: a key and a value.
#[tactic(auto, using(reading::proofs::RunLaws::run_bind), unfolding(crate::specs::Format::entry, reading::specs::Reading::run, reading::specs::Reading::and_then))]
pub fn read_entry(s: &[u8], at: usize, dialect: Dialect, cap: u64) -> Read<Entry>
    ensures { as_answer result ≡ run (format.entry dialect cap) s.now at }
{
    let (key, p) = read_key(s, at, dialect)?;
    let (value, next) = read_value(s, p, dialect)?;
    let entry = Entry {
        key: key.span,
        is_alignment: key.is_alignment,
        value: keeping(key.is_tokenizer, cap, value),
    };
    Ok((entry, next))
}

// A value's type, and four words.
fn value_words(v: Value) -> [u64; 5]
    ensures { result ≡ rows.value_words v }
{
    match v {
        Value::Single(x) => {
            let [t, word] = scalars::scalar_words(x);
            [t, word, 0, 0, 0]
        }
        Value::Text(a) => [8, a.place as u64, a.len as u64, 0, 0],
        Value::Array(a) => [9, a.item, a.count, a.kept, a.first as u64],
    }
}

// An entry's row.
pub fn entry_row(entry: Entry) -> EntryRow
    ensures { result ≡ rows.entry_row entry }
{
    let key = entry.key;
    let [t, a, b, c, d] = value_words(entry.value);
    [key.place as u64, key.len as u64, t, a, b, c, d]
}
