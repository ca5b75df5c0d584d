// Questions that people ask of a header: the value of a key, the string of a key, the model's
// family, the file's type, a tensor by its name.
//
// Each takes every version and every kind of the format, and any count of records. The question for
// a tensor reads as far as that tensor. Any other reads the whole header, so that a bad tensor
// refuses the lookup of a good key. A string comes back as the part of the prefix that holds it.
#![tactic(auto)]

ghost use Rattle.std.specs.Prelude.{◌≡◌, ℕ, true, ◌+◌, ◌≤◌, length, None};
ghost use Rattle.reading.specs.Reading.{run, is_accepted};
ghost use Rattle.reading.specs.Each.{times, fold};
ghost use Rattle.reading.specs.Replies.{as_reply, reason_number};
ghost use Rattle.reading.specs.Back.{got};
ghost use Rattle.values.specs.Format.{is_word, entry};
ghost use Rattle.values.specs.Contents.{bytes_at};
ghost use Rattle.tensors.specs.Format.{total_of};
ghost use Rattle.lookup.specs.Questions as questions;
ghost use Rattle.lookup.specs.Refusals.{reply_by};
ghost use Rattle.lookup.specs.Search.{seek};
ghost use Rattle.lookup.specs.Tensors.{looked_tensor, tensor_found, tensor_lookup};

use reading::{Limits, Refusal};
use start::Rooms;
use tensors::Tensor;
use values::{Dialect, Entry, Span, Value};

// A tensor by its name, where one has it, and the number of tensors that were passed: up to that
// one, or all.
#[derive(Clone, Copy)]
pub struct TensorSearch {
    pub tensor: Option<Tensor>,
    pub passed: u64,
}

// The first word of a string question's status, beside refusals' numbers: a string, no such key,
// a value of another type.
pub const STATUS_STRING: u64 = 0;

pub const STATUS_ABSENT: u64 = 100;

pub const STATUS_OTHER_TYPE: u64 = 101;

// What a refusal tells: its number, and the place that it is about. A caller may put numbers of its
// own beside those that have a Reason, so what tells a refusal takes any.
pub trait Refuses: Copy {
    ghost number: { Self → ℕ };

    ghost place: { Self → ℕ };

    fn number(self) -> u64
        ensures { result ≡ number self };

    fn place(self) -> usize
        ensures { result ≡ place self };
}

impl Refuses for Refusal {
    ghost number = { λ refusal. reason_number refusal.why };

    ghost place = { λ refusal. refusal.place };

    fn number(self) -> u64 {
        self.why.number()
    }

    fn place(self) -> usize {
        self.place
    }
}

// Any number, and a place.
impl Refuses for (u64, usize) {
    ghost number = { λ told. told.0 };

    ghost place = { λ told. told.1 };

    fn number(self) -> u64 {
        self.0
    }

    fn place(self) -> usize {
        self.1
    }
}

// Whether a text is that key.
#[tactic(auto, using(values::proofs::Words::same_word))]
fn is_key(s: &[u8], span: Span, key: &[u8]) -> bool
    requires { span.place + span.len ≤ length s.now }
    ensures { result ≡ is_word key.now (bytes_at s.now span) }
{
    values::inside(s, span) == key
}

// The last of n entries that are all there whose key it is.
fn find_last(s: &[u8], at: usize, n: u64, dialect: Dialect, key: &[u8]) -> Option<Entry>
    requires { is_accepted (run (times n (entry dialect 3)) s.now at) ≡ true }
    ensures { result ≡ fold (questions.sought key.now s.now) None (got (run (times n (entry dialect 3)) s.now at)) }
{
    let mut from = at;
    let mut found = None;
    for _ in 0..n {
        // All are there, so that none is refused.
        let Ok((entry, next)) = values::read_entry(s, from, dialect, 3) else {
            return found;
        };
        if is_key(s, entry.key, key) {
            found = Some(entry);
        }
        from = next;
    }
    found
}

// The last entry of a key. The whole header is tested first, and then its entries are read again.
pub fn find(s: &[u8], key: &[u8]) -> Result<Option<Entry>, Refusal>
    ensures { as_reply result ≡ questions.lookup key.now s.now }
{
    let head = header::measure(s, Limits::FULL, 3, Rooms::ENOUGH)?;
    let dialect = head.dialect();
    let at = start::first_entry(dialect);
    Ok(find_last(s, at, head.entries, dialect, key))
}

// The string that a lookup found, as the part of the prefix that holds it; an empty part of it where
// that found none.
pub fn string_of<R: Refuses>(s: &[u8], found: Result<Option<Entry>, R>) -> &[u8]
    ensures { result.now ≡ questions.string_of s.now (reply_by R.number R.place found) }
{
    let Ok(Some(entry)) = found else {
        return &s[..0];
    };
    match entry.value {
        Value::Text(text) => values::inside(s, text),
        Value::Single(_) | Value::Array(_) => &s[..0],
    }
}

// The status of a string question: a string, 'absent', another type, or a refusal.
pub fn string_status<R: Refuses>(found: Result<Option<Entry>, R>) -> [u64; 2]
    ensures { result ≡ questions.string_status (reply_by R.number R.place found) }
{
    match found {
        Ok(Some(entry)) => match entry.value {
            Value::Text(_) => [STATUS_STRING, 0],
            Value::Single(_) | Value::Array(_) => [STATUS_OTHER_TYPE, 0],
        },
        Ok(None) => [STATUS_ABSENT, 0],
        Err(refusal) => [refusal.number(), refusal.place() as u64],
    }
}

// The string of a key, as a part of the prefix, and in status what an empty part means.
pub fn find_string<'a>(s: &'a [u8], key: &[u8], status: &mut [u64; 2]) -> &'a [u8]
    ensures result_value { result.now ≡ questions.string_of s.now (questions.lookup key.now s.now) }
    ensures status_after { status.new ≡ questions.string_status (questions.lookup key.now s.now) }
{
    let found = find(s, key);
    *status = string_status(found);
    string_of(s, found)
}

// The model's family: the string of "general.architecture".
pub fn model_family<'a>(s: &'a [u8], status: &mut [u64; 2]) -> &'a [u8]
    ensures result_value { result.now ≡ questions.string_of s.now (questions.lookup questions.architecture_key s.now) }
    ensures status_after { status.new ≡ questions.string_status (questions.lookup questions.architecture_key s.now) }
{
    find_string(s, b"general.architecture", status)
}

// The file type that a number says: the table has the numbers 0 to 24.
fn file_type_of(n: Option<u64>) -> Option<u64>
    ensures { result ≡ questions.file_type_of n }
{
    n.filter(|number| *number <= 24)
}

// The file's type, from what was found of "general.file_type".
fn file_type_in(found: Result<Option<Entry>, Refusal>) -> Result<Option<u64>, Refusal>
    ensures { as_reply result ≡ questions.file_type_in (as_reply found) }
{
    let Some(entry) = found? else {
        return Ok(None);
    };
    Ok(match entry.value {
        Value::Single(x) => file_type_of(scalars::natural_of(x)),
        Value::Text(_) | Value::Array(_) => None,
    })
}

// The file's type: a number of the table, or unknown, or the reader's refusal.
pub fn file_type(s: &[u8]) -> Result<Option<u64>, Refusal>
    ensures { as_reply result ≡ questions.file_type_in (questions.lookup questions.file_type_key s.now) }
{
    file_type_in(find(s, b"general.file_type"))
}

// The first of n tensors that has a name. No tensor after it is read.
fn seek_tensor(
    s: &[u8],
    at: usize,
    n: u64,
    dialect: Dialect,
    name: &[u8],
) -> Result<TensorSearch, Refusal>
    ensures { as_reply result ≡ tensor_found (run (seek (looked_tensor name.now dialect) total_of n 0 0) s.now at) }
{
    let mut from = at;
    let mut total = 0;
    for passed in 0..n {
        let (tensor, next) = tensors::read_tensor(s, from, dialect, total, Limits::FULL)?;
        if is_key(s, tensor.name, name) {
            return Ok(TensorSearch {
                tensor: Some(tensor),
                passed: passed + 1,
            });
        }
        total += tensor.parameters;
        from = next;
    }
    Ok(TensorSearch {
        tensor: None,
        passed: n,
    })
}

// The first tensor of a name. The entries are passed, and then the tensors up to that one: what
// stands after it is not looked at, and neither is what depends on the whole header, its alignment
// and the start of its data.
pub fn find_tensor(s: &[u8], name: &[u8]) -> Result<TensorSearch, Refusal>
    ensures { as_reply result ≡ tensor_lookup name.now s.now }
{
    let (start, p) = start::read_start(s, Limits::FULL, Rooms::ENOUGH)?;
    let (_, q) = header::pass_entries(s, p, start.entries, start.dialect, 3)?;
    seek_tensor(s, q, start.tensors, start.dialect, name)
}
