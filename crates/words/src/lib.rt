// The answers of the exported functions as numbers: one that is returned, and eight words.
#![tactic(auto)]

ghost use Rattle.std.specs.Prelude.{◌≡◌, ℕ, List};
ghost use Rattle.lookup.specs.Refusals.{reply_by};
ghost use Rattle.words.specs.Words as words;

use header::Header;
use lookup::{Refuses, TensorSearch};
use rows::TensorRow;
use values::{Entry, Value};
use writer::Written;

// Beside refusals' numbers and those of a string question: the file's type is none of the table.
pub const STATUS_UNKNOWN: u64 = 102;

// A word and seven zeros.
pub fn one_word(word: u64) -> [u64; 8]
    ensures { result ≡ words.one_word word }
{
    [word, 0, 0, 0, 0, 0, 0, 0]
}

// What a caller is told of a value: the number that is returned, and eight words.
pub trait Told: Copy {
    ghost number: { Self → ℕ };

    ghost eight: { Self → List ℕ };

    fn status(self) -> u64
        ensures { result ≡ number self };

    fn words(self) -> [u64; 8]
        ensures { result ≡ eight self };
}

// The number of an answer: that of its value, or its refusal's.
pub fn number_of<T: Told, R: Refuses>(answer: Result<T, R>) -> u64
    ensures { result ≡ words.told_number T.number (reply_by R.number R.place answer) }
{
    match answer {
        Ok(value) => value.status(),
        Err(refusal) => refusal.number(),
    }
}

// The words of an answer: those of its value, or its refusal's place.
pub fn words_of<T: Told, R: Refuses>(answer: Result<T, R>) -> [u64; 8]
    ensures { result ≡ words.told_words T.eight (reply_by R.number R.place answer) }
{
    match answer {
        Ok(value) => value.words(),
        Err(refusal) => one_word(refusal.place() as u64),
    }
}

// Tells a caller an answer: its words in those that are lent, and its number.
pub fn tell<T: Told, R: Refuses>(answer: Result<T, R>, lent: &mut [u64; 8]) -> u64
    ensures value { result ≡ words.told_number T.number (reply_by R.number R.place answer) }
    ensures words_after { lent.new ≡ words.told_words T.eight (reply_by R.number R.place answer) }
{
    *lent = words_of(answer);
    number_of(answer)
}

// The number of a header's byte order: 2 where its magic is turned round too.
fn byte_order(header: Header) -> u64
    ensures { result ≡ words.byte_order header }
{
    match (header.big, header.turned) {
        (false, _) => 0,
        (true, false) => 1,
        (true, true) => 2,
    }
}

impl Told for Header {
    ghost number = { words.fine };

    ghost eight = { words.header_words };

    fn status(self) -> u64 {
        0 // it was read
    }

    fn words(self) -> [u64; 8] {
        [
            self.version,
            byte_order(self),
            self.entries,
            self.tensors,
            self.alignment,
            self.end as u64,
            self.start,
            0,
        ]
    }
}

// A check that passed, or a replay whose answers are in a table.
impl Told for () {
    ghost number = { words.fine };

    ghost eight = { words.no_words };

    fn status(self) -> u64 {
        0 // it passed
    }

    fn words(self) -> [u64; 8] {
        one_word(0)
    }
}

// A header that was written.
impl Told for Written {
    ghost number = { words.fine };

    ghost eight = { words.placed_words };

    fn status(self) -> u64 {
        0 // it was written
    }

    fn words(self) -> [u64; 8] {
        [self.end as u64, self.start as u64, 0, 0, 0, 0, 0, 0]
    }
}

// An entry that was looked up.
impl Told for Option<Entry> {
    ghost number = { words.there_or 100 };

    ghost eight = { words.found_words };

    fn status(self) -> u64 {
        self.map_or(lookup::STATUS_ABSENT, |_| 0)
    }

    fn words(self) -> [u64; 8] {
        match self {
            Some(entry) => {
                let row = values::entry_row(entry);
                [row[0], row[1], row[2], row[3], row[4], row[5], row[6], 0]
            }
            None => one_word(0),
        }
    }
}

// A file's type.
impl Told for Option<u64> {
    ghost number = { words.there_or 102 };

    ghost eight = { words.known_words };

    fn status(self) -> u64 {
        self.map_or(STATUS_UNKNOWN, |_| 0)
    }

    fn words(self) -> [u64; 8] {
        one_word(self.unwrap_or(0))
    }
}

// A search for a tensor.
impl Told for TensorSearch {
    ghost number = { words.search_number };

    ghost eight = { words.search_words };

    fn status(self) -> u64 {
        self.tensor.map_or(lookup::STATUS_ABSENT, |_| 0)
    }

    fn words(self) -> [u64; 8] {
        one_word(self.passed)
    }
}

// The words of a string question.
pub fn string_words<R: Refuses>(found: Result<Option<Entry>, R>) -> [u64; 8]
    ensures { result ≡ words.string_words (reply_by R.number R.place found) }
{
    match found {
        Ok(Some(entry)) => match entry.value {
            Value::Text(text) => [text.place as u64, text.len as u64, 0, 0, 0, 0, 0, 0],
            Value::Single(_) | Value::Array(_) => one_word(0),
        },
        Ok(None) => one_word(0),
        Err(refused) => one_word(refused.place() as u64),
    }
}

// The row of a tensor that was found; otherwise the row stays as it was.
pub fn put_tensor<R: Refuses>(found: Result<TensorSearch, R>, row: &mut TensorRow)
    ensures { row.new ≡ words.row_after row.old (reply_by R.number R.place found) }
{
    if let Ok(search) = found {
        if let Some(tensor) = search.tensor {
            *row = tensors::tensor_row(tensor);
        }
    }
}
