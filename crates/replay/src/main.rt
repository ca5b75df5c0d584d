// Reads each header of a stored sample and compares what the reader says with what the original
// said of the same bytes. Prints how many answers there were, how many differ, and the numbers of
// the first that do.
//
// data/README.md says what the file of answers holds and how it is made. A function that compares
// takes the place that it has reached in a stored answer, and answers the place after what agreed,
// or none.
#![tactic(auto)]

use fields::Width;
use header::Header;
use reading::{Limits, Refusal};
use rows::{
    ENTRY_WORDS, EntryRow, FIRST_ITEM, ITEM_TYPE, KEPT, KEY_LENGTH, KEY_PLACE, KIND, NAME_LENGTH,
    NAME_PLACE, SCALAR, STRING_LENGTH, STRING_PLACE, TENSOR_WORDS, TensorRow, VALUE_TYPE,
};
use values::{Dialect, Span};

// How the sample's own texts are written: a little-endian length of four bytes, and the bytes.
const PLAIN: Dialect = Dialect {
    version: 1,
    big: false,
    turned: false,
};

// The forms of a stored value.
#[derive(Clone, Copy)]
enum Form {
    NotFinite = 0,
    Truth = 1,
    Integer = 2,
    BelowZero = 3,
    Float = 4,
    Text = 5,
    List = 6,
}

// A word, and the place after it.
fn word_at(sample: &[u8], at: usize) -> Option<(u64, usize)> {
    fields::number_at(sample, at, Width::Eight, false).ok()
}

// A text, and the place after it.
fn text_at(sample: &[u8], at: usize) -> Option<(&[u8], usize)> {
    let (span, next) = values::read_string(sample, at, PLAIN).ok()?;
    Some((values::inside(sample, span), next))
}

// The place after a word, whatever it is.
fn skip(answer: &[u8], at: usize) -> Option<usize> {
    let (_, next) = word_at(answer, at)?;
    Some(next)
}

// A word.
fn same_word(answer: &[u8], at: usize, word: u64) -> Option<usize> {
    let (value, next) = word_at(answer, at)?;
    (value == word).then_some(next)
}

// Words, one after the other.
fn same_words(answer: &[u8], at: usize, words: &[u64]) -> Option<usize> {
    let mut p = at;
    for word in words {
        p = same_word(answer, p, *word)?;
    }
    Some(p)
}

// A text.
fn same_text(answer: &[u8], at: usize, text: &[u8]) -> Option<usize> {
    let (stored, next) = text_at(answer, at)?;
    (stored == text).then_some(next)
}

// The text that two words of a row tell.
fn text_in(input: &[u8], place: u64, len: u64) -> &[u8] {
    values::inside(
        input,
        Span {
            place: place as usize,
            len: len as usize,
        },
    )
}

// The form in which the original gives a scalar of a type.
fn form_of(t: u64, word: u64) -> Form {
    match t {
        1 | 3 | 5 | 11 if word >= 1 << 63 => Form::BelowZero,
        6 if word >> 23 & 0xff == 0xff => Form::NotFinite,
        12 if word >> 52 & 0x7ff == 0x7ff => Form::NotFinite,
        6 | 12 => Form::Float,
        7 => Form::Truth,
        _ => Form::Integer,
    }
}

// A float, which stands in eight bytes and then in four.
fn same_float(answer: &[u8], at: usize, t: u64, word: u64) -> Option<usize> {
    if t == 6 {
        same_word(answer, skip(answer, at)?, word)
    } else {
        skip(answer, same_word(answer, at, word)?)
    }
}

// A scalar of a type. Of a float that is not finite the original says nothing else.
fn same_scalar(answer: &[u8], at: usize, t: u64, word: u64) -> Option<usize> {
    let form = form_of(t, word);
    let p = same_word(answer, at, form as u64)?;
    match form {
        Form::NotFinite => Some(p),
        Form::Float => same_float(answer, p, t, word),
        _ => same_word(answer, p, word),
    }
}

// An item of the type t at a place of the input: the places after it, in the answer and in the
// input.
fn same_item(
    answer: &[u8],
    at: usize,
    input: &[u8],
    from: usize,
    t: u64,
    dialect: Dialect,
) -> Option<(usize, usize)> {
    if t == 8 {
        let (span, next) = values::read_string(input, from, dialect).ok()?;
        let p = same_word(answer, at, Form::Text as u64)?;
        return Some((same_text(answer, p, values::inside(input, span))?, next));
    }
    let width = scalars::scalar_width(t)?;
    let (bits, next) = fields::number_at(input, from, width, dialect.big).ok()?;
    let [_, word] = scalars::scalar_words(scalars::scalar_of(t, bits));
    Some((same_scalar(answer, at, t, word)?, next))
}

// Items of the type t, as many as are kept, from a place of the input on.
fn same_items(
    answer: &[u8],
    at: usize,
    input: &[u8],
    first: usize,
    kept: u64,
    t: u64,
    dialect: Dialect,
) -> Option<usize> {
    let mut p = at;
    let mut from = first;
    for _ in 0..kept {
        (p, from) = same_item(answer, p, input, from, t, dialect)?;
    }
    Some(p)
}

// The value of an entry's row.
fn same_value(
    answer: &[u8],
    at: usize,
    input: &[u8],
    row: EntryRow,
    dialect: Dialect,
) -> Option<usize> {
    match row[VALUE_TYPE] {
        8 => {
            let p = same_word(answer, at, Form::Text as u64)?;
            let text = text_in(input, row[STRING_PLACE], row[STRING_LENGTH]);
            same_text(answer, p, text)
        }
        9 => {
            let kept = row[KEPT];
            let p = same_words(answer, at, &[Form::List as u64, kept])?;
            let first = row[FIRST_ITEM] as usize;
            same_items(answer, p, input, first, kept, row[ITEM_TYPE], dialect)
        }
        t => same_scalar(answer, at, t, row[SCALAR]),
    }
}

// The key of an entry's row.
fn key_of(input: &[u8], row: EntryRow) -> &[u8] {
    text_in(input, row[KEY_PLACE], row[KEY_LENGTH])
}

// The number of the last row of a key.
fn last_of(input: &[u8], rows: &[EntryRow], key: &[u8]) -> Option<usize> {
    rows.iter().rposition(|row| key_of(input, *row) == key)
}

// Whether the row i is the last of its key.
fn survives(input: &[u8], rows: &[EntryRow], row: EntryRow, i: usize) -> bool {
    last_of(input, rows, key_of(input, row)) == Some(i)
}

// How many keys the rows have.
fn distinct(input: &[u8], rows: &[EntryRow]) -> u64 {
    let last = rows
        .iter()
        .enumerate()
        .filter(|(i, row)| survives(input, rows, **row, *i));
    last.count() as u64
}

// A key of the original, and the value of its last row.
fn same_entry(
    answer: &[u8],
    at: usize,
    input: &[u8],
    rows: &[EntryRow],
    dialect: Dialect,
) -> Option<usize> {
    let (key, next) = text_at(answer, at)?;
    let row = rows.get(last_of(input, rows, key)?)?;
    same_value(answer, next, input, *row, dialect)
}

// The original's keys: as many as the rows have, each with the value of its last row.
fn same_entries(
    answer: &[u8],
    at: usize,
    input: &[u8],
    rows: &[EntryRow],
    dialect: Dialect,
) -> Option<usize> {
    let keys = distinct(input, rows);
    let mut p = same_word(answer, at, keys)?;
    for _ in 0..keys {
        p = same_entry(answer, p, input, rows, dialect)?;
    }
    Some(p)
}

// The tensors' rows, in order: a name each, and the words after it.
fn same_tensors(answer: &[u8], at: usize, input: &[u8], rows: &[TensorRow]) -> Option<usize> {
    let mut p = at;
    for row in rows {
        p = same_text(answer, p, text_in(input, row[NAME_PLACE], row[NAME_LENGTH]))?;
        p = same_words(answer, p, &row[KIND..])?;
    }
    Some(p)
}

// What the header says of itself.
fn same_format(answer: &[u8], at: usize, header: Header) -> Option<usize> {
    let words = [
        header.version,
        header.big as u64,
        header.entries,
        header.tensors,
        header.alignment,
        header.start,
    ];
    same_words(answer, at, &words)
}

// A header with its rows.
fn same_header(
    answer: &[u8],
    at: usize,
    input: &[u8],
    header: Header,
    entries: &[EntryRow],
    tensors: &[TensorRow],
) -> Option<usize> {
    let dialect = header.dialect();
    let p = same_format(answer, at, header)?;
    let p = same_entries(answer, p, input, entries, dialect)?;
    same_tensors(answer, p, input, tensors)
}

// A reader's answer and the rows that it filled, of which the tables have more.
fn same_answer(
    answer: &[u8],
    input: &[u8],
    read: Result<Header, Refusal>,
    entries: &[EntryRow],
    tensors: &[TensorRow],
) -> Option<usize> {
    match read {
        Err(refusal) => same_word(answer, 0, refusal.why.number()),
        Ok(header) => {
            let entries = entries.get(..header.entries as usize)?;
            let tensors = tensors.get(..header.tensors as usize)?;
            let p = same_word(answer, 0, 0)?;
            same_header(answer, p, input, header, entries, tensors)
        }
    }
}

// Whether the reader says of an input all that the original said of it.
fn agrees(input: &[u8], answer: &[u8]) -> bool {
    let mut entries = [[0u64; ENTRY_WORDS]; 64];
    let mut tensors = [[0u64; TENSOR_WORDS]; 64];
    let read = header::read(input, Limits::FULL, 3, &mut entries, &mut tensors);
    same_answer(answer, input, read, &entries, &tensors) == Some(answer.len())
}

// An input of the sample, the answer to it, and the place after both.
fn case_at(sample: &[u8], at: usize) -> Option<(&[u8], &[u8], usize)> {
    let (input, p) = text_at(sample, at)?;
    let (answer, next) = text_at(sample, p)?;
    Some((input, answer, next))
}

// Prints the number of an answer that differs. What stands after the last answer counts as one
// more.
fn print_number(rt: &impl Print, i: u64) {
    let _ = println!(rt; "answer {i} differs");
}

// How many of the answers differ, from a place of the sample on: one that is not all there does.
// The numbers of the first five that differ are printed.
fn replay(rt: &impl Print, sample: &[u8], at: usize, answers: u64) -> u64 {
    let mut place = Some(at);
    let mut differ = 0;
    for i in 0..answers {
        let case = place.and_then(|p| case_at(sample, p));
        if !case.is_some_and(|(input, answer, _)| agrees(input, answer)) {
            if differ < 5 {
                print_number(rt, i);
            }
            differ += 1;
        }
        place = case.map(|(_, _, next)| next);
    }
    if place != Some(sample.len()) {
        print_number(rt, answers);
    }
    differ
}

// Replays a sample: how many answers there are, and each input with its answer.
fn replay_all(rt: &impl Print, sample: &[u8]) {
    let Some((answers, at)) = word_at(sample, 0) else {
        let _ = println!(rt; "no sample");
        return;
    };
    let differ = replay(rt, sample, at, answers);
    let _ = println!(rt; "{answers} answers of the original, {differ} differ");
}

fn main(rt: HostRuntime) {
    let mut sample = [0u8; 400000];
    if let Some(n) = bytes_in::read_file(&rt, &rt.stderr(), b"answers", &mut sample) {
        replay_all(&rt, &sample[..n]);
    }
}
