// The listing of a header as text: a line for the header, one for each distinct key in byte order,
// one for each tensor; or one for a refusal.
//
// Every writer here puts its text at the front of what it is lent, as much of it as there is room
// for, and answers how many bytes that is (crates/text_out).
#![tactic(auto)]

ghost use Rattle.std.specs.Prelude.{◌≡◌, length};
ghost use Rattle.reading.specs.Back.{bytes_of_all};
ghost use Rattle.reading.specs.Each.{filled};
ghost use Rattle.reading.specs.Reading.{seen};
ghost use Rattle.reading.specs.Replies.{reason_number};
ghost use Rattle.values.specs.Rows.{entry_row};
ghost use Rattle.tensors.specs.Rows.{tensor_row};
ghost use Rattle.reading.specs.Ceilings.{full};
ghost use Rattle.header.specs.Answers.{reader_run};
ghost use Rattle.key_order.specs.Order.{ordered};
ghost use Rattle.rows.specs.Columns.{lengths_in};
ghost use Rattle.text_out.specs.Put.{Put};
ghost use Rattle.listing.specs.Steps as steps;
ghost use Rattle.listing.specs.Text as text;

use header::Header;
use key_order::{name_in, next_key};
use reading::{Limits, Refusal};
use rows::{
    DIMENSIONS, EntryRow, FIRST_LENGTH, FOURTH_LENGTH, KEY_LENGTH, KEY_PLACE, KIND, NAME_LENGTH,
    NAME_PLACE, OFFSET, SECOND_LENGTH, SIZE, THIRD_LENGTH, TensorRow, VALUE_TYPE,
};
use text_out::{put_labelled, put_line_end, put_text};

// The byte order.
fn put_order(out: &mut [u8], big: bool) -> usize
    ensures { Put (text.order_word big) out.old out.new result }
{
    if big {
        put_text(out, b" BE")
    } else {
        put_text(out, b" LE")
    }
}

// The version and the byte order.
fn put_version(out: &mut [u8], header: Header) -> usize
    ensures { Put (text.version_text header) out.old out.new result }
{
    let a = put_labelled(out, b"gguf v", header.version);
    a + put_order(&mut out[a..], header.big)
}

// The version, the byte order and the two counts.
fn put_format(out: &mut [u8], header: Header) -> usize
    ensures { Put (text.format_text header) out.old out.new result }
{
    let a = put_version(out, header);
    let b = a + put_labelled(&mut out[a..], b" kv ", header.entries);
    b + put_labelled(&mut out[b..], b" tensors ", header.tensors)
}

// The first line.
fn put_head(out: &mut [u8], header: Header) -> usize
    ensures { Put (text.head_line header) out.old out.new result }
{
    let a = put_format(out, header);
    let b = a + put_labelled(&mut out[a..], b" align ", header.alignment);
    b + put_line_end(&mut out[b..], b" data ", header.start)
}

// The line of a key.
fn put_key(out: &mut [u8], s: &[u8], row: EntryRow) -> usize
    ensures { Put (text.key_line s.now row) out.old out.new result }
{
    let name = name_in(s, row[KEY_PLACE], row[KEY_LENGTH]);
    let a = put_text(out, b"key ");
    let b = a + put_text(&mut out[a..], name);
    b + put_line_end(&mut out[b..], b" ", row[VALUE_TYPE])
}

// The first length, where there is one.
fn put_first(out: &mut [u8], count: u64, n: u64) -> usize
    ensures { Put (steps.first_text count n) out.old out.new result }
{
    if 0 < count {
        put_labelled(out, b" ", n)
    } else {
        put_text(out, b" -")
    }
}

// A further length, where so many are stated.
fn put_further(out: &mut [u8], index: u64, count: u64, n: u64) -> usize
    ensures { Put (steps.further_of index count n) out.old out.new result }
{
    if index < count {
        put_labelled(out, b"x", n)
    } else {
        0
    }
}

// The first and the second length.
fn put_plane(out: &mut [u8], row: TensorRow) -> usize
    ensures { Put (steps.plane_text row) out.old out.new result }
{
    let count = row[DIMENSIONS];
    let a = put_first(out, count, row[FIRST_LENGTH]);
    a + put_further(&mut out[a..], 1, count, row[SECOND_LENGTH])
}

// The lengths of a tensor.
fn put_lengths(out: &mut [u8], row: TensorRow) -> usize
    ensures { Put (text.lengths_text (lengths_in row)) out.old out.new result }
{
    let count = row[DIMENSIONS];
    let a = put_plane(out, row);
    let b = a + put_further(&mut out[a..], 2, count, row[THIRD_LENGTH]);
    b + put_further(&mut out[b..], 3, count, row[FOURTH_LENGTH])
}

// A tensor's name, kind and lengths.
fn put_shape(out: &mut [u8], s: &[u8], row: TensorRow) -> usize
    ensures { Put (text.shape_text s.now row) out.old out.new result }
{
    let name = name_in(s, row[NAME_PLACE], row[NAME_LENGTH]);
    let a = put_text(out, name);
    let b = a + put_labelled(&mut out[a..], b" ", row[KIND]);
    b + put_lengths(&mut out[b..], row)
}

// The line of a tensor.
fn put_tensor(out: &mut [u8], s: &[u8], row: TensorRow) -> usize
    ensures { Put (text.tensor_line s.now row) out.old out.new result }
{
    let a = put_shape(out, s, row);
    let b = a + put_labelled(&mut out[a..], b" ", row[OFFSET]);
    b + put_line_end(&mut out[b..], b" ", row[SIZE])
}

// The line of a refusal.
pub fn put_refusal(out: &mut [u8], why: u64, place: usize) -> usize
    ensures { Put (text.refusal_line why place) out.old out.new result }
{
    let a = put_labelled(out, b"refused ", why);
    a + put_line_end(&mut out[a..], b" ", place as u64)
}

// The lines of the keys. There are no more of them than rows.
fn put_keys(out: &mut [u8], s: &[u8], entries: &[EntryRow]) -> usize
    ensures { Put (bytes_of_all (text.key_line s.now) (ordered s.now entries.now)) out.old out.new result }
{
    let mut n = 0;
    let mut last = None;
    for _ in 0..entries.len() {
        let Some(i) = next_key(s, entries, last) else {
            return n;
        };
        n += put_key(&mut out[n..], s, entries[i]);
        last = Some(i);
    }
    n
}

// The lines of the tensors.
fn put_tensors(out: &mut [u8], s: &[u8], tensors: &[TensorRow]) -> usize
    ensures { Put (bytes_of_all (text.tensor_line s.now) tensors.now) out.old out.new result }
{
    let mut n = 0;
    for row in tensors {
        n += put_tensor(&mut out[n..], s, *row);
    }
    n
}

// All lines of a header.
fn put_all(
    out: &mut [u8],
    s: &[u8],
    header: Header,
    entries: &[EntryRow],
    tensors: &[TensorRow],
) -> usize
    ensures { Put (text.lines_of s.now header entries.now tensors.now) out.old out.new result }
{
    let a = put_head(out, header);
    let b = a + put_keys(&mut out[a..], s, entries);
    b + put_tensors(&mut out[b..], s, tensors)
}

// The listing of a prefix, with the rows that are lent; they are left as the reader leaves them.
// Answers how many bytes of out it takes.
pub fn list(out: &mut [u8], s: &[u8], entries: &mut [EntryRow], tensors: &mut [TensorRow]) -> usize
    ensures put { Put (text.listing_in (record { entries = length entries.old; tensors = length tensors.old }) s.now) out.old out.new result }
    ensures entries_after { entries.new ≡ filled entry_row entries.old (seen (λ w. w.entries) (reader_run full 3 entries.old tensors.old s.now)) }
    ensures tensors_after { tensors.new ≡ filled tensor_row tensors.old (seen (λ w. w.tensors) (reader_run full 3 entries.old tensors.old s.now)) }
{
    match header::read(s, Limits::FULL, 3, entries, tensors) {
        Err(refusal) => put_refusal(out, refusal.why.number(), refusal.place),
        Ok(header) => {
            let e = header.entries as usize;
            let t = header.tensors as usize;
            put_all(out, s, header, &entries[..e], &tensors[..t])
        }
    }
}
