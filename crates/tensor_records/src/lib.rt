// Tensor records in a lent slice of structs, above the rows of numbers.
//
// Each function here is thin: it takes the slice apart and leaves the work to functions over rows.
// Whoever is content with rows needs none of it.
#![tactic(auto)]

ghost use Rattle.std.specs.Prelude.{◌≡◌, [], ◌<◌, min, length, get_or, take};
ghost use Rattle.reading.specs.Reading.{seen};
ghost use Rattle.reading.specs.Each.{filled};
ghost use Rattle.values.specs.Rows.{entry_row};
ghost use Rattle.tensors.specs.Rows.{tensor_row};
ghost use Rattle.header.specs.Answers.{as_header, reader_run};
ghost use Rattle.tensor_records.specs.Records.{record_of, got_at, kept_of, put_at, filled_from, tensors_in, tensor_record, listing_of};

use header::Header;
use reading::{Limits, Refusal};
use rows::{
    DIMENSIONS, EntryRow, FIRST_LENGTH, FOURTH_LENGTH, KIND, NAME_LENGTH, NAME_PLACE, OFFSET,
    SECOND_LENGTH, SIZE, THIRD_LENGTH, TensorRow,
};

// A tensor's record: where its name is, its kind, its stated count of dimensions, its four lengths,
// its offset and its size.
#[derive(Clone, Copy)]
pub struct TensorRecord {
    pub name_place: u64,
    pub name_len: u64,
    pub kind: u64,
    pub dimensions: u64,
    pub first: u64,
    pub second: u64,
    pub third: u64,
    pub fourth: u64,
    pub offset: u64,
    pub size: u64,
}

// The record with the number i, where there is one.
pub fn get(records: &[TensorRecord], i: usize) -> Option<TensorRecord>
    ensures { result ≡ got_at records.now i }
{
    records.get(i).copied()
}

// Stores a record at the number i, and answers whether there is one; else nothing changes. By index:
// of what is written through `get_mut` the proof would know nothing.
pub fn put(records: &mut [TensorRecord], i: usize, tensor: TensorRecord) -> bool
    ensures { (result ≡ kept_of records.old i) × (records.new ≡ put_at records.old i tensor) }
{
    if i < records.len() {
        records[i] = tensor;
        return true;
    }
    false
}

// A row as a record.
pub fn record_of(row: TensorRow) -> TensorRecord
    ensures { result ≡ record_of row }
{
    TensorRecord {
        name_place: row[NAME_PLACE],
        name_len: row[NAME_LENGTH],
        kind: row[KIND],
        dimensions: row[DIMENSIONS],
        first: row[FIRST_LENGTH],
        second: row[SECOND_LENGTH],
        third: row[THIRD_LENGTH],
        fourth: row[FOURTH_LENGTH],
        offset: row[OFFSET],
        size: row[SIZE],
    }
}

// Fills the first records from the first n rows, as far as there are both, and answers how many it
// filled. The other records stay as they were. By index, as in `put`.
#[tactic(auto, using(crate::proofs::Filled::fill_steps))]
pub fn fill(records: &mut [TensorRecord], rows: &[TensorRow], n: usize) -> usize
    ensures { (result ≡ min n (min (length rows.now) (length records.old))) × (records.new ≡ filled_from records.old (take n rows.now)) }
{
    let count = n.min(rows.len()).min(records.len());
    for i in 0..count {
        records[i] = record_of(rows[i]);
    }
    count
}

// Reads a header into rows, of which it uses no more than the first room.
fn read_within(
    s: &[u8],
    limits: Limits,
    cap: u64,
    entries: &mut [EntryRow],
    rows: &mut [TensorRow],
    room: usize,
) -> Result<Header, Refusal>
    ensures result_value { as_header result ≡ seen (λ w. w.head) (reader_run limits cap entries.old (take room rows.old) s.now) }
    ensures entries_after { entries.new ≡ filled entry_row entries.old (seen (λ w. w.entries) (reader_run limits cap entries.old (take room rows.old) s.now)) }
    ensures rows_after { rows.new ≡ filled tensor_row rows.old (seen (λ w. w.tensors) (reader_run limits cap entries.old (take room rows.old) s.now)) }
{
    let end = room.min(rows.len());
    header::read(s, limits, cap, entries, &mut rows[..end])
}

// How many tensors an answer counts.
fn tensors_in(answer: Result<Header, Refusal>) -> usize
    ensures { result ≡ tensors_in answer }
{
    answer.map_or(0, |header| header.tensors as usize)
}

// Reads a header as `header::read` does, and lists its tensors as records too. The rows are what it
// works on: there is room for no more tensors than there are rows and records. Where it refuses,
// all that it was lent stays as it was.
#[tactic(auto, using(crate::proofs::Listed::listed))]
pub fn read_records(
    s: &[u8],
    limits: Limits,
    cap: u64,
    entries: &mut [EntryRow],
    rows: &mut [TensorRow],
    records: &mut [TensorRecord],
) -> Result<Header, Refusal>
    ensures result_value { as_header result ≡ seen (λ w. w.head) (listing_of limits cap entries.old rows.old records.old s.now) }
    ensures entries_after { entries.new ≡ filled entry_row entries.old (seen (λ w. w.entries) (listing_of limits cap entries.old rows.old records.old s.now)) }
    ensures rows_after { rows.new ≡ filled tensor_row rows.old (seen (λ w. w.tensors) (listing_of limits cap entries.old rows.old records.old s.now)) }
    ensures records_after { records.new ≡ filled tensor_record records.old (seen (λ w. w.tensors) (listing_of limits cap entries.old rows.old records.old s.now)) }
{
    let answer = read_within(s, limits, cap, entries, rows, records.len());
    fill(records, rows, tensors_in(answer));
    answer
}
