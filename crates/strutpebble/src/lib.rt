// The functions that C and other languages link: numbers and slices only, thin over the proved
// crates. include/strutpebble.h declares them.
//
// Each but sp_version returns 0, or a number that says why there is no answer: a refusal's, or a
// STATUS_ constant of lookup or of words. Each writes all eight words of the answer that it was
// lent: the answer's own, or of a refusal its place and seven zeros.
#![tactic(auto)]

ghost use Rattle.std.specs.Prelude.{length, ◌≡◌};
ghost use Rattle.fetches.specs.Replay.{replayed, reply_to};
ghost use Rattle.header.specs.Answers.{reader_run};
ghost use Rattle.lookup.specs.Questions.{architecture_key, file_type_in, file_type_key, lookup};
ghost use Rattle.lookup.specs.Tensors.{tensor_lookup};
ghost use Rattle.plan.specs.Plan.{plan_for};
ghost use Rattle.ranges.specs.Ranges.{check_from};
ghost use Rattle.reading.specs.Back.{same};
ghost use Rattle.reading.specs.Each.{filled};
ghost use Rattle.reading.specs.Reading.{seen};
ghost use Rattle.tensors.specs.Rows.{tensor_row};
ghost use Rattle.values.specs.Rows.{entry_row};
ghost use Rattle.words.specs.Words.{dialect_of, entry_number, entry_words, measured, number_of, range_number, range_words, replay_number, replay_words, row_after, string_number, string_words, tensor_number, tensor_words, type_number, type_words, words_of, written_number, written_words};
ghost use Rattle.writer.specs.Output.{header_for, left_by, written_of};

use reading::Limits;
use rows::{EntryRow, TensorRow};
use start::Rooms;
use values::Dialect;

// The library's version as one number: 1000000 times its first part, 1000 times its second, and its
// third. A caller compares it with the header file that it was built with.
#[unsafe(no_mangle)]
pub extern "C" fn sp_version() -> u64
    ensures { result ≡ 1000 }
{
    1000
}

// The ceilings of a reader: the highest version and the highest kind that it takes.
fn ceilings(versions: u32, kinds: u32) -> Limits
    ensures { result ≡ record { versions = versions; kinds = kinds } }
{
    Limits {
        versions: versions as u64,
        kinds: kinds as u64,
    }
}

// Reads a header: 0, or the refusal's number; in answer its words, or the refusal's place.
#[unsafe(no_mangle)]
pub extern "C" fn sp_read(
    prefix: &[u8],
    versions: u32,
    kinds: u32,
    cap: u64,
    entries: &mut [EntryRow],
    tensors: &mut [TensorRow],
    answer: &mut [u64; 8],
) -> u64
    ensures value { result ≡ number_of (seen (λ w. w.head) (reader_run (record { versions = versions; kinds = kinds }) cap entries.old tensors.old prefix.now)) }
    ensures answer_after { answer.new ≡ words_of (seen (λ w. w.head) (reader_run (record { versions = versions; kinds = kinds }) cap entries.old tensors.old prefix.now)) }
    ensures entries_after { entries.new ≡ filled entry_row entries.old (seen (λ w. w.entries) (reader_run (record { versions = versions; kinds = kinds }) cap entries.old tensors.old prefix.now)) }
    ensures tensors_after { tensors.new ≡ filled tensor_row tensors.old (seen (λ w. w.tensors) (reader_run (record { versions = versions; kinds = kinds }) cap entries.old tensors.old prefix.now)) }
{
    let limits = ceilings(versions, kinds);
    let read = header::read(prefix, limits, cap, entries, tensors);
    words::tell(read, answer)
}

// Measures a header, whatever its counts: 0 with its words in answer, of which the counts are the
// rows that sp_read needs, or the refusal's number with its place.
#[unsafe(no_mangle)]
pub extern "C" fn sp_measure(prefix: &[u8], versions: u32, kinds: u32, answer: &mut [u64; 8]) -> u64
    ensures value { result ≡ number_of (measured (record { versions = versions; kinds = kinds }) prefix.now) }
    ensures answer_after { answer.new ≡ words_of (measured (record { versions = versions; kinds = kinds }) prefix.now) }
{
    let read = header::measure(prefix, ceilings(versions, kinds), 3, Rooms::ENOUGH);
    words::tell(read, answer)
}

// Whether the data of every tensor row ends inside a file: 0, or 20 with the number of the first
// that does not in answer.
#[unsafe(no_mangle)]
pub extern "C" fn sp_check_ranges(
    tensors: &[TensorRow],
    data_start: u64,
    file_length: u64,
    answer: &mut [u64; 8],
) -> u64
    ensures value { result ≡ range_number (check_from data_start file_length 0 tensors.now) }
    ensures answer_after { answer.new ≡ range_words (check_from data_start file_length 0 tensors.now) }
{
    let check = ranges::check_ranges(tensors, data_start, file_length);
    words::tell(check, answer)
}

// Replays a trace of fetches: 0 with the first record in answers, for each tensor row, after which
// all its bytes have been delivered, or fetches::NEVER; or the refusal's number with its place, and
// then answers is as it was.
#[unsafe(no_mangle)]
pub extern "C" fn sp_replay_fetches(
    tensors: &[TensorRow],
    data_start: u64,
    file_length: u64,
    trace: &[u8],
    answers: &mut [u64],
    answer: &mut [u64; 8],
) -> u64
    ensures value { result ≡ replay_number (reply_to (replayed tensors.now data_start file_length trace.now (length answers.old))) }
    ensures answer_after { answer.new ≡ replay_words (reply_to (replayed tensors.now data_start file_length trace.now (length answers.old))) }
    ensures answers_after { answers.new ≡ filled same answers.old (replayed tensors.now data_start file_length trace.now (length answers.old)) }
{
    let replay = fetches::replay_fetches(tensors, data_start, file_length, trace, answers);
    words::tell(replay, answer)
}

// Looks a key up: 0 with the row of its last entry in answer, or 100 where there is none, or the
// refusal's number with its place.
#[unsafe(no_mangle)]
pub extern "C" fn sp_find(prefix: &[u8], key: &[u8], answer: &mut [u64; 8]) -> u64
    ensures value { result ≡ entry_number (lookup key.now prefix.now) }
    ensures answer_after { answer.new ≡ entry_words (lookup key.now prefix.now) }
{
    let found = lookup::find(prefix, key);
    words::tell(found, answer)
}

// The string of a key: 0 with its place and length in answer, or 100 where there is no such key,
// 101 where its value is no string, or the refusal's number with its place.
#[unsafe(no_mangle)]
pub extern "C" fn sp_find_string(prefix: &[u8], key: &[u8], answer: &mut [u64; 8]) -> u64
    ensures value { result ≡ string_number (lookup key.now prefix.now) }
    ensures answer_after { answer.new ≡ string_words (lookup key.now prefix.now) }
{
    let last = lookup::find(prefix, key);
    *answer = words::string_words(last);
    let status = lookup::string_status(last);
    status[0]
}

// The model's family, the string of "general.architecture", as sp_find_string answers it.
#[unsafe(no_mangle)]
pub extern "C" fn sp_model_family(prefix: &[u8], answer: &mut [u64; 8]) -> u64
    ensures value { result ≡ string_number (lookup architecture_key prefix.now) }
    ensures answer_after { answer.new ≡ string_words (lookup architecture_key prefix.now) }
{
    sp_find_string(prefix, b"general.architecture", answer)
}

// A tensor by its name: 0 with the row of the first of that name in tensor and the number of tensors
// that were passed in answer, this one counted; or 100 where there is none, with the number of all;
// or the refusal's number with its place. But for 0, tensor is as it was.
#[unsafe(no_mangle)]
pub extern "C" fn sp_find_tensor(
    prefix: &[u8],
    name: &[u8],
    tensor: &mut TensorRow,
    answer: &mut [u64; 8],
) -> u64
    ensures value { result ≡ tensor_number (tensor_lookup name.now prefix.now) }
    ensures answer_after { answer.new ≡ tensor_words (tensor_lookup name.now prefix.now) }
    ensures tensor_after { tensor.new ≡ row_after tensor.old (tensor_lookup name.now prefix.now) }
{
    let found = lookup::find_tensor(prefix, name);
    words::put_tensor(found, tensor);
    words::tell(found, answer)
}

// The file's type: 0 with its number in answer, or 102 where it is unknown, or the refusal's number
// with its place.
#[unsafe(no_mangle)]
pub extern "C" fn sp_file_type(prefix: &[u8], answer: &mut [u64; 8]) -> u64
    ensures value { result ≡ type_number (file_type_in (lookup file_type_key prefix.now)) }
    ensures answer_after { answer.new ≡ type_words (file_type_in (lookup file_type_key prefix.now)) }
{
    let file_type = lookup::file_type(prefix);
    words::tell(file_type, answer)
}

// How a file is written: its version, and its byte order by number, in which any but 0 is big-endian
// and 2 turns the magic round too.
fn dialect_of(version: u32, order: u32) -> Dialect
    ensures { result ≡ dialect_of version order }
{
    Dialect {
        version: version as u64,
        big: 0 < order,
        turned: order == 2,
    }
}

// Writes the header of a sheet, and zeros up to the start of its data: 0 with the header's end and
// the start of the data in answer, or the refusal's number with its place, and then the output is
// as it was.
#[unsafe(no_mangle)]
pub extern "C" fn sp_write(
    sheet: &[u8],
    version: u32,
    order: u32,
    alignment: u64,
    out: &mut [u8],
    answer: &mut [u64; 8],
) -> u64
    ensures value { result ≡ written_number (written_of (plan_for (dialect_of version order) alignment (length out.old) sheet.now)) }
    ensures answer_after { answer.new ≡ written_words (written_of (plan_for (dialect_of version order) alignment (length out.old) sheet.now)) }
    ensures out_after { out.new ≡ left_by (plan_for (dialect_of version order) alignment (length out.old) sheet.now) (header_for (dialect_of version order) alignment sheet.now) out.old }
{
    let dialect = dialect_of(version, order);
    let written = writer::write_header(sheet, dialect, alignment, out);
    words::tell(written, answer)
}
