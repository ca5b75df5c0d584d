// The replay of a trace as text: a line for the trace, and one for each tensor, with its name and
// the record after which it was complete; or one for a refusal.
//
// Every writer here puts its text at the front of what it is lent, as much of it as there is room
// for, and answers how many bytes that is (crates/text_out).
#![tactic(auto)]

ghost use Rattle.std.specs.Prelude.{◌≤◌, length, ◌≡◌};
ghost use Rattle.fetches.specs.Replay.{replayed};
ghost use Rattle.header.specs.Answers.{reader_run};
ghost use Rattle.reading.specs.Back.{same};
ghost use Rattle.reading.specs.Ceilings.{full};
ghost use Rattle.reading.specs.Each.{filled};
ghost use Rattle.reading.specs.Reading.{seen};
ghost use Rattle.tensors.specs.Rows.{tensor_row};
ghost use Rattle.text_out.specs.Put.{Put};
ghost use Rattle.values.specs.Rows.{entry_row};
ghost use Rattle.fetch_listing.specs.Text as text;

use fetches::NEVER;
use key_order::name_in;
use listing::put_refusal;
use reading::Limits;
use rows::{EntryRow, NAME_LENGTH, NAME_PLACE, TensorRow};
use text_out::{put_labelled, put_line_end, put_text};

// The end of a tensor's line.
fn put_record(out: &mut [u8], number: u64) -> usize
    ensures { Put (text.record_end number) out.old out.new result }
{
    if number == NEVER {
        put_text(out, b" never\n")
    } else {
        put_line_end(out, b" ", number)
    }
}

// The line of a tensor.
fn put_line(out: &mut [u8], s: &[u8], row: TensorRow, number: u64) -> usize
    ensures { Put (text.record_line s.now row number) out.old out.new result }
{
    let name = name_in(s, row[NAME_PLACE], row[NAME_LENGTH]);
    let a = put_text(out, name);
    a + put_record(&mut out[a..], number)
}

// The lines of the tensors.
fn put_lines(out: &mut [u8], s: &[u8], tensors: &[TensorRow], answers: &[u64]) -> usize
    requires { length tensors.now ≤ length answers.now }
    ensures { Put (text.record_lines s.now tensors.now answers.now) out.old out.new result }
{
    let mut n = 0;
    for (row, number) in tensors.iter().zip(answers) {
        n += put_line(&mut out[n..], s, *row, *number);
    }
    n
}

// The first line.
fn put_head(out: &mut [u8], records: usize, tensors: usize) -> usize
    ensures { Put (text.trace_line records tensors) out.old out.new result }
{
    let a = put_labelled(out, b"trace v1 records ", records as u64);
    a + put_line_end(&mut out[a..], b" tensors ", tensors as u64)
}

// All lines of a replay of so many records.
fn put_all(
    out: &mut [u8],
    records: usize,
    s: &[u8],
    tensors: &[TensorRow],
    answers: &[u64],
) -> usize
    requires { length tensors.now ≤ length answers.now }
    ensures { Put (text.lines_of records s.now tensors.now answers.now) out.old out.new result }
{
    let a = put_head(out, records, tensors.len());
    a + put_lines(&mut out[a..], s, tensors, answers)
}

// The replay of a trace over the rows of tensors. A trace that was answered is a byte and its
// records.
fn put_replay(
    out: &mut [u8],
    s: &[u8],
    tensors: &[TensorRow],
    start: u64,
    file: u64,
    trace: &[u8],
    answers: &mut [u64],
) -> usize
    ensures put { Put (text.replay_text s.now tensors.now trace.now (replayed tensors.now start file trace.now (length answers.old))) out.old out.new result }
    ensures answers_after { answers.new ≡ filled same answers.old (replayed tensors.now start file trace.now (length answers.old)) }
{
    match fetches::replay_fetches(tensors, start, file, trace, answers) {
        Err(refused) => put_refusal(out, refused.why.number(), refused.place),
        Ok(()) => put_all(out, trace.len() / 20, s, tensors, &answers[..tensors.len()]),
    }
}

// The replay of a trace over the header in a prefix of a file of so many bytes, with the rows and
// answers that are lent; they are left as the reader and the replay leave them. Answers how many
// bytes of out it takes.
pub fn list_fetches(
    out: &mut [u8],
    s: &[u8],
    file: u64,
    trace: &[u8],
    entries: &mut [EntryRow],
    tensors: &mut [TensorRow],
    answers: &mut [u64],
) -> usize
    ensures put { Put (text.fetch_text s.now (reader_run full 3 entries.old tensors.old s.now) file trace.now (length answers.old)) out.old out.new result }
    ensures entries_after { entries.new ≡ filled entry_row entries.old (seen (λ w. w.entries) (reader_run full 3 entries.old tensors.old s.now)) }
    ensures tensors_after { tensors.new ≡ filled tensor_row tensors.old (seen (λ w. w.tensors) (reader_run full 3 entries.old tensors.old s.now)) }
    ensures answers_after { answers.new ≡ filled same answers.old (text.replay_over (reader_run full 3 entries.old tensors.old s.now) file trace.now (length answers.old)) }
{
    match header::read(s, Limits::FULL, 3, entries, tensors) {
        Err(refusal) => put_refusal(out, refusal.why.number(), refusal.place),
        Ok(header) => {
            let t = header.tensors as usize;
            put_replay(out, s, &tensors[..t], header.start, file, trace, answers)
        }
    }
}
