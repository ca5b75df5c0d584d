// The replay of a trace of fetches: for each tensor the first record after which all its bytes have
// been delivered.
//
// A trace stays where it is, and nothing is kept of it. For each tensor a sweep goes through the
// records, with six numbers for a state; `step` passes one record. Where a tensor's bytes came in
// order, or in reverse, it looks at each record once. Where they came otherwise it goes back: not
// to the first record, but to the first that may still deliver something, and at most once for each
// record that ends inside the tensor. So T tensors that don't overlap take at most (T + R) * R
// looks at R records.
#![tactic(auto)]

ghost use Rattle.std.specs.Prelude.{◌≡◌, true, ℕ, ◌+◌, ◌-◌, ◌≤◌, ◌<◌, ◌^◌, length};
ghost use Rattle.reading.specs.Back.{got, same};
ghost use Rattle.reading.specs.Each.{filled};
ghost use Rattle.reading.specs.Reading.{is_accepted};
ghost use Rattle.reading.specs.Replies.{as_reply};
ghost use Rattle.fetches.specs.Trace.{fetch_at, fetches};
ghost use Rattle.fetches.specs.Replay.{first_after, replayed, reply_to};
ghost use Rattle.fetches.specs.Sweep.{Misses, Settles, Steps};

use fields::{GREATEST, Width};
use reading::{Reason, Refusal};
use rows::{OFFSET, SIZE, TensorRow};

// The answer where some byte is never delivered.
pub const NEVER: u64 = GREATEST;

// What a record of a trace fetched: so many bytes of the file, from an offset on.
#[derive(Clone, Copy)]
pub struct Fetch {
    pub offset: u64,
    pub count: u64,
}

// Where a sweep through a tensor stands. The first `used` records deliver all of the tensor before
// `from`, and fewer don't deliver the whole tensor. The records before `next` deliver nothing
// between `from` and `gap`, and everything between `gap` and `reach`. Those before `settled`
// deliver nothing of the tensor from `from` on.
#[derive(Clone, Copy)]
pub struct Sweep {
    pub next: usize,
    pub settled: usize,
    pub used: u64,
    pub from: u64,
    pub gap: u64,
    pub reach: u64,
}

// How many records are settled, where the next one delivers nothing more either.
fn settled_past(settled: usize, next: usize) -> usize
    requires { next + 1 < 2 ^ 64 }
    ensures { Settles settled next result }
{
    if settled == next { next + 1 } else { settled }
}

// The sweep past a record that delivers nothing of the tensor from `from` on.
#[tactic(auto, using(crate::proofs::Steps::quiet_step))]
fn past_nothing(mut w: Sweep) -> Sweep
    requires { w.next + 1 < 2 ^ 64 }
    ensures { (a b end : ℕ) → Misses w a b end → Steps w a b end result }
{
    w.settled = settled_past(w.settled, w.next);
    w.next += 1;
    w
}

// The sweep past a record that delivers the bytes from `from` to b. It is needed, because no record
// before it delivers the byte at `from`.
#[tactic(auto, using(crate::proofs::Steps::front_step, crate::proofs::Steps::closing_step))]
fn past_front(mut w: Sweep, b: u64, end: u64) -> Sweep
    requires { (w.next + 1 < 2 ^ 64) × (w.from < b) }
    ensures { (a : ℕ) → a ≤ w.from → Steps w a b end result }
{
    let settled = settled_past(w.settled, w.next);
    w.next += 1;
    w.used = w.used.max(w.next as u64);
    if b < w.gap {
        w.settled = settled;
        w.from = b;
        return w;
    }
    // the gap is closed: back to the first record that may deliver what follows
    w.next = w.settled;
    w.from = b.max(w.reach);
    w.gap = end;
    w.reach = end;
    w
}

// The sweep past a record that delivers the bytes from a to b, after `from`.
#[tactic(auto, using(crate::proofs::Steps::end_step, crate::proofs::Steps::middle_step, crate::proofs::Steps::reach_step, crate::proofs::Steps::far_step))]
fn past_later(mut w: Sweep, a: u64, b: u64) -> Sweep
    requires { (w.next + 1 < 2 ^ 64) × (w.from < a) }
    ensures { (end : ℕ) → Steps w a b end result }
{
    w.next += 1;
    if a < w.gap {
        // the end of the gap; or its middle, and then what is known past it is given up
        w.reach = if w.gap <= b { b.max(w.reach) } else { b };
        w.gap = a;
    } else if a <= w.reach {
        w.reach = b.max(w.reach);
    }
    w
}

// The sweep of a tensor that ends before end, past a record that delivers the bytes from a to b.
fn step(w: Sweep, a: u64, b: u64, end: u64) -> Sweep
    requires { w.next + 1 < 2 ^ 64 }
    ensures { Steps w a b end result }
{
    if b <= w.from || end <= a {
        past_nothing(w)
    } else if a <= w.from {
        past_front(w, b, end)
    } else {
        past_later(w, a, b)
    }
}

// What a record of 20 bytes that are there fetched.
fn fetch_in(trace: &[u8], at: usize) -> Fetch
    requires { at + 20 ≤ length trace.now }
    ensures { result ≡ fetch_at trace.now at }
{
    Fetch {
        offset: fields::value_in(trace, at + 4, Width::Eight, true),
        count: fields::value_in(trace, at + 12, Width::Eight, true),
    }
}

// The first record of a checked trace after which all bytes from lo to end are there.
fn swept(trace: &[u8], lo: u64, end: u64) -> u64
    requires { (is_accepted (fetches trace.now) ≡ true) × (lo < end) }
    ensures { (file : ℕ) → end ≤ file → result ≡ first_after file (got (fetches trace.now)) lo (end - lo) }
{
    let n = trace.len() / 20;
    let mut w = Sweep {
        next: 0,
        settled: 0,
        used: 0,
        from: lo,
        gap: end,
        reach: end,
    };
    // a `while`, because a sweep goes back
    while w.next < n {
        let f = fetch_in(trace, 1 + 20 * w.next);
        w = step(w, f.offset, f.offset + f.count, end);
        if end <= w.from {
            return w.used;
        }
    }
    NEVER
}

// The answer for a tensor of so many bytes, at an offset from start.
#[tactic(auto, using(crate::proofs::Sweeps::none_wanted, crate::proofs::Sweeps::cut_off))]
fn answer_for(trace: &[u8], start: u64, offset: u64, size: u64, file: u64) -> u64
    requires { is_accepted (fetches trace.now) ≡ true }
    ensures { result ≡ first_after file (got (fetches trace.now)) (start + offset) size }
{
    if size == 0 {
        return 0;
    }
    if !ranges::ends_inside(start, offset, size, file) {
        return NEVER;
    }
    swept(trace, start + offset, start + offset + size)
}

// Whether a trace is well formed.
fn check_trace(trace: &[u8]) -> Result<(), Refusal>
    ensures { as_reply result ≡ reply_to (fetches trace.now) }
{
    if trace.is_empty() || trace[0] != 1 {
        return Err(Refusal {
            why: Reason::BadTrace,
            place: 0,
        });
    }
    for at in (1..trace.len()).step_by(20) {
        if trace.len() - at < 20 || fields::value_in(trace, at, Width::Four, true) != 16 {
            return Err(Refusal {
                why: Reason::BadTrace,
                place: at,
            });
        }
        let f = fetch_in(trace, at);
        if f.offset.checked_add(f.count).is_none() {
            return Err(Refusal {
                why: Reason::TraceOverflow,
                place: at,
            });
        }
    }
    Ok(())
}

// The answer of each row, in the table.
fn fill(rows: &[TensorRow], start: u64, file: u64, trace: &[u8], answers: &mut [u64])
    requires { (is_accepted (fetches trace.now) ≡ true) × (length rows.now ≤ length answers.old) }
    ensures { answers.new ≡ filled same answers.old (replayed rows.now start file trace.now (length answers.old)) }
{
    // an index, because no lemma of the toolchain speaks of a zip with what is written
    for (i, row) in rows.iter().enumerate() {
        answers[i] = answer_for(trace, start, row[OFFSET], row[SIZE], file);
    }
}

// The first record of a trace after which each tensor of the rows is complete, in a file of so many
// bytes whose data starts at start. The rows may be anyone's.
pub fn replay_fetches(
    rows: &[TensorRow],
    start: u64,
    file: u64,
    trace: &[u8],
    answers: &mut [u64],
) -> Result<(), Refusal>
    ensures value { as_reply result ≡ reply_to (replayed rows.now start file trace.now (length answers.old)) }
    ensures answers_after { answers.new ≡ filled same answers.old (replayed rows.now start file trace.now (length answers.old)) }
{
    if answers.len() < rows.len() {
        return Err(Refusal {
            why: Reason::NoAnswerRows,
            place: 0,
        });
    }
    check_trace(trace)?;
    fill(rows, start, file, trace, answers);
    Ok(())
}
