// The header of a model file, read from a prefix of it into two lent tables of rows.
//
// `read` checks the whole header first and fills the tables then, so that a refusal finds them as
// they were. Nothing is allocated. The rows of a short list of entries are kept meanwhile, so that
// it is read once; a longer one is read twice. Tensors are read twice, and the second time nothing
// is tested. `measure` checks a header and fills nothing.
#![tactic(auto)]

ghost use Rattle.std.specs.Prelude.{◌+◌, ◌<◌, ◌≤◌, drop, length, take, true, ◌++◌, ◌≡◌};
ghost use Rattle.header.specs.Contents.{dialect_in};
ghost use Rattle.header.specs.Answers.{as_header, reader_outcome, CameTo};
ghost use Rattle.header.specs.Steps.{Keeps, Tells, noted, as_noted, header_if_it_fits, header_after};
ghost use Rattle.reading.specs.Ceilings.{under};
ghost use Rattle.reading.specs.Each.{each, filled, fold, times};
ghost use Rattle.reading.specs.Reading.{is_accepted, run, seen};
ghost use Rattle.reading.specs.Replies.{as_answer};
ghost use Rattle.tensors.specs.Format.{offset_place, tensor, total_of};
ghost use Rattle.tensors.specs.Rows.{tensor_row};
ghost use Rattle.values.specs.Format.{entry};
ghost use Rattle.values.specs.Rows.{entry_row};
ghost use Rattle.header.specs.Format as format;

use fields::GREATEST;
use reading::{Limits, Read, Reason, Refusal};
use rows::{ENTRY_WORDS, EntryRow, TensorRow};
use start::{Rooms, Start};
use tensors::Tensor;
use values::{Dialect, Entry, Value};

// How many entry rows are kept while a header is tested. Nearly all headers have no more entries.
const KEPT: usize = 64;

// What a header says of itself. Where its numbers are big-endian, its magic may be turned round too.
// The counts are the file's own; its data begins at start.
#[derive(Clone, Copy)]
pub struct Header {
    pub version: u64,
    pub big: bool,
    pub turned: bool,
    pub entries: u64,
    pub tensors: u64,
    pub alignment: u64,
    pub end: usize,
    pub start: u64,
}

impl Header {
    // How its numbers are written.
    pub fn dialect(self) -> Dialect
        ensures { result ≡ dialect_in self }
    {
        Dialect {
            version: self.version,
            big: self.big,
            turned: self.turned,
        }
    }
}

// Whether a number is an alignment: above 0, and a multiple of 8.
pub fn is_alignment(n: u64) -> bool
    ensures { result ≡ format.is_alignment_lem n }
{
    n != 0 && n % 8 == 0
}

// The alignment that a number means: itself where it is one, and else 32.
fn usable(n: Option<u64>) -> u64
    ensures { result ≡ format.usable n }
{
    match n {
        Some(n) if is_alignment(n) => n,
        _ => 32,
    }
}

// The alignment that a value gives.
pub fn alignment_of(value: Value) -> u64
    ensures { result ≡ format.alignment_of value }
{
    match value {
        Value::Single(x) => usable(scalars::natural_of(x)),
        Value::Text(_) | Value::Array(_) => 32,
    }
}

// The alignment after an entry: the last "general.alignment" decides.
fn latest(alignment: u64, entry: Entry) -> u64
    ensures { result ≡ format.latest alignment entry }
{
    if entry.is_alignment {
        alignment_of(entry.value)
    } else {
        alignment
    }
}

// Passes n entries: the alignment that they give, and the place after them.
pub fn pass_entries(s: &[u8], at: usize, n: u64, dialect: Dialect, cap: u64) -> Read<u64>
    ensures { as_answer result ≡ seen (fold format.latest 32) (run (times n (entry dialect cap)) s.now at) }
{
    let mut from = at;
    let mut alignment = 32;
    for _ in 0..n {
        let (entry, next) = values::read_entry(s, from, dialect, cap)?;
        alignment = latest(alignment, entry);
        from = next;
    }
    Ok((alignment, from))
}

// Bits that tell multiples of an alignment: a number without any of them is one. Nearly every
// alignment is a power of two, and the bits are those below it; of any other they are all 64.
#[tactic(auto, using(crate::proofs::TellingBits::tells_below))]
fn telling_bits(alignment: u64) -> u64
    requires { 0 < alignment }
    ensures { Tells result alignment }
{
    let below = alignment - 1;
    if alignment & below == 0 {
        below
    } else {
        GREATEST
    }
}

// Notes the place of an offset that is no multiple of the alignment, where none was noted before. A
// tensor's offset is its last field, and the tensor ends at next.
fn note_offset(tensor: Tensor, next: usize, alignment: u64, bits: u64, misaligned: &mut usize)
    requires alignment_nonzero { 0 < alignment }
    requires tells { Tells bits alignment }
    requires next_value { next ≡ offset_place tensor + 8 }
    ensures { misaligned.new ≡ noted alignment misaligned.old tensor }
{
    let offset = tensor.offset;
    let aligned = offset & bits == 0 || offset % alignment == 0;
    if !aligned && *misaligned == 0 {
        *misaligned = next - 8;
    }
}

// A tensor. The order is a constant in each call, so that the compiler makes a body for each.
#[inline(always)]
fn next_tensor(s: &[u8], at: usize, dialect: Dialect, total: u64, limits: Limits) -> Read<Tensor>
    ensures { as_answer result ≡ run (under limits (tensor dialect total)) s.now at }
{
    if dialect.big {
        tensors::read_tensor(
            s,
            at,
            Dialect {
                big: true,
                ..dialect
            },
            total,
            limits,
        )
    } else {
        tensors::read_tensor(
            s,
            at,
            Dialect {
                big: false,
                ..dialect
            },
            total,
            limits,
        )
    }
}

// Passes n tensors: the place after them. In misaligned it notes the place of the first offset that
// is no multiple of the alignment, unless one is noted there before; 0, where no offset stands, is
// none. It is lent, and not a part of the answer, because as a variable of the loop it would cost
// each tensor some six instructions.
fn pass_tensors(
    s: &[u8],
    at: usize,
    n: u64,
    dialect: Dialect,
    limits: Limits,
    alignment: u64,
    misaligned: &mut usize,
) -> Result<usize, Refusal>
    requires { 0 < alignment }
    ensures { as_noted result misaligned.new ≡ seen (fold (noted alignment) misaligned.old) (run (each (λ z. under limits (tensor dialect z)) total_of n 0) s.now at) }
{
    let bits = telling_bits(alignment);
    let mut from = at;
    let mut total = 0;
    for _ in 0..n {
        let (tensor, next) = next_tensor(s, from, dialect, total, limits)?;
        note_offset(tensor, next, alignment, bits, misaligned);
        total += tensor.parameters;
        from = next;
    }
    Ok(from)
}

// Reads n entries into as many rows. Where one is refused the rows before it are written: the table
// is the caller's own, or all are known to be there. `pass_entries` is this without rows: one
// function for both would ask at each entry whether it has one.
fn list_entries(
    s: &[u8],
    at: usize,
    n: usize,
    dialect: Dialect,
    cap: u64,
    rows: &mut [EntryRow],
) -> Read<u64>
    requires { n ≤ length rows.old }
    ensures result_value { as_answer result ≡ seen (fold format.latest 32) (run (times n (entry dialect cap)) s.now at) }
    ensures rows_after { is_accepted (run (times n (entry dialect cap)) s.now at) ≡ true → rows.new ≡ filled entry_row rows.old (run (times n (entry dialect cap)) s.now at) }
{
    let mut from = at;
    let mut aligned = 32;
    for row in rows[..n].iter_mut() {
        let (entry, next) = values::read_entry(s, from, dialect, cap)?;
        *row = values::entry_row(entry);
        aligned = latest(aligned, entry);
        from = next;
    }
    Ok((aligned, from))
}

// Passes n entries as `pass_entries` does, and keeps their rows where there is room for all.
fn test_entries(
    s: &[u8],
    at: usize,
    n: u64,
    dialect: Dialect,
    cap: u64,
    kept: &mut [EntryRow],
) -> Read<u64>
    ensures result_value { as_answer result ≡ seen (fold format.latest 32) (run (times n (entry dialect cap)) s.now at) }
    ensures keeps { Keeps n kept.new (run (times n (entry dialect cap)) s.now at) }
{
    if n <= (kept.len() as u64) {
        list_entries(s, at, n as usize, dialect, cap, kept)
    } else {
        pass_entries(s, at, n, dialect, cap)
    }
}

// The first n rows of a table, at the front of another.
fn copy_rows(n: usize, from: &[EntryRow], to: &mut [EntryRow])
    requires { (n ≤ length from.now) × (n ≤ length to.old) }
    ensures { to.new ≡ take n from.now ++ drop n to.old }
{
    to[..n].copy_from_slice(&from[..n]);
}

// Writes the rows of n entries that are all there: those that were kept, or by reading once more.
fn fill_entries(
    s: &[u8],
    at: usize,
    n: usize,
    dialect: Dialect,
    cap: u64,
    kept: &[EntryRow],
    rows: &mut [EntryRow],
)
    requires n_in_bounds { n ≤ length rows.old }
    requires at_value { is_accepted (run (times n (entry dialect cap)) s.now at) ≡ true }
    requires keeps { Keeps n kept.now (run (times n (entry dialect cap)) s.now at) }
    ensures { rows.new ≡ filled entry_row rows.old (run (times n (entry dialect cap)) s.now at) }
{
    if n <= kept.len() {
        copy_rows(n, kept, rows);
    } else {
        // All are there, so that none is refused.
        let _ = list_entries(s, at, n, dialect, cap, rows);
    }
}

// Writes the rows of n tensors that are all there. It tests nothing again.
fn fill_tensors(s: &[u8], at: usize, n: usize, dialect: Dialect, rows: &mut [TensorRow])
    requires n_in_bounds { n ≤ length rows.old }
    requires at_value { is_accepted (run (each (tensor dialect) total_of n 0) s.now at) ≡ true }
    ensures { rows.new ≡ filled tensor_row rows.old (run (each (tensor dialect) total_of n 0) s.now at) }
{
    let version = dialect.version;
    let mut from = at;
    for row in rows[..n].iter_mut() {
        // The order is a constant in each call, so that the compiler makes a body for each.
        let name = if dialect.big {
            tensors::known_name(s, from, version, true)
        } else {
            tensors::known_name(s, from, version, false)
        };
        let p = name.place + name.len;
        let found = if dialect.big {
            tensors::known_after_name(s, p, true)
        } else {
            tensors::known_after_name(s, p, false)
        };
        *row = tensors::known_row(name, found);
        from = found.next;
    }
}

// The answer of a header that ends at end: its data starts at the next multiple of its alignment.
// The last tests are of that start and, where one is misaligned, of the tensors' offsets.
fn header_if_it_fits(
    start: Start,
    alignment: u64,
    end: usize,
    misaligned: usize,
) -> Result<Header, Refusal>
    ensures { as_header result ≡ header_if_it_fits start alignment end misaligned }
{
    let data_start = layout::pad(alignment, end as u64).ok_or(Refusal {
        why: Reason::DataStartOverflow,
        place: end,
    })?;
    if misaligned != 0 {
        return Err(Refusal {
            why: Reason::Misaligned,
            place: misaligned,
        });
    }
    let dialect = start.dialect;
    Ok(Header {
        version: dialect.version,
        big: dialect.big,
        turned: dialect.turned,
        entries: start.entries,
        tensors: start.tensors,
        alignment,
        end,
        start: data_start,
    })
}

// The answer of a header whose tensors were passed, or were refused.
fn header_after(
    passed: Result<usize, Refusal>,
    start: Start,
    alignment: u64,
    misaligned: usize,
) -> Result<Header, Refusal>
    ensures { as_header result ≡ header_after start alignment (as_noted passed misaligned) }
{
    let end = passed?;
    header_if_it_fits(start, alignment, end, misaligned)
}

// Tests a whole header and answers what it says of itself, with no row.
pub fn measure(s: &[u8], limits: Limits, cap: u64, rooms: Rooms) -> Result<Header, Refusal>
    ensures { as_header result ≡ seen (λ w. w.head) (run (under limits (format.header rooms cap)) s.now 0) }
{
    let (start, p) = start::read_start(s, limits, rooms)?;
    let dialect = start.dialect;
    let (alignment, q) = pass_entries(s, p, start.entries, dialect, cap)?;
    let mut noted = 0;
    let ended = pass_tensors(s, q, start.tensors, dialect, limits, alignment, &mut noted);
    header_after(ended, start, alignment, noted)
}

// Writes the rows of a header that is all there: its entries stand from p on, its tensors from q
// on.
fn fill(
    s: &[u8],
    p: usize,
    q: usize,
    start: Start,
    cap: u64,
    kept: &[EntryRow],
    entries: &mut [EntryRow],
    tensors: &mut [TensorRow],
)
    requires entries_in_bounds { (start.entries ≤ length entries.old) × (start.tensors ≤ length tensors.old) }
    requires p_value { is_accepted (run (times start.entries (entry start.dialect cap)) s.now p) ≡ true }
    requires keeps { Keeps start.entries kept.now (run (times start.entries (entry start.dialect cap)) s.now p) }
    requires q_value { is_accepted (run (each (tensor start.dialect) total_of start.tensors 0) s.now q) ≡ true }
    ensures entries_after { entries.new ≡ filled entry_row entries.old (run (times start.entries (entry start.dialect cap)) s.now p) }
    ensures tensors_after { tensors.new ≡ filled tensor_row tensors.old (run (each (tensor start.dialect) total_of start.tensors 0) s.now q) }
{
    let dialect = start.dialect;
    fill_entries(s, p, start.entries as usize, dialect, cap, kept, entries);
    fill_tensors(s, q, start.tensors as usize, dialect, tensors);
}

// Reads a header and lists its entries and its tensors, a row each, in the order of the file. Where
// it refuses, both tables stay as they were.
pub fn read(
    s: &[u8],
    limits: Limits,
    cap: u64,
    entries: &mut [EntryRow],
    tensors: &mut [TensorRow],
) -> Result<Header, Refusal>
    ensures { CameTo (reader_outcome limits cap entries.old tensors.old s.now) (as_header result) entries.new tensors.new }
{
    let rooms = Rooms {
        entries: entries.len() as u64,
        tensors: tensors.len() as u64,
    };
    let (start, p) = start::read_start(s, limits, rooms)?;
    let dialect = start.dialect;
    let mut kept = [[0; ENTRY_WORDS]; KEPT];
    let (alignment, q) = test_entries(s, p, start.entries, dialect, cap, &mut kept)?;
    let mut noted = 0;
    let ended = pass_tensors(s, q, start.tensors, dialect, limits, alignment, &mut noted);
    let header = header_after(ended, start, alignment, noted)?;
    fill(s, p, q, start, cap, &kept, entries, tensors);
    Ok(header)
}
