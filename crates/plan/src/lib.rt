// Whether a sheet can be written as a header, and how long that header is: everything that a writer
// has to know before it touches its output.
#![tactic(auto)]

ghost use Rattle.std.specs.Prelude.{◌≡◌, true, false, map, ℕ, suc, ◌+◌, ◌*◌, ◌≤◌, length, if◌then◌else◌, Some};
ghost use Rattle.reading.specs.Reading.{run, is_accepted};
ghost use Rattle.reading.specs.Each.{times};
ghost use Rattle.reading.specs.Replies.{as_reply, as_result};
ghost use Rattle.reading.specs.Back.{got, bytes_of_all};
ghost use Rattle.layout.specs.Layout.{place_of, layout_of};
ghost use Rattle.values.specs.Format.{is_word, alignment_key, depth, size_width};
ghost use Rattle.tensors.specs.Format.{lengths};
ghost use Rattle.values.specs.Contents.{value_bytes, entry_bytes};
ghost use Rattle.tensors.specs.Contents.{tensor_bytes};
ghost use Rattle.header.specs.Contents.{content_alignment};
ghost use Rattle.sheet.specs.Format as format;
ghost use Rattle.sheet.specs.Sheet.{sheet_of};
ghost use Rattle.layout.specs.declared.Laid.{Laid};
ghost use Rattle.plan.specs.Header as header_of;
ghost use Rattle.plan.specs.Plan as plan_of;
ghost use Rattle.plan.specs.Steps as steps;
ghost use Rattle.sheet.specs.Steps.{step_of};

use fields::Width;
use layout::{Laid, Placed};
use reading::{Reason, Refusal};
use sheet::{EntryParts, TensorParts};
use values::{Dialect, Value};

// How many records a sheet has, where its tensors begin, and whether the alignment's entry is added
// to them.
#[derive(Clone, Copy)]
pub struct Draft {
    pub entries: usize,
    pub tensors: usize,
    pub first: usize,
    pub adds: bool,
}

// And where the header will end, and where its data will start.
#[derive(Clone, Copy)]
pub struct Plan {
    pub draft: Draft,
    pub end: usize,
    pub start: usize,
}

// The alignment that a value gives a reader. It is of the type form and ends at end.
fn value_alignment(s: &[u8], at: usize, end: usize, form: u64) -> u64
    requires { is_accepted (run (format.value end form) s.now at) ≡ true }
    ensures { result ≡ content_alignment (steps.content_read (run (format.value end form) s.now at)) }
{
    let Some(width) = scalars::scalar_width(form) else {
        return 32;
    };
    let Ok((value, _)) = fields::number_at(s, at, width, true) else {
        return 32;
    };
    header::alignment_of(Value::Single(scalars::scalar_of(form, value)))
}

// The alignment that n entries, which are all there, say.
fn own_alignment(s: &[u8], n: usize) -> Option<u64>
    requires { is_accepted (run (times n format.metadata) s.now 1) ≡ true }
    ensures { result ≡ header_of.own_alignment (got (run (times n format.metadata) s.now 1)) }
{
    let mut from = 1;
    let mut said = None;
    for _ in 0..n {
        let (parts, next) = sheet::known_entry(s, from);
        if values::is_alignment_key(values::inside(s, parts.key)) {
            said = Some(value_alignment(s, parts.value, next, parts.form));
        }
        from = next;
    }
    said
}

// The place of a tensor after what is laid.
pub fn lay(laid: Laid, parts: TensorParts, alignment: u64) -> Result<Placed, Reason>
    ensures { as_result result ≡ place_of alignment laid (lengths parts.shape) parts.kind }
{
    let x = parts.shape;
    layout::place(
        laid,
        [x.first, x.second, x.third, x.fourth],
        parts.kind,
        alignment,
    )
}

// Lays m tensors, which are all there, one after the other.
fn lay_tensors(s: &[u8], first: usize, m: usize, alignment: u64) -> Result<(), Refusal>
    requires { is_accepted (run (times m format.tensor) s.now first) ≡ true }
    ensures { as_reply result ≡ plan_of.laid_of (layout_of alignment (map header_of.piece_of (got (run (times m format.tensor) s.now first)))) }
{
    let mut from = first;
    let mut laid = Laid { total: 0, next: 0 };
    for i in 0..m {
        let Some((parts, next)) = sheet::tensor_at(s, from) else {
            return Ok(());
        };
        let placed = lay(laid, parts, alignment).map_err(|why| Refusal { why, place: i })?;
        laid = placed.laid;
        from = next;
    }
    Ok(())
}

// The bytes of a size.
fn size_width(dialect: Dialect) -> usize
    ensures { result ≡ size_width dialect }
{
    if dialect.version == 1 { 4 } else { 8 }
}

// The room without n bytes.
#[tactic(auto, unfolding(crate::specs::Steps::taken_from))]
fn take_from(room: Option<usize>, n: usize) -> Option<usize>
    ensures { result ≡ steps.taken_from room n }
{
    room?.checked_sub(n)
}

// The room without an array, as it will stand in the header, in which, itself counted, depth arrays
// may stand in one another. Items that are no arrays keep their bytes there, but for the sizes of
// texts, so that they are not looked at.
#[cycle(arrays)]
fn array_room(
    room: Option<usize>,
    s: &[u8],
    at: usize,
    end: usize,
    dialect: Dialect,
    depth: u64,
) -> Option<usize>
    requires { Some end ≡ step_of (run (format.array depth (format.item depth)) s.now at) }
    ensures { result ≡ steps.taken_from room (length (value_bytes (suc depth) dialect (steps.content_read (run (format.array depth (format.item depth)) s.now at)))) }
{
    let Ok((t, p)) = fields::number_at(s, at, Width::One, true) else {
        return room;
    };
    let Ok((n, q)) = fields::number_at(s, p, Width::Four, true) else {
        return room;
    };
    let width = size_width(dialect);
    let begun = take_from(room, width + 4);
    if t == 9 {
        return arrays_room(begun, s, q, n, dialect, depth - 1);
    }
    let wider = if t == 8 {
        (width - 4) * (n as usize)
    } else {
        0
    };
    take_from(take_from(begun, end - q), wider)
}

// The room without n arrays, which are all there. Each is passed first, to know where it ends. This
// and `array_room` call each other at most depth times, so that depth bounds their stack.
#[cycle(arrays)]
fn arrays_room(
    room: Option<usize>,
    s: &[u8],
    at: usize,
    n: u64,
    dialect: Dialect,
    depth: u64,
) -> Option<usize>
    requires { is_accepted (run (times n (format.array depth (format.item depth))) s.now at) ≡ true }
    ensures { result ≡ steps.taken_from room (length (bytes_of_all (value_bytes (suc depth) dialect) (got (run (times n (format.array depth (format.item depth))) s.now at)))) }
{
    let mut left = room;
    let mut from = at;
    for _ in 0..n {
        let Some(next) = sheet::pass_array(s, from, depth) else {
            return left;
        };
        left = array_room(left, s, from, next, dialect, depth);
        from = next;
    }
    left
}

// The room without a value, which is of the type form and ends at end.
fn value_room(
    room: Option<usize>,
    s: &[u8],
    at: usize,
    end: usize,
    form: u64,
    dialect: Dialect,
) -> Option<usize>
    requires { Some end ≡ step_of (run (format.value end form) s.now at) }
    ensures { result ≡ steps.taken_from room (length (value_bytes (suc depth) dialect (steps.content_read (run (format.value end form) s.now at)))) }
{
    if form == 9 {
        return array_room(room, s, at, end, dialect, 4);
    }
    let len = end - at;
    if form == 8 {
        return take_from(take_from(room, size_width(dialect)), len);
    }
    take_from(room, len)
}

// The room without an entry.
#[tactic(auto, using(crate::proofs::Rooms::taken_thrice))]
fn entry_room(
    room: Option<usize>,
    s: &[u8],
    parts: EntryParts,
    end: usize,
    dialect: Dialect,
) -> Option<usize>
    requires { Some end ≡ step_of (run (format.value end parts.form) s.now parts.value) }
    ensures { result ≡ steps.taken_from room (size_width dialect + 4 + parts.key.len + length (value_bytes (suc depth) dialect (steps.content_read (run (format.value end parts.form) s.now parts.value)))) }
{
    let named = take_from(take_from(room, size_width(dialect) + 4), parts.key.len);
    value_room(named, s, parts.value, end, parts.form, dialect)
}

// The room without n entries, which are all there.
fn entries_room(room: Option<usize>, s: &[u8], n: usize, dialect: Dialect) -> Option<usize>
    requires { is_accepted (run (times n format.metadata) s.now 1) ≡ true }
    ensures { result ≡ steps.taken_from room (length (bytes_of_all (entry_bytes dialect) (map header_of.entry_in (got (run (times n format.metadata) s.now 1))))) }
{
    let mut left = room;
    let mut from = 1;
    for _ in 0..n {
        let (parts, next) = sheet::known_entry(s, from);
        left = entry_room(left, s, parts, next, dialect);
        from = next;
    }
    left
}

// The room without a tensor.
#[tactic(auto, using(crate::proofs::Rooms::taken_twice))]
fn tensor_room(room: Option<usize>, parts: TensorParts, dialect: Dialect) -> Option<usize>
    requires { parts.shape.dimensions ≤ 4 }
    ensures { result ≡ steps.taken_from room (size_width dialect + 16 + 8 * parts.shape.dimensions + parts.name.len) }
{
    let lengths = 8 * (parts.shape.dimensions as usize);
    take_from(
        take_from(room, size_width(dialect) + 16 + lengths),
        parts.name.len,
    )
}

// The room without m tensors, which are all there. What their offsets are does not matter.
fn tensors_room(
    room: Option<usize>,
    s: &[u8],
    first: usize,
    m: usize,
    dialect: Dialect,
) -> Option<usize>
    requires { is_accepted (run (times m format.tensor) s.now first) ≡ true }
    ensures { (a : ℕ) (laid : Laid) → result ≡ steps.taken_from room (length (bytes_of_all (tensor_bytes dialect) (header_of.laid_from a laid (got (run (times m format.tensor) s.now first))))) }
{
    let mut left = room;
    let mut from = first;
    for _ in 0..m {
        let Some((parts, next)) = sheet::tensor_at(s, from) else {
            return left;
        };
        left = tensor_room(left, parts, dialect);
        from = next;
    }
    left
}

// The room without the whole header of a sheet that is well formed.
fn header_room(s: &[u8], dialect: Dialect, draft: Draft, room: usize) -> Option<usize>
    requires s_value { is_accepted (sheet_of s.now) ≡ true }
    requires draft_value { draft ≡ plan_of.draft_with draft.adds (header_of.records_in (sheet_of s.now)) }
    ensures { (a : ℕ) → draft.adds ≡ header_of.adds a (header_of.own_alignment (header_of.records_in (sheet_of s.now)).entries) → result ≡ steps.taken_from (Some room) (header_of.end_of dialect a (header_of.records_in (sheet_of s.now))) }
{
    let width = size_width(dialect);
    let added = if draft.adds { width + 25 } else { 0 };
    let begun = take_from(Some(room), 8 + width + width + added);
    let said = entries_room(begun, s, draft.entries, dialect);
    tensors_room(said, s, draft.first, draft.tensors, dialect)
}

// The test of the room, for a sheet that is well formed.
fn plan_room(
    s: &[u8],
    dialect: Dialect,
    alignment: u64,
    draft: Draft,
    room: usize,
) -> Result<Plan, Refusal>
    requires s_value { is_accepted (sheet_of s.now) ≡ true }
    requires draft_value { draft ≡ plan_of.draft_of alignment (header_of.records_in (sheet_of s.now)) }
    ensures { as_reply result ≡ steps.roomed dialect alignment room (header_of.records_in (sheet_of s.now)) }
{
    let short = Refusal {
        why: Reason::OutputTooShort,
        place: 0,
    };
    let left = header_room(s, dialect, draft, room).ok_or(short)?;
    let end = room - left;
    let start = layout::pad(alignment, end as u64).ok_or(short)?;
    if (room as u64) < start {
        return Err(short);
    }
    Ok(Plan {
        draft,
        end,
        start: start as usize,
    })
}

// Whether both counts fit a size, the added entry included.
fn counts_fit(dialect: Dialect, draft: Draft) -> bool
    ensures { result ≡ plan_of.counts_fit dialect (draft.entries + (if draft.adds then 1 else 0)) draft.tensors }
{
    if dialect.version != 1 {
        return true;
    }
    let most: usize = if draft.adds { 4294967294 } else { 4294967295 };
    draft.entries <= most && draft.tensors <= 4294967295
}

// The tests of the tensors, of the counts and of the room.
fn plan_tensors(
    s: &[u8],
    dialect: Dialect,
    alignment: u64,
    draft: Draft,
    room: usize,
) -> Result<Plan, Refusal>
    requires s_value { is_accepted (sheet_of s.now) ≡ true }
    requires draft_value { draft ≡ plan_of.draft_of alignment (header_of.records_in (sheet_of s.now)) }
    ensures { as_reply result ≡ steps.laid dialect alignment room (header_of.records_in (sheet_of s.now)) }
{
    lay_tensors(s, draft.first, draft.tensors, alignment)?;
    if !counts_fit(dialect, draft) {
        return Err(Refusal {
            why: Reason::CountOverflow,
            place: 0,
        });
    }
    plan_room(s, dialect, alignment, draft, room)
}

// The tests of the alignment, and those after them.
fn plan_alignment(
    s: &[u8],
    dialect: Dialect,
    alignment: u64,
    draft: Draft,
    room: usize,
) -> Result<Plan, Refusal>
    requires s_value { is_accepted (sheet_of s.now) ≡ true }
    requires draft_value { draft ≡ plan_of.draft_with false (header_of.records_in (sheet_of s.now)) }
    ensures { as_reply result ≡ steps.aligned dialect alignment room (header_of.records_in (sheet_of s.now)) }
{
    if alignment == 0 || alignment % 8 != 0 {
        return Err(Refusal {
            why: Reason::BadAlignment,
            place: 0,
        });
    }
    let adds = match own_alignment(s, draft.entries) {
        Some(said) => {
            if said != alignment {
                return Err(Refusal {
                    why: Reason::OtherAlignment,
                    place: 0,
                });
            }
            false
        }
        None => alignment != 32,
    };
    if adds && 4294967295 < alignment {
        return Err(Refusal {
            why: Reason::AlignmentTooLarge,
            place: 0,
        });
    }
    plan_tensors(s, dialect, alignment, Draft { adds, ..draft }, room)
}

// All tests of a writer: for a version and byte order, an alignment, and the room of its output.
pub fn plan_header(s: &[u8], dialect: Dialect, alignment: u64, room: usize) -> Result<Plan, Refusal>
    ensures { as_reply result ≡ plan_of.plan_for dialect alignment room s.now }
{
    if !start::is_known(dialect) {
        return Err(Refusal {
            why: Reason::VersionNotWritten,
            place: 0,
        });
    }
    let counts = sheet::check(s).map_err(|place| Refusal {
        why: Reason::BadSheet,
        place,
    })?;
    let draft = Draft {
        entries: counts.entries,
        tensors: counts.tensors,
        first: counts.first,
        adds: false,
    };
    plan_alignment(s, dialect, alignment, draft, room)
}
