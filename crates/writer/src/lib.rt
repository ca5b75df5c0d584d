// The header of a sheet, written field after field: each field writer is lent the rest of the
// output, from its middle, and answers its count of bytes.
//
// `write_header` asks `plan` first, so that a refusal finds the output as it was.
#![tactic(auto)]

ghost use Rattle.std.specs.Prelude.{◌≡◌, true, map, ◌++◌, ℕ, suc, ◌+◌, ◌≤◌, ◌<◌, length, Some};
ghost use Rattle.reading.specs.Reading.{run, is_accepted};
ghost use Rattle.reading.specs.Each.{times};
ghost use Rattle.reading.specs.Replies.{as_reply, gives};
ghost use Rattle.reading.specs.Back.{got, bytes_of_all};
ghost use Rattle.fields.specs.Bytes.{bytes_of, Wrote};
ghost use Rattle.fields.specs.Value.{width_of};
ghost use Rattle.layout.specs.Layout.{nothing_laid, layout_of};
ghost use Rattle.values.specs.Format.{size_width, depth};
ghost use Rattle.scalars.specs.Scalars.{scalar_width};
ghost use Rattle.values.specs.Contents as contents;
ghost use Rattle.tensors.specs.Contents.{content_of, length_bytes, shape_bytes, kind_and_offset_bytes, tensor_bytes};
ghost use Rattle.start.specs.Format.{little_magic};
ghost use Rattle.start.specs.Contents.{start_bytes};
ghost use Rattle.header.specs.Contents.{header_bytes};
ghost use Rattle.sheet.specs.Format as format;
ghost use Rattle.sheet.specs.Sheet.{sheet_of};
ghost use Rattle.plan.specs.Header as header_of;
ghost use Rattle.plan.specs.Plan as plan_of;
ghost use Rattle.writer.specs.Output as output;
ghost use Rattle.plan.specs.Steps.{content_read};
ghost use Rattle.writer.specs.Steps.{coming_before, entry_count, length_size, number_in, shape_size};
ghost use Rattle.sheet.specs.Steps.{step_of};

use fields::Width;
use layout::Laid;
use plan::{Draft, Plan};
use reading::Refusal;
use sheet::{EntryParts, TensorParts};
use tensors::Shape;
use values::Dialect;

// Where a header that was written ends, and where its data starts.
#[derive(Clone, Copy)]
pub struct Written {
    pub end: usize,
    pub start: usize,
}

// How many bytes were written, and the place in the sheet after what they say.
#[derive(Clone, Copy)]
pub struct Copied {
    pub written: usize,
    pub next: usize,
}

// A size.
#[tactic(auto, unfolding(values::specs::Contents::size_bytes))]
fn write_size(out: &mut [u8], n: u64, dialect: Dialect) -> usize
    requires { size_width dialect ≤ length out.old }
    ensures value { result ≡ size_width dialect }
    ensures wrote { Wrote (contents.size_bytes dialect n) out.old out.new result }
{
    if dialect.version == 1 {
        fields::put_number(out, n, Width::Four, dialect.big)
    } else {
        fields::put_number(out, n, Width::Eight, dialect.big)
    }
}

// A text, after its size.
#[tactic(auto, using(fields::proofs::Chain::chain), unfolding(values::specs::Contents::text_bytes))]
fn write_string(out: &mut [u8], text: &[u8], dialect: Dialect) -> usize
    requires { size_width dialect + length text.now ≤ length out.old }
    ensures value { result ≡ size_width dialect + length text.now }
    ensures wrote { Wrote (contents.text_bytes dialect text.now) out.old out.new result }
{
    let a = write_size(out, text.len() as u64, dialect);
    a + fields::copy_bytes(&mut out[a..], text)
}

// The number of a type, of a kind, or a count of dimensions.
#[tactic(auto, unfolding(values::specs::Contents::type_bytes))]
fn write_type(out: &mut [u8], t: u64, dialect: Dialect) -> usize
    requires { 4 ≤ length out.old }
    ensures value { result ≡ 4 }
    ensures wrote { Wrote (contents.type_bytes dialect t) out.old out.new result }
{
    fields::put_number(out, t, Width::Four, dialect.big)
}

// A scalar of the type t, which is there.
fn write_scalar(
    out: &mut [u8],
    s: &[u8],
    at: usize,
    t: u64,
    width: Width,
    dialect: Dialect,
) -> usize
    requires width_value { width_of width ≡ scalar_width t }
    requires at_value { is_accepted (run (format.scalar t) s.now at) ≡ true }
    requires t_in_bounds { scalar_width t ≤ length out.old }
    ensures value { result ≡ scalar_width t }
    ensures wrote { Wrote (bytes_of dialect.big (scalar_width t) (number_in (run (format.scalar t) s.now at))) out.old out.new result }
{
    let Ok((value, _)) = fields::number_at(s, at, width, true) else {
        return 0;
    };
    fields::put_number(out, value, width, dialect.big)
}

// An item of an array, which is there and no array.
fn write_item(out: &mut [u8], s: &[u8], at: usize, t: u64, dialect: Dialect) -> Copied
    requires at_value { is_accepted (run (format.item 1 t) s.now at) ≡ true }
    requires at_in_bounds { length (contents.value_bytes 1 dialect (content_read (run (format.item 1 t) s.now at))) ≤ length out.old }
    ensures wrote { Wrote (contents.value_bytes 1 dialect (content_read (run (format.item 1 t) s.now at))) out.old out.new result.written }
    ensures next_value { Some result.next ≡ step_of (run (format.item 1 t) s.now at) }
{
    if let Some(width) = scalars::scalar_width(t) {
        let written = write_scalar(out, s, at, t, width, dialect);
        return Copied {
            written,
            next: at + written,
        };
    }
    let Some((span, next)) = sheet::text_at(s, at) else {
        return Copied {
            written: 0,
            next: at,
        };
    };
    let written = write_string(out, values::inside(s, span), dialect);
    Copied { written, next }
}

// n items of the type t, which are all there and no arrays. This loop stands in `write_arrays` and
// in `write_entries` too: one for all would take a ghost value that says what is read, and a call
// in a cycle of calls can pick none.
fn write_items(out: &mut [u8], s: &[u8], at: usize, n: u64, t: u64, dialect: Dialect) -> Copied
    requires at_value { is_accepted (run (times n (format.item 1 t)) s.now at) ≡ true }
    requires at_in_bounds { length (bytes_of_all (contents.value_bytes 1 dialect) (got (run (times n (format.item 1 t)) s.now at))) ≤ length out.old }
    ensures wrote { Wrote (bytes_of_all (contents.value_bytes 1 dialect) (got (run (times n (format.item 1 t)) s.now at))) out.old out.new result.written }
    ensures next_value { Some result.next ≡ step_of (run (times n (format.item 1 t)) s.now at) }
{
    let mut from = at;
    let mut done = 0;
    for _ in 0..n {
        let copied = write_item(&mut out[done..], s, from, t, dialect);
        done += copied.written;
        from = copied.next;
    }
    Copied {
        written: done,
        next: from,
    }
}

// An array, which is there and in which, itself counted, depth arrays may stand in one another: its
// item type, its count and its items.
#[cycle(arrays)]
#[tactic(auto, using(plan::proofs::ArraysSaid::no_type, plan::proofs::ArraysSaid::no_count, sheet::proofs::SheetArrays::array_deep))]
fn write_array_payload(out: &mut [u8], s: &[u8], at: usize, dialect: Dialect, depth: u64) -> Copied
    requires at_value { is_accepted (run (format.array depth (format.item depth)) s.now at) ≡ true }
    requires at_in_bounds { length (contents.value_bytes (suc depth) dialect (content_read (run (format.array depth (format.item depth)) s.now at))) ≤ length out.old }
    ensures wrote { Wrote (contents.value_bytes (suc depth) dialect (content_read (run (format.array depth (format.item depth)) s.now at))) out.old out.new result.written }
    ensures next_value { Some result.next ≡ step_of (run (format.array depth (format.item depth)) s.now at) }
{
    let none = Copied {
        written: 0,
        next: at,
    };
    let Ok((t, p)) = fields::number_at(s, at, Width::One, true) else {
        return none;
    };
    let Ok((n, q)) = fields::number_at(s, p, Width::Four, true) else {
        return none;
    };
    let a = write_type(out, t, dialect);
    let b = a + write_size(&mut out[a..], n, dialect);
    if t == 9 {
        let arrays = write_arrays(&mut out[b..], s, q, n, dialect, depth - 1);
        return Copied {
            written: b + arrays.written,
            next: arrays.next,
        };
    }
    let items = write_items(&mut out[b..], s, q, n, t, dialect);
    Copied {
        written: b + items.written,
        next: items.next,
    }
}

// n arrays, which are all there. This and `write_array_payload` call each other at most depth times,
// so that depth bounds their stack.
#[cycle(arrays)]
fn write_arrays(out: &mut [u8], s: &[u8], at: usize, n: u64, dialect: Dialect, depth: u64) -> Copied
    requires at_value { is_accepted (run (times n (format.array depth (format.item depth))) s.now at) ≡ true }
    requires at_in_bounds { length (bytes_of_all (contents.value_bytes (suc depth) dialect) (got (run (times n (format.array depth (format.item depth))) s.now at))) ≤ length out.old }
    ensures wrote { Wrote (bytes_of_all (contents.value_bytes (suc depth) dialect) (got (run (times n (format.array depth (format.item depth))) s.now at))) out.old out.new result.written }
    ensures next_value { Some result.next ≡ step_of (run (times n (format.array depth (format.item depth))) s.now at) }
{
    let mut from = at;
    let mut done = 0;
    for _ in 0..n {
        let copied = write_array_payload(&mut out[done..], s, from, dialect, depth);
        done += copied.written;
        from = copied.next;
    }
    Copied {
        written: done,
        next: from,
    }
}

// The value of an entry that ends at end, without its type.
fn write_metadata_value(
    out: &mut [u8],
    s: &[u8],
    at: usize,
    end: usize,
    form: u64,
    dialect: Dialect,
) -> usize
    requires end_value { Some end ≡ step_of (run (format.value end form) s.now at) }
    requires at_in_bounds { length (contents.value_bytes (suc depth) dialect (content_read (run (format.value end form) s.now at))) ≤ length out.old }
    ensures { Wrote (contents.value_bytes (suc depth) dialect (content_read (run (format.value end form) s.now at))) out.old out.new result }
{
    if let Some(width) = scalars::scalar_width(form) {
        return write_scalar(out, s, at, form, width, dialect);
    }
    if form == 9 {
        return write_array_payload(out, s, at, dialect, 4).written;
    }
    write_string(out, &s[at..end], dialect)
}

// An entry: its key, its type, and its value, which stands in the sheet up to end.
fn write_entry(
    out: &mut [u8],
    key: &[u8],
    s: &[u8],
    at: usize,
    end: usize,
    form: u64,
    dialect: Dialect,
) -> usize
    requires end_value { Some end ≡ step_of (run (format.value end form) s.now at) }
    requires at_in_bounds { size_width dialect + length key.now + 4 + length (contents.value_bytes (suc depth) dialect (content_read (run (format.value end form) s.now at))) ≤ length out.old }
    ensures { Wrote (contents.text_bytes dialect key.now ++ contents.type_bytes dialect form ++ contents.value_bytes (suc depth) dialect (content_read (run (format.value end form) s.now at))) out.old out.new result }
{
    let a = write_string(out, key, dialect);
    let b = a + write_type(&mut out[a..], form, dialect);
    b + write_metadata_value(&mut out[b..], s, at, end, form, dialect)
}

// n entries from a place on, which are all there.
fn write_entries(out: &mut [u8], s: &[u8], at: usize, n: usize, dialect: Dialect) -> Copied
    requires at_value { is_accepted (run (times n format.metadata) s.now at) ≡ true }
    requires at_in_bounds { length (bytes_of_all (contents.entry_bytes dialect) (map header_of.entry_in (got (run (times n format.metadata) s.now at)))) ≤ length out.old }
    ensures wrote { Wrote (bytes_of_all (contents.entry_bytes dialect) (map header_of.entry_in (got (run (times n format.metadata) s.now at)))) out.old out.new result.written }
    ensures next_value { Some result.next ≡ step_of (run (times n format.metadata) s.now at) }
{
    let mut from = at;
    let mut done = 0;
    for _ in 0..n {
        let (parts, next) = sheet::known_entry(s, from);
        done += write_entry(
            &mut out[done..],
            values::inside(s, parts.key),
            s,
            parts.value,
            next,
            parts.form,
            dialect,
        );
        from = next;
    }
    Copied {
        written: done,
        next: from,
    }
}

// The entry that says the alignment.
fn write_alignment(out: &mut [u8], alignment: u64, dialect: Dialect) -> usize
    requires { size_width dialect + 25 ≤ length out.old }
    ensures value { result ≡ size_width dialect + 25 }
    ensures wrote { Wrote (contents.entry_bytes dialect (header_of.alignment_entry alignment)) out.old out.new result }
{
    let a = write_string(out, b"general.alignment", dialect);
    let b = a + write_type(&mut out[a..], 4, dialect);
    b + fields::put_number(&mut out[b..], alignment, Width::Four, dialect.big)
}

// How many of n entries, which are all there, come before the alignment's own in the byte order of
// keys.
fn entries_before(s: &[u8], n: usize) -> usize
    requires { is_accepted (run (times n format.metadata) s.now 1) ≡ true }
    ensures { result ≡ coming_before (got (run (times n format.metadata) s.now 1)) }
{
    let mut from = 1;
    for i in 0..n {
        let (parts, next) = sheet::known_entry(s, from);
        if fields::comes_before(b"general.alignment", values::inside(s, parts.key)) {
            return i;
        }
        from = next;
    }
    n
}

// The entries, with the alignment's own in its sorted place where it is added.
fn write_metadata_section(
    out: &mut [u8],
    s: &[u8],
    draft: Draft,
    alignment: u64,
    dialect: Dialect,
) -> usize
    requires s_value { is_accepted (run (times draft.entries format.metadata) s.now 1) ≡ true }
    requires s_in_bounds { length (bytes_of_all (contents.entry_bytes dialect) (header_of.entries_with draft.adds alignment (got (run (times draft.entries format.metadata) s.now 1)))) ≤ length out.old }
    ensures { Wrote (bytes_of_all (contents.entry_bytes dialect) (header_of.entries_with draft.adds alignment (got (run (times draft.entries format.metadata) s.now 1)))) out.old out.new result }
{
    if draft.adds {
        let n = entries_before(s, draft.entries);
        let lower = write_entries(out, s, 1, n, dialect);
        let a = lower.written;
        let b = a + write_alignment(&mut out[a..], alignment, dialect);
        let upper = write_entries(&mut out[b..], s, lower.next, draft.entries - n, dialect);
        return b + upper.written;
    }
    write_entries(out, s, 1, draft.entries, dialect).written
}

// The length at the place i of a shape of n dimensions: beyond those nothing is written.
#[tactic(auto, unfolding(tensors::specs::Contents::length_bytes))]
fn write_length(out: &mut [u8], n: u64, i: u64, v: u64, dialect: Dialect) -> usize
    requires { length_size n i ≤ length out.old }
    ensures value { result ≡ length_size n i }
    ensures wrote { Wrote (length_bytes dialect n i v) out.old out.new result }
{
    if i < n {
        fields::put_number(out, v, Width::Eight, dialect.big)
    } else {
        0
    }
}

// The lengths at the places i and i + 1 of a shape of n dimensions.
fn write_two_lengths(
    out: &mut [u8],
    n: u64,
    i: u64,
    first: u64,
    second: u64,
    dialect: Dialect,
) -> usize
    requires i_bound { i < 4 }
    requires i_in_bounds { length_size n i + length_size n (i + 1) ≤ length out.old }
    ensures value { result ≡ length_size n i + length_size n (i + 1) }
    ensures wrote { Wrote (length_bytes dialect n i first ++ length_bytes dialect n (i + 1) second) out.old out.new result }
{
    let a = write_length(out, n, i, first, dialect);
    a + write_length(&mut out[a..], n, i + 1, second, dialect)
}

// The count of dimensions, and that many lengths.
fn write_shape(out: &mut [u8], x: Shape, dialect: Dialect) -> usize
    requires { shape_size x.dimensions ≤ length out.old }
    ensures value { result ≡ shape_size x.dimensions }
    ensures wrote { Wrote (shape_bytes dialect x) out.old out.new result }
{
    let n = x.dimensions;
    let a = write_type(out, n, dialect);
    let b = a + write_two_lengths(&mut out[a..], n, 0, x.first, x.second, dialect);
    b + write_two_lengths(&mut out[b..], n, 2, x.third, x.fourth, dialect)
}

// The kind and the offset.
#[tactic(auto, using(fields::proofs::Chain::chain), unfolding(tensors::specs::Contents::kind_and_offset_bytes))]
fn write_kind_and_offset(out: &mut [u8], kind: u64, offset: u64, dialect: Dialect) -> usize
    requires { 12 ≤ length out.old }
    ensures value { result ≡ 12 }
    ensures wrote { Wrote (kind_and_offset_bytes dialect kind offset) out.old out.new result }
{
    let a = write_type(out, kind, dialect);
    a + fields::put_number(&mut out[a..], offset, Width::Eight, dialect.big)
}

// A tensor: its name, its shape, its kind and its offset.
fn write_tensor_info(
    out: &mut [u8],
    name: &[u8],
    shape: Shape,
    kind: u64,
    offset: u64,
    dialect: Dialect,
) -> usize
    requires { size_width dialect + length name.now + shape_size shape.dimensions + 12 ≤ length out.old }
    ensures value { result ≡ size_width dialect + length name.now + shape_size shape.dimensions + 12 }
    ensures wrote { Wrote (tensor_bytes dialect (content_of name.now shape kind offset)) out.old out.new result }
{
    let a = write_string(out, name, dialect);
    let b = a + write_shape(&mut out[a..], shape, dialect);
    b + write_kind_and_offset(&mut out[b..], kind, offset, dialect)
}

// A tensor whose parts stand in the sheet, at the offset where it is laid.
fn write_laid_tensor(
    out: &mut [u8],
    s: &[u8],
    parts: TensorParts,
    offset: u64,
    dialect: Dialect,
) -> usize
    requires { size_width dialect + length (contents.inside_of s.now parts.name) + shape_size parts.shape.dimensions + 12 ≤ length out.old }
    ensures value { result ≡ size_width dialect + length (contents.inside_of s.now parts.name) + shape_size parts.shape.dimensions + 12 }
    ensures wrote { Wrote (tensor_bytes dialect (content_of (contents.inside_of s.now parts.name) parts.shape parts.kind offset)) out.old out.new result }
{
    write_tensor_info(
        out,
        values::inside(s, parts.name),
        parts.shape,
        parts.kind,
        offset,
        dialect,
    )
}

// m tensors from a place on, which are all there and can be laid.
fn write_tensor_info_section(
    out: &mut [u8],
    s: &[u8],
    first: usize,
    m: usize,
    alignment: u64,
    dialect: Dialect,
) -> usize
    requires first_value { is_accepted (run (times m format.tensor) s.now first) ≡ true }
    requires value { gives tt ≡ plan_of.laid_of (layout_of alignment (map header_of.piece_of (got (run (times m format.tensor) s.now first)))) }
    requires first_in_bounds { length (bytes_of_all (tensor_bytes dialect) (header_of.laid_from alignment nothing_laid (got (run (times m format.tensor) s.now first)))) ≤ length out.old }
    ensures { Wrote (bytes_of_all (tensor_bytes dialect) (header_of.laid_from alignment nothing_laid (got (run (times m format.tensor) s.now first)))) out.old out.new result }
{
    let mut from = first;
    let mut laid = Laid { total: 0, next: 0 };
    let mut done = 0;
    for _ in 0..m {
        let Some((parts, next)) = sheet::tensor_at(s, from) else {
            return done;
        };
        let Ok(placed) = plan::lay(laid, parts, alignment) else {
            return done;
        };
        done += write_laid_tensor(&mut out[done..], s, parts, placed.offset, dialect);
        laid = placed.laid;
        from = next;
    }
    done
}

// The magic and the version.
fn write_magic(out: &mut [u8], dialect: Dialect) -> usize
    requires { 8 ≤ length out.old }
    ensures value { result ≡ 8 }
    ensures wrote { Wrote (bytes_of dialect.turned 4 little_magic ++ contents.type_bytes dialect dialect.version) out.old out.new result }
{
    let a = fields::put_number(out, 0x46554747, Width::Four, dialect.turned);
    a + write_type(&mut out[a..], dialect.version, dialect)
}

// What stands before the first record.
fn write_start(out: &mut [u8], tensors: u64, entries: u64, dialect: Dialect) -> usize
    requires { 8 + size_width dialect + size_width dialect ≤ length out.old }
    ensures value { result ≡ 8 + size_width dialect + size_width dialect }
    ensures wrote { Wrote (start_bytes (record { dialect = dialect; tensors = tensors; entries = entries })) out.old out.new result }
{
    let a = write_magic(out, dialect);
    let b = a + write_size(&mut out[a..], tensors, dialect);
    b + write_size(&mut out[b..], entries, dialect)
}

// How many entries the header has, the added one included.
fn entry_count(draft: Draft) -> u64
    requires { draft.entries < 18446744073709551615 }
    ensures { result ≡ entry_count draft }
{
    if draft.adds {
        draft.entries as u64 + 1
    } else {
        draft.entries as u64
    }
}

// The whole header of a sheet for which the plan was made.
fn write_records(out: &mut [u8], s: &[u8], plan: Plan, alignment: u64, dialect: Dialect) -> usize
    requires { gives plan ≡ plan_of.plan_for dialect alignment (length out.old) s.now }
    ensures { Wrote (output.header_for dialect alignment s.now) out.old out.new result }
{
    let draft = plan.draft;
    let a = write_start(out, draft.tensors as u64, entry_count(draft), dialect);
    let b = a + write_metadata_section(&mut out[a..], s, draft, alignment, dialect);
    b + write_tensor_info_section(
        &mut out[b..],
        s,
        draft.first,
        draft.tensors,
        alignment,
        dialect,
    )
}

// Writes the header of a sheet, and zeros up to the start of its data. Where it refuses, the output
// stays as it was.
pub fn write_header(
    s: &[u8],
    dialect: Dialect,
    alignment: u64,
    out: &mut [u8],
) -> Result<Written, Refusal>
    ensures value { as_reply result ≡ output.written_of (plan_of.plan_for dialect alignment (length out.old) s.now) }
    ensures out_after { out.new ≡ output.left_by (plan_of.plan_for dialect alignment (length out.old) s.now) (output.header_for dialect alignment s.now) out.old }
{
    let plan = plan::plan_header(s, dialect, alignment, out.len())?;
    let end = write_records(out, s, plan, alignment, dialect);
    fields::put_zeros(&mut out[end..], plan.start - plan.end);
    Ok(Written {
        end: plan.end,
        start: plan.start,
    })
}
