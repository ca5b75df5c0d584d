// The keys of a header's entries in byte order, each once: which entry row comes next.
#![tactic(auto)]

ghost use Rattle.std.specs.Prelude.{◌≡◌, ℕ, IfSome, Some, if◌then◌else◌};
ghost use Rattle.values.specs.Contents.{inside_of};
ghost use Rattle.key_order.specs.Order as order;

use rows::{EntryRow, KEY_LENGTH, KEY_PLACE};
use values::Span;

// The name of a row, as the part of the prefix that holds it.
pub fn name_in(s: &[u8], place: u64, len: u64) -> &[u8]
    ensures { result.now ≡ inside_of s.now (record { place = place; len = len }) }
{
    values::inside(
        s,
        Span {
            place: place as usize,
            len: len as usize,
        },
    )
}

// The key of the row i, as the part of the prefix that holds it; an empty part where there is no
// such row.
fn key_at<'a>(s: &'a [u8], entries: &[EntryRow], i: usize) -> &'a [u8]
    ensures { result.now ≡ order.key_at s.now entries.now i }
{
    match entries.get(i) {
        Some(row) => name_in(s, row[KEY_PLACE], row[KEY_LENGTH]),
        None => name_in(s, 0, 0),
    }
}

// Whether a key is still to come, where the walk stands at last, whose key is last_key.
fn is_to_come(
    s: &[u8],
    entries: &[EntryRow],
    last: Option<usize>,
    last_key: &[u8],
    key: &[u8],
) -> bool
    requires { IfSome last (λ row. last_key.now ≡ order.key_at s.now entries.now row) }
    ensures { result ≡ order.to_come s.now entries.now last key.now }
{
    last.is_none() || fields::comes_before(last_key, key)
}

// Whether a key is better than that of the best so far, which is best_key.
fn is_better(
    s: &[u8],
    entries: &[EntryRow],
    best: Option<usize>,
    best_key: &[u8],
    key: &[u8],
) -> bool
    requires { IfSome best (λ row. best_key.now ≡ order.key_at s.now entries.now row) }
    ensures { (i : ℕ) → order.better s.now entries.now best i key.now ≡ (if result then Some i else best) }
{
    best.is_none() || !fields::comes_before(best_key, key)
}

// The row whose key comes next, in byte order, where the walk stands at last. Of equal keys the
// last row stands for all.
pub fn next_key(s: &[u8], entries: &[EntryRow], last: Option<usize>) -> Option<usize>
    ensures { result ≡ order.next_key s.now entries.now last }
{
    // The two keys that each row's is compared with are looked up once, and not at each row.
    let last_key = match last {
        Some(row) => key_at(s, entries, row),
        None => name_in(s, 0, 0),
    };
    let mut best = None;
    let mut best_key = last_key;
    for i in 0..entries.len() {
        let key = key_at(s, entries, i);
        if is_to_come(s, entries, last, last_key, key)
            && is_better(s, entries, best, best_key, key)
        {
            best = Some(i);
            best_key = key;
        }
    }
    best
}
