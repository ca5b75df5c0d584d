// The range check: whether every tensor's data ends inside the file.
#![tactic(auto)]

ghost use Rattle.std.specs.Prelude.{◌≡◌, ◌+◌, leb};
ghost use Rattle.ranges.specs.Ranges.{check_from};
ghost use Rattle.reading.specs.Replies.{as_reply};

use reading::{Reason, Refusal};
use rows::{OFFSET, SIZE, TensorRow};

// Whether data at an offset from start, of so many bytes, ends inside a file. Only differences are
// made, which can't wrap, and the first is the same for every row.
pub fn ends_inside(start: u64, offset: u64, size: u64, file: u64) -> bool
    ensures { result ≡ leb (start + offset + size) file }
{
    let Some(area) = file.checked_sub(start) else {
        return false;
    };
    offset <= area && size <= area - offset
}

// Whether the data of every tensor row ends inside a file of so many bytes, whose data starts at
// start. The rows may be anyone's.
pub fn check_ranges(rows: &[TensorRow], start: u64, file: u64) -> Result<(), Refusal>
    ensures { as_reply result ≡ check_from start file 0 rows.now }
{
    for (i, row) in rows.iter().enumerate() {
        if !ends_inside(start, row[OFFSET], row[SIZE], file) {
            return Err(Refusal {
                why: Reason::PastTheFile,
                place: i,
            });
        }
    }
    Ok(())
}
