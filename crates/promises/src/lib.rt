// What holds of the writer and the reader together: theorems, and the one function that is both.
#![tactic(auto)]

ghost use Rattle.promises.specs.RoundTrip.{WroteAndRead};

use header::Header;
use reading::{Limits, Refusal};
use rows::{EntryRow, TensorRow};
use values::Dialect;
use writer::Written;

// What was written, and what was read of it.
#[derive(Clone, Copy)]
pub struct WrittenAndRead {
    pub written: Result<Written, Refusal>,
    pub read: Result<Header, Refusal>,
}

// Writes the header of a sheet, and reads the output: whatever the sheet, where it was written and
// there are rows enough, the answer and both tables say the sheet.
pub fn write_then_read(
    sheet: &[u8],
    dialect: Dialect,
    alignment: u64,
    cap: u64,
    out: &mut [u8],
    entries: &mut [EntryRow],
    tensors: &mut [TensorRow],
) -> WrittenAndRead
    ensures { WroteAndRead dialect alignment cap sheet.now out.old entries.old tensors.old result out.new entries.new tensors.new }
{
    let written = writer::write_header(sheet, dialect, alignment, out);
    let read = header::read(out, Limits::FULL, cap, entries, tensors);
    WrittenAndRead { written, read }
}
