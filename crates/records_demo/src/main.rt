// Reads the header of two tensors, a and b, into records, and prints the fields of each: the name's
// place and length, kind, dimension count, four lengths, offset and size; beyond the last there is
// none. Then the same header without its last byte, which is refused and leaves the records blank.
#![tactic(auto)]

ghost use Rattle.std.specs.Prelude.{◌≡◌, [], ◌∷◌};
ghost use Rattle.reading.specs.Reading.{seen};
ghost use Rattle.header.specs.Answers.{as_header};
ghost use Rattle.reading.specs.Ceilings.{full};
ghost use Rattle.tensor_records.specs.Records.{listing_of};
ghost use Rattle.records_demo.specs.Listed.{records_in, listed};

use header::Header;
use reading::{Limits, Refusal};
use rows::{ENTRY_WORDS, EntryRow, TENSOR_WORDS, TensorRow};
use tensor_records::TensorRecord;

// What was read: the answer, and what stands at the numbers 0, 1 and 2 of two records.
#[derive(Clone, Copy)]
struct Listing {
    answer: Result<Header, Refusal>,
    first: Option<TensorRecord>,
    second: Option<TensorRecord>,
    third: Option<TensorRecord>,
}

// Reads a header into two records that are blank before.
fn list(s: &[u8], entries: &mut [EntryRow], rows: &mut [TensorRow], blank: TensorRecord) -> Listing
    ensures value { result ≡ listed result.answer (records_in entries.old rows.old blank s.now) }
    ensures answer_value { as_header result.answer ≡ seen (λ w. w.head) (listing_of full 3 entries.old rows.old (blank ∷ blank ∷ []) s.now) }
{
    let mut records = [blank; 2];
    Listing {
        answer: tensor_records::read_records(s, Limits::FULL, 3, entries, rows, &mut records),
        first: tensor_records::get(&records, 0),
        second: tensor_records::get(&records, 1),
        third: tensor_records::get(&records, 2),
    }
}

// Prints the fields of a record on a line, or that there is none.
fn print_got(rt: &impl Print, got: Option<TensorRecord>) {
    let _ = match got {
        Some(r) => println!(rt;
            "{} {} {} {} {} {} {} {} {} {}",
            r.name_place,
            r.name_len,
            r.kind,
            r.dimensions,
            r.first,
            r.second,
            r.third,
            r.fourth,
            r.offset,
            r.size
        ),
        None => println!(rt; "none"),
    };
}

// Prints the number of tensors, or a refusal's number and place.
fn print_answer(rt: &impl Print, answer: Result<Header, Refusal>) {
    let _ = match answer {
        Ok(header) => println!(rt; "tensors {}", header.tensors),
        Err(e) => println!(rt; "refused {} {}", e.why.number(), e.place),
    };
}

// Prints an answer, and what stands at each number.
fn print_listing(rt: &impl Print, listing: Listing) {
    print_answer(rt, listing.answer);
    for got in [listing.first, listing.second, listing.third] {
        print_got(rt, got);
    }
}

// Reads a header and prints what was read.
fn show(rt: &impl Print, s: &[u8]) {
    let mut entries = [[0u64; ENTRY_WORDS]; 1];
    let mut rows = [[0u64; TENSOR_WORDS]; 2];
    let blank = tensor_records::record_of([0; TENSOR_WORDS]);
    print_listing(rt, list(s, &mut entries, &mut rows, blank));
}

// The header: its start, tensor a of kind 0 and length 5 at 0, tensor b of kind 1 and length 3 at
// 32.
fn main(rt: HostRuntime) {
    let header = b"GGUF\x03\0\0\0\x02\0\0\0\0\0\0\0\0\0\0\0\0\0\0\0\
                   \x01\0\0\0\0\0\0\0a\x01\0\0\0\x05\0\0\0\0\0\0\0\0\0\0\0\0\0\0\0\0\0\0\0\
                   \x01\0\0\0\0\0\0\0b\x01\0\0\0\x03\0\0\0\0\0\0\0\x01\0\0\0\x20\0\0\0\0\0\0\0";
    show(&rt, header);
    show(&rt, &header[..89]);
}
