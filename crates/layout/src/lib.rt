// Where the data of tensors goes: offsets that are multiples of an alignment.
#![tactic(auto)]

ghost use Rattle.std.specs.Prelude.{◌≡◌};
ghost use Rattle.reading.specs.Replies.{as_result};
ghost use Rattle.layout.specs.Padding.{padded_of};
ghost use Rattle.layout.specs.Layout.{place_of};

use kinds::Measure;
use reading::Reason;

// What is laid so far: the sum of the tensors' counts of numbers, and the offset of the next
// tensor, which is a multiple of the alignment.
#[derive(Clone, Copy)]
pub struct Laid {
    pub total: u64,
    pub next: u64,
}

// A tensor's offset and size, with what is laid then.
#[derive(Clone, Copy)]
pub struct Placed {
    pub offset: u64,
    pub size: u64,
    pub laid: Laid,
}

// The least multiple of an alignment that is not below n, where it fits 64 bits. Of no alignment it
// is n.
#[tactic(auto, using(crate::proofs::Padding::paddings))]
pub fn pad(alignment: u64, n: u64) -> Option<u64>
    ensures { result ≡ padded_of alignment n }
{
    if alignment == 0 {
        return Some(n);
    }
    // Divided once: `checked_next_multiple_of` divides twice.
    match n % alignment {
        0 => Some(n),
        past => n.checked_add(alignment - past),
    }
}

// The place of the next tensor, after what is laid: its kind, its first length, its products, its
// size, the sum of products, and its end with the padding are tested in this order.
#[tactic(auto, unfolding(crate::specs::Layout::place_of))]
pub fn place(laid: Laid, shape: [u64; 4], kind: u64, alignment: u64) -> Result<Placed, Reason>
    ensures { as_result result ≡ place_of alignment laid shape kind }
{
    if !kinds::is_written(kind) {
        return Err(Reason::KindNotWritten);
    }
    let Measure { product, size } = kinds::size(shape, kind)?;
    let total = laid
        .total
        .checked_add(product)
        .ok_or(Reason::TotalOverflow)?;
    let end = laid.next.checked_add(size).ok_or(Reason::OffsetOverflow)?;
    let next = pad(alignment, end).ok_or(Reason::OffsetOverflow)?;
    Ok(Placed {
        offset: laid.next,
        size,
        laid: Laid { total, next },
    })
}
