// What stands before the records of a header: the magic, the version and the two counts.
#![tactic(auto)]

ghost use Rattle.std.specs.Prelude.{◌+◌, ◌≡◌};
ghost use Rattle.reading.specs.Ceilings.{under};
ghost use Rattle.reading.specs.Reading.{run};
ghost use Rattle.reading.specs.Replies.{as_answer};
ghost use Rattle.values.specs.Format.{size_width};
ghost use Rattle.start.specs.Format as format;

use fields::Width;
use reading::{Limits, Read, Reason, Refusal};
use values::Dialect;

// How many rows there are.
#[derive(Clone, Copy)]
pub struct Rooms {
    pub entries: u64,
    pub tensors: u64,
}

impl Rooms {
    // Rows for any count that a header can tell.
    pub const ENOUGH: Rooms = Rooms {
        entries: u64::MAX,
        tensors: u64::MAX,
    };
}

// What stands before the first record.
#[derive(Clone, Copy)]
pub struct Start {
    pub dialect: Dialect,
    pub tensors: u64,
    pub entries: u64,
}

// Whether a number is the magic of a format before this one.
fn is_older(magic: u64) -> bool
    ensures { result ≡ format.older_magic magic }
{
    matches!(magic, 0x67676d6c | 0x67676d66 | 0x67676a74 | 0x67676c61)
}

// The magic: whether its bytes are turned round.
#[tactic(auto, using(reading::proofs::RunLaws::run_bind), unfolding(crate::specs::Format::magic, reading::specs::Reading::here, reading::specs::Reading::run, reading::specs::Reading::and_then))]
fn read_magic(s: &[u8]) -> Read<bool>
    ensures { as_answer result ≡ run format.magic s.now 0 }
{
    let (magic, next) = fields::number_at(s, 0, Width::Four, false)?;
    match magic {
        0x46554747 => Ok((false, next)),
        0x47475546 => Ok((true, next)),
        _ if is_older(magic) => Err(Refusal {
            why: Reason::OlderFormat,
            place: 0,
        }),
        _ => Err(Refusal {
            why: Reason::NotGguf,
            place: 0,
        }),
    }
}

// Versions 1 to 3.
fn is_version(version: u64) -> bool
    ensures { result ≡ format.known_version version }
{
    (1..=3).contains(&version)
}

// Whether a file can have this form: the big-endian one behind a magic that is not turned round is
// there in version 3 alone.
pub fn is_known(dialect: Dialect) -> bool
    ensures { result ≡ format.known_dialect dialect }
{
    match (dialect.big, dialect.turned) {
        (true, false) => dialect.version == 3,
        (false, true) => false,
        _ => is_version(dialect.version),
    }
}

// What a version's number says, read in the byte order of the magic.
fn dialect_by(turned: bool, version: u64) -> Dialect
    ensures { result ≡ format.dialect_by turned version }
{
    let (version, big) = match version {
        0x03000000 if !turned => (3, true),
        _ => (version, turned),
    };
    Dialect {
        version,
        big,
        turned,
    }
}

// The version and the byte order, where the version is not above the reader's ceiling.
#[tactic(auto, using(crate::proofs::Steps::steps), unfolding(crate::specs::Format::version, reading::specs::Reading::here, reading::specs::Reading::run, reading::specs::Reading::and_then, reading::specs::Ceilings::under))]
fn read_version(s: &[u8], at: usize, turned: bool, limits: Limits) -> Read<Dialect>
    ensures { as_answer result ≡ run (under limits (format.version turned)) s.now at }
{
    let (version, next) = fields::number_at(s, at, Width::Four, turned)?;
    let dialect = dialect_by(turned, version);
    if !is_known(dialect) {
        return Err(Refusal {
            why: Reason::UnknownVersion,
            place: at,
        });
    }
    if limits.versions < dialect.version {
        return Err(Refusal {
            why: Reason::VersionAboveCeiling,
            place: at,
        });
    }
    Ok((dialect, next))
}

// The two counts, where there are rows for as many.
#[tactic(auto, using(reading::proofs::RunLaws::run_bind), unfolding(crate::specs::Format::counts, reading::specs::Reading::here, reading::specs::Reading::run, reading::specs::Reading::and_then))]
fn read_counts(s: &[u8], at: usize, dialect: Dialect, rooms: Rooms) -> Read<Start>
    ensures { as_answer result ≡ run (format.counts rooms dialect) s.now at }
{
    let (tensors, entries_at) = values::read_version_size(s, at, dialect)?;
    let (entries, next) = values::read_version_size(s, entries_at, dialect)?;
    if rooms.tensors < tensors {
        return Err(Refusal {
            why: Reason::TooFewRows,
            place: at,
        });
    }
    if rooms.entries < entries {
        return Err(Refusal {
            why: Reason::TooFewRows,
            place: entries_at,
        });
    }
    Ok((
        Start {
            dialect,
            tensors,
            entries,
        },
        next,
    ))
}

// All that stands before the first record.
#[tactic(auto, using(crate::proofs::Steps::steps), unfolding(crate::specs::Format::start, reading::specs::Reading::and_then))]
pub fn read_start(s: &[u8], limits: Limits, rooms: Rooms) -> Read<Start>
    ensures { as_answer result ≡ run (under limits (format.start rooms)) s.now 0 }
{
    let (turned, version_at) = read_magic(s)?;
    let (dialect, counts_at) = read_version(s, version_at, turned, limits)?;
    read_counts(s, counts_at, dialect, rooms)
}

// Where the entries begin: past the magic, the version and the two counts.
pub fn first_entry(dialect: Dialect) -> usize
    ensures { result ≡ 8 + size_width dialect + size_width dialect }
{
    if dialect.version == 1 { 16 } else { 24 }
}
