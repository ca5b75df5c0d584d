// How a format is written: as a program of fields, whose runs are what a reader answers
// (specs/Reading.antt), and the laws that hold for every program (proofs/): whole or in pieces,
// held to ceilings, or reading back what was written.
//
// What code hands around of it: a reader's ceilings, what was read, and why there is no answer.
#![tactic(auto)]

ghost use Rattle.std.specs.Prelude.{◌≡◌};
ghost use Rattle.reading.specs.Replies.{reason_number};

// A reader's ceilings: the highest version and the highest kind that it takes.
#[derive(Clone, Copy)]
pub struct Limits {
    pub versions: u64,
    pub kinds: u64,
}

impl Limits {
    // The ceilings of the whole format.
    pub const FULL: Limits = Limits {
        versions: 3,
        kinds: 39,
    };
}

// Why there is no answer. The numbers are those of docs/REFUSALS.md: up to 18 a reader's, 20 the
// range check's, 30 to 38 the writer's (and 13, 14, 15 and 17), and from 43 on a replay's.
#[derive(Clone, Copy, Debug, PartialEq, Eq)]
pub enum Reason {
    CutOff = 1,
    OlderFormat = 2,
    NotGguf = 3,
    UnknownVersion = 4,
    VersionAboveCeiling = 5,
    TooFewRows = 6,
    StringTooLong = 7,
    UnknownType = 8,
    NestedArray = 9,
    TooManyDimensions = 10,
    UnknownKind = 11,
    KindAboveCeiling = 12,
    ProductOverflow = 13,
    SizeOverflow = 14,
    TotalOverflow = 15,
    Misaligned = 16,
    PartialBlock = 17,
    DataStartOverflow = 18,
    PastTheFile = 20,
    VersionNotWritten = 30,
    BadSheet = 31,
    BadAlignment = 32,
    AlignmentTooLarge = 33,
    OtherAlignment = 34,
    KindNotWritten = 35,
    OffsetOverflow = 36,
    CountOverflow = 37,
    OutputTooShort = 38,
    BadTrace = 43,
    TraceOverflow = 44,
    NoAnswerRows = 45,
}

impl Reason {
    // The number under which a caller in C knows it.
    pub fn number(self) -> u64
        ensures { result ≡ reason_number self }
    {
        self as u64
    }
}

// A refusal: why, and the place that it is about.
#[derive(Clone, Copy, Debug, PartialEq, Eq)]
pub struct Refusal {
    pub why: Reason,
    pub place: usize,
}

// What a step of a reader answers: what stands at a place and the place after it, or a refusal.
pub type Read<T> = Result<(T, usize), Refusal>;
