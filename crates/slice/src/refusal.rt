// The refusals and their numbers. 24, a derived record fails the slice check, is proved never to be given.
ghost use Rattle.std.specs.Prelude.{◌≡◌};
ghost use Rattle.slice.specs.Refusing.{number};

// Why a call is refused.
#[derive(Clone, Copy, Debug, PartialEq, Eq)]
pub enum Refusal {
    // Table under 32 bytes.
    TableTooShort = 1,
    // Letters wrong, or a side the call doesn't take.
    LettersOrSide = 2,
    // Version not 1.
    Version = 3,
    // Header bytes 24-31 not zero.
    HeaderNotZero = 4,
    // Count over the room.
    CountOverRoom = 5,
    // Some record in the table fails 11 to 16.
    RecordInTable = 6,
    // Records not in strictly rising order.
    RecordOrder = 7,
    // The two tables name different features.
    DifferentFeatures = 8,
    // Slice not 240 bytes.
    SliceLength = 9,
    // Slice of another feature.
    OtherFeature = 10,
    // Kind unknown or of the other side.
    Kind = 11,
    // Record flag bits 1-7 or bytes 24-31 not zero.
    RecordNotZero = 12,
    // Cancelled, and bytes 8-23 not all 255 or 32-223 not all zero.
    CancelledNotBlank = 13,
    // A property breaks the layout.
    PropertyLayout = 14,
    // Times wrong.
    Times = 15,
    // Content wrong.
    Content = 16,
    // Same kind, sequence and correction as stored, other bytes.
    OtherBytes = 17,
    // New kind and sequence, and the count equals the room.
    TableFull = 18,
    // Instant is "none", or property over 7.
    InstantOrProperty = 19,
    // No state known at the instant.
    NoState = 20,
    // Two anchors at the instant.
    TwoAnchors = 21,
    // Withdrawn at the instant.
    Withdrawn = 22,
    // Snapshot or state buffer not 224 bytes; derived output cannot hold the result.
    BufferSize = 23,
}

impl Refusal {
    // The number of a refusal.
    pub fn number(self) -> u8
        ensures { result ≡ number self }
    {
        self as u8
    }
}
