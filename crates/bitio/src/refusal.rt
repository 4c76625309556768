// Why an operation refuses what it was handed: document 01's numbers, each with its remedy in docs/REFUSALS.md.
ghost use Rattle.std.specs.Prelude.{◌≡◌};
ghost use Rattle.bitio.specs.Refusal.{number};

#[derive(Clone, Copy, Debug, PartialEq, Eq)]
pub enum Refusal {
    ForbiddenBit = 1,
    ReservedObuType = 2,
    ExtensionMissing = 3,
    ObuSizeMalformed = 4,
    ObuPastEnd = 5,
    TemporalUnitSizeMalformed = 6,
    TemporalUnitPastEnd = 7,
    FrameUnitSizeMalformed = 8,
    FrameUnitPastEnd = 9,
    ObuLengthMalformed = 10,
    ObuLengthPastEnd = 11,
    ObuLengthZero = 12,
    NoBytes = 13,
    BitsRunOut = 14,
    UnknownProfile = 15,
    UvlcTooLong = 16,
    ReducedStillPicture = 17,
    FrameIdsOn = 18,
    UnequalIntervals = 19,
    FilmGrainOn = 20,
    NoBoards = 21,
    GopTooSmall = 22,
    TooFewFrames = 23,
    BoardWithoutFrames = 24,
    TooManyFrames = 25,
    NoSequenceHeader = 26,
    OtherSequenceHeader = 27,
    NoFrame = 28,
    KeyIsNoShownKeyFrame = 29,
    GoldenShowsExisting = 30,
    GoldenNotShown = 31,
    GoldenIsKeyFrame = 32,
    GoldenNotStored = 33,
    InputTooLong = 34,
    NoRoom = 35,
    NotAList = 36,
    EmptySlot = 37,
    NotShowable = 38,
    SeveralFrames = 39,
    ObuSizeContradicts = 40,
    ShortSignaling = 41,
    ShowsExisting = 42,
}

impl From<Refusal> for u32 {
    ghost from_gives = { λ refusal n. n ≡ number refusal };

    fn from(refusal: Refusal) -> u32 {
        refusal as u32
    }
}
