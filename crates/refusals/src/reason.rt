// Why a call is refused: the closed list, in the order of its numbers.
ghost use Rattle.std.specs.Prelude.{◌≡◌};
ghost use Rattle.refusals.specs.Numbers.{number_of, layer_of};

use crate::layer::Layer;

#[derive(Clone, Copy, PartialEq, Eq, Debug)]
pub enum Reason {
    // the match is over
    MatchOver = 1,
    // the call belongs to another phase
    WrongPhase,
    // the offer handed in is not the standing one
    NotStandingOffer,
    // a die is outside 1 to 6
    DieOutOfRange,
    // the opening dice are equal
    EqualOpeningDice,
    // no cube is offered in the Crawford game
    CrawfordGame,
    // the cube is the other player's
    OthersCube,
    // the cube stands at 64
    CubeAtLimit,
    // a concession's level is outside 1 to 3
    LevelOutOfRange,
    // the table's number of checkers is outside its range
    TableSizeOutOfRange,
    // the table's parts have another number of entries
    WrongPartSize,
    // scale or grain is not that of the game's earlier judged turns
    OtherScale,
    // a turn has more moves than dice
    TooManyMoves,
    // a move's start is outside 1 to 25, or its die is not left
    NoSuchStartOrDie,
    // a move is not legal
    IllegalMove,
    // more dice can be used
    TooFewDice,
    // the smaller die is used where the larger is due
    SmallerDie,
    // the sides are no ending for the table
    NotAnEnding,
    // the ending's length passes the kind's reach
    PastReach,
    // a weight is 0, or carries the sum past 36
    WeightOutOfRange,
    // a sum is closed below 36
    SumNotFull,
    // a sum is closed whose greatest age is the reach
    SumTooOld,
    // a match's length is outside 1 to 25
    MatchLengthOutOfRange,
    // a board breaks the board's rule, or is set with an empty side
    BoardRuleBroken,
    // a sheet has more than 32,767 bytes
    SheetTooLong,
    // a sheet's last line is no trailer
    NoTrailer,
    // a line has no listed form
    NoSuchForm,
    // a line may not come here
    LineOutOfPlace,
    // a game line or trailer names a wrong place
    WrongPlace,
    // a line has another player's letter, or other dice than the opening's
    WrongPlayerOrDice,
    // a buffer is too short
    BufferTooShort,
    // a report's buffer has less than 8,192 bytes
    ReportBufferTooShort,
}

impl Reason {
    // The number by which documents and reports name the refusal.
    pub fn number(self) -> u8
        ensures { result ≡ number_of self }
    {
        // Stays: the cast gives the number declared with the variant, as for the layers.
        self as u8
    }

    pub fn layer(self) -> Layer
        ensures { result ≡ layer_of self }
    {
        match self {
            Reason::TooManyMoves
            | Reason::NoSuchStartOrDie
            | Reason::IllegalMove
            | Reason::TooFewDice
            | Reason::SmallerDie => Layer::Board,
            Reason::MatchOver
            | Reason::WrongPhase
            | Reason::NotStandingOffer
            | Reason::DieOutOfRange
            | Reason::EqualOpeningDice
            | Reason::CrawfordGame
            | Reason::OthersCube
            | Reason::CubeAtLimit
            | Reason::LevelOutOfRange
            | Reason::MatchLengthOutOfRange
            | Reason::BoardRuleBroken => Layer::Match,
            Reason::TableSizeOutOfRange
            | Reason::WrongPartSize
            | Reason::OtherScale
            | Reason::NotAnEnding
            | Reason::PastReach
            | Reason::WeightOutOfRange
            | Reason::SumNotFull
            | Reason::SumTooOld => Layer::Table,
            Reason::SheetTooLong
            | Reason::NoTrailer
            | Reason::NoSuchForm
            | Reason::LineOutOfPlace
            | Reason::WrongPlace
            | Reason::WrongPlayerOrDice
            | Reason::BufferTooShort
            | Reason::ReportBufferTooShort => Layer::Sheet,
        }
    }
}
