// What is known of all the fields: their text tells them apart.
ghost use Rattle.fields.specs.Exact.{OneReading, Any};
ghost use Rattle.fields.specs.Digits.{FineDigit, digit_text, FineDice, dice_text};
ghost use Rattle.board.specs.Players.{letter_text};
ghost use Rattle.fields.specs.Moves.{FineMove, move_text, FineMoves, moves_text};
ghost use Rattle.fields.specs.Sides.{FineCount, count_text, FineSide, side_text, FineSetting, setting_text};

// Two exact readings of the same bytes are equal, for every field; the theorem is in the contract.
pub fn one_reading()
    ensures digit { OneReading FineDigit digit_text }
    ensures dice { OneReading FineDice dice_text }
    ensures player { OneReading Any letter_text }
    ensures single { OneReading FineMove move_text }
    ensures moves { OneReading FineMoves moves_text }
    ensures count { OneReading FineCount count_text }
    ensures side { OneReading FineSide side_text }
    ensures setting { OneReading FineSetting setting_text }
{}
