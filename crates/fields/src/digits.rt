// Decimal digits, and the dice of a roll.
ghost use Rattle.std.specs.Prelude.{[], ◌∷◌};
ghost use Rattle.fields.specs.Exact.{Exact};
ghost use Rattle.fields.specs.Digits.{FineDigit, digit_text, FineDice, dice_text};

// A decimal digit's value.
pub fn digit(byte: u8) -> Option<u8>
    ensures { Exact FineDigit digit_text (byte ∷ []) result }
{
    match byte {
        b'0'..=b'9' => Some(byte - b'0'),
        _ => None,
    }
}

// Two dice behind a space; whether a die can show such a number is tested by those who play it.
pub fn dice(bytes: &[u8]) -> Option<(u8, u8)>
    ensures { Exact FineDice dice_text bytes.now result }
{
    let [b' ', a, b] = bytes else {
        return None;
    };
    Some((digit(*a)?, digit(*b)?))
}
