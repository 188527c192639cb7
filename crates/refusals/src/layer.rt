// Where a refusal belongs: the board, the match, the table of endings or the sheet.
ghost use Rattle.std.specs.Prelude.{◌≡◌};
ghost use Rattle.refusals.specs.Numbers.{layer_number};

#[derive(Clone, Copy, PartialEq, Eq, Debug)]
pub enum Layer {
    Board = 1,
    Match,
    Table,
    Sheet,
}

impl Layer {
    // The number by which documents and reports name the layer.
    pub fn number(self) -> u8
        ensures { result ≡ layer_number self }
    {
        // Stays: the cast gives the number declared with the variant; a trait for this line in two enums would say no more.
        self as u8
    }
}
