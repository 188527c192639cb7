// What a kind of chance number brings, and what it has to show.
ghost use Rattle.std.specs.Prelude.{◌≡◌, ℕ};
ghost use Rattle.chance.specs.Fraction.{Fraction};
ghost use Rattle.chance.specs.Rules.{Rules};
ghost use Rattle.chance.specs.Sums.{Admits, Closes};

use refusals::refusal::Refusal;

// Values of the kind are ranges of whole numbers over a scale, each with an age.
pub trait Chance: Copy {
    // A sum of weighted values.
    // A rule of the project: each kind has its own type of sum.
    type Sum: Drop;

    // A plain record of a value.
    // A rule of the project: each kind has its own type of row, and rows stand plain in the lent parts of a table.
    type Row: Copy;

    // What stands for 1, how far the ends may part for each roll, and the greatest age.
    // A rule of the project: they are associated constants; the check holds each equal to its ghost number, and `rules` has their laws.
    ghost SCALE: { ℕ };

    ghost GRAIN: { ℕ };

    ghost REACH: { ℕ };

    const SCALE: u64;

    const GRAIN: u64;

    const REACH: u64;

    // Both ends and the age of a value.
    ghost lower: { Self → ℕ };

    ghost upper: { Self → ℕ };

    ghost age: { Self → ℕ };

    // Which value each call answers.
    ghost lost: { Self };

    ghost won: { Self };

    ghost turned: { Self → Self };

    ghost better: { Self → Self → Self };

    // What a sum weighs, how old its oldest value is, and which totals it holds.
    ghost weight: { Self.Sum → ℕ };

    ghost oldest: { Self.Sum → ℕ };

    ghost held: { Self.Sum → Fraction → Type 0 };

    // Which sum, and which closed value, each call leaves or answers.
    ghost empty: { Self.Sum };

    ghost added: { Self.Sum → ℕ → Self → Self.Sum };

    ghost closed: { Self.Sum → Self };

    // Which row a value writes, and which value a row is read as.
    ghost written: { Self → Self.Row };

    ghost read: { Self.Row → Self };

    // What each kind has to show.
    ghost rules: { Rules SCALE GRAIN REACH lower upper age lost won turned better weight oldest held empty added closed written read };

    // Lower end, upper end and age.
    // A rule of the project: they are answered as a tuple.
    fn ends(self) -> (u64, u64, u64)
        ensures { result ≡ (lower self, upper self, age self) };

    fn lost() -> Self
        ensures { result ≡ lost };

    fn won() -> Self
        ensures { result ≡ won };

    // The same chance from the other player's side.
    fn turned(self) -> Self
        ensures { result ≡ turned self };

    fn better(self, other: Self) -> Self
        ensures { result ≡ better self other };

    fn empty() -> Self::Sum
        ensures { result ≡ empty };

    // Adds the value with a weight; refused, the sum stays as it was.
    fn add(sum: &mut Self::Sum, by: u64, value: Self) -> Result<(), Refusal>
        ensures answer { Admits (weight sum.old) by result }
        ensures left { sum.new ≡ added sum.old by value };

    // Answers the mean over 36 and leaves the sum empty; refused, it stays as it was.
    fn close(sum: &mut Self::Sum) -> Result<Self, Refusal>
        ensures { Closes (weight sum.old) (oldest sum.old) REACH (closed sum.old) empty sum.old result sum.new };

    fn write_row(self) -> Self::Row
        ensures { result ≡ written self };

    // The value that wrote the row, and lost where no value writes it.
    fn read_row(from: Self::Row) -> Self
        ensures { result ≡ read from };
}
