// What stands in the lent parts of a table.
ghost use Rattle.std.specs.Prelude.{◌≡◌, ℕ, ◌+◌, ◌*◌, slice_get};
ghost use Rattle.tables.specs.Parts.{value_in, value_after, length_at, length_after};

use chance::kind::Chance;

// A lent part of a table, rows of so many entries.
// A rule of the project: entries are plain lengths or rows, in slices that are lent.
#[derive(Clone, Copy, Debug)]
pub struct Part<'a, T> {
    pub size: usize,
    pub entries: &'a [T],
}

impl<'a, T: Copy> Part<'a, T> {
    // The entry of the places a and b, none past the end of the part.
    // Stays: two places are two numbers, as in the table's rule for where an entry stands.
    pub fn at(self, a: usize, b: usize) -> Option<T>
        ensures { result ≡ slice_get self.entry.entries.now (a * self.entry.size + b) }
    {
        let i = a.checked_mul(self.size)?.checked_add(b)?;
        self.entries.get(i).copied()
    }
}

// The value of the entry of the places a and b, lost past the end of the part.
#[tactic(auto, using(crate::proofs::Reading::none_there))]
pub fn value_at<K: Chance>(rows: Part<'_, K::Row>, a: usize, b: usize) -> K
    ensures { result ≡ value_in K.Chance rows.entry.size rows.entry.entries.now a b }
{
    // Stays: tried with `map_or`, and the proof did not close: it has to know whether there is a row.
    match rows.at(a, b) {
        Some(row) => K::read_row(row),
        None => K::lost(),
    }
}

// The value after a turn that leads to the place q, with the other side on the place b.
pub fn after_place<K: Chance>(rows: Part<'_, K::Row>, b: usize, q: usize) -> K
    ensures { result ≡ value_after K.Chance rows.entry.size rows.entry.entries.now b q }
{
    if q == 0 {
        K::won()
    } else {
        value_at::<K>(rows, b, q).turned()
    }
}

impl<'a> Part<'a, u8> {
    // The length entry of the places a and b, 0 past the end of the part.
    #[tactic(auto, using(crate::proofs::Reading::length_there))]
    pub fn length_at(self, a: usize, b: usize) -> u8
        ensures { result ≡ length_at self.entry.size self.entry.entries.now a b }
    {
        self.at(a, b).unwrap_or(0)
    }

    // The length after a turn that leads to the place q, with the other side on the place b.
    pub fn after_length(self, b: usize, q: usize) -> u8
        ensures { result ≡ length_after self.entry.size self.entry.entries.now b q }
    {
        if q == 0 { 0 } else { self.length_at(b, q) }
    }
}
