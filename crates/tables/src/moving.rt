// Where the turns of a side lead.
ghost use Rattle.std.specs.Prelude.{◌≡◌, vec_len};

// For each of the 21 rolls, in their order, the places to which the turns of a side lead, in listing order.
// Stays: as an array it would be filled by a closure with a clause of what each list is, to save the one ghost field.
#[derive(Debug, Drop)]
pub struct SideTurns {
    pub(crate) lists: Vec<Vec<u16>>,
    ghost all: { vec_len lists ≡ 21 },
}
