// In how many ways few checkers stand on few points.
ghost use Rattle.std.specs.Prelude.{◌≡◌, ℕ, ◌≤◌};
ghost use Rattle.places.specs.Ways.{ways};
ghost use Rattle.places.specs.Asked.{CountOf};

// How many checkers a side of a table may have.
const MOST: u8 = 6;

// A row for 0 to 6 points, in it at most 0 to 6 checkers.
const WAYS: [[u16; 7]; 7] = [
    [1, 1, 1, 1, 1, 1, 1],
    [1, 2, 3, 4, 5, 6, 7],
    [1, 3, 6, 10, 15, 21, 28],
    [1, 4, 10, 20, 35, 56, 84],
    [1, 5, 15, 35, 70, 126, 210],
    [1, 6, 21, 56, 126, 252, 462],
    [1, 7, 28, 84, 210, 462, 924],
];

// In how many ways at most n checkers stand on k points.
pub(crate) fn ways_of(k: usize, n: usize) -> usize
    requires { (k ≤ 6) × (n ≤ 6) }
    ensures is { result ≡ ways k n }
    ensures most { result ≤ 924 }
{
    usize::from(WAYS[k][n])
}

// How many home sides with at most n checkers there are, for n from 1 to 6.
pub fn count_of(n: u8) -> Option<usize>
    ensures { CountOf n result }
{
    if n < 1 || n > MOST {
        return None;
    }
    Some(ways_of(6, usize::from(n)))
}
