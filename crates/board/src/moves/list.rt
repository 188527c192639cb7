// Moves as a list: none, the first of some, one more, and all that there are.
ghost use Rattle.std.specs.Prelude.{◌≡◌, [], ◌∷◌, ◌++◌, length, take, MatchOption};
ghost use Rattle.board.specs.Moves.{moves_of};

use super::Moves;

impl<const N: usize> Moves<N> {
    // No moves.
    pub fn empty() -> Moves<N>
        ensures { moves_of result ≡ [] }
    {
        Moves {
            list: [(0, 0); N],
            count: 0,
        }
    }

    // The first of these moves, so many of them, and all where there are fewer: for whoever has moves in an array.
    pub fn first_of(list: [(u8, u8); N], count: usize) -> Moves<N>
        ensures { moves_of result ≡ take count list.entry }
    {
        Moves {
            list,
            count: count.min(N),
        }
    }

    // One move more, or none where there is no room for it.
    pub fn with(&self, start: u8, die: u8) -> Option<Moves<N>>
        ensures { MatchOption result (length (moves_of self.now) ≡ N) (λ more. moves_of more ≡ moves_of self.now ++ (start, die) ∷ []) }
    {
        if self.count == N {
            return None;
        }
        let mut list = self.list;
        list[self.count] = (start, die);
        Some(Moves {
            list,
            count: self.count + 1,
        })
    }

    // The moves in their order.
    pub fn moves(&self) -> &[(u8, u8)]
        ensures { result.now ≡ moves_of self.now }
    {
        &self.list[..self.count]
    }
}
