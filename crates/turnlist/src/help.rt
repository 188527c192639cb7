// What `turnlist --help` prints.
pub const HELP: &str = "\
turnlist: lists the turns that the rules of backgammon allow, and makes turns

usage: turnlist [FILE]      reads FILE, or standard input where none is named
       turnlist --help      prints this

Each line is one of
  S p WHITE BLACK   sets the board: p is W or B, the player due; a side is 25
                    hex digits 0 to f, its checkers on points 1 to 24 and the bar
  L ab              lists the allowed turns of the roll a-b for the player due:
                    'L ab COUNT', then a line for each, its moves as ssd (start
                    in two digits, die), or - for the turn without moves
  P ab ssd ssd ..   makes a turn: 'P ab', a line ' ss d tt' for each move (target
                    in two digits, or off), then board and player now due
  # ..              a comment; empty lines are passed over too
Before any S line the board is the start board, with White due.

A refusal prints 'F layer number 0 0 move 0', and the board stays as it was.
A line of no such form prints 'E n' with its number and what was expected; the
exit status is then 1.
";
