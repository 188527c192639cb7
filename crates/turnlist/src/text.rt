// The parts of the lines that are printed.
use board::player::Player;
use settings::setting::Setting;
use std::fmt;

// The moves of a listed turn, or a dash where it has none.
#[derive(Debug, Drop)]
pub struct ListedTurn<'a>(pub &'a [(u8, u8)]);

impl fmt::Display for ListedTurn<'_> {
    fn fmt<W: fmt::Write>(&self, f: &mut fmt::Formatter<W>) -> fmt::Result {
        let Some(((start, die), rest)) = self.0.split_first() else {
            return f.write_str("-");
        };
        write!(f, "{start:02}{die}")?;
        for (start, die) in rest {
            write!(f, " {start:02}{die}")?;
        }
        Ok(())
    }
}

// A move that was made, with its target.
#[derive(Debug, Drop)]
pub struct MadeMove(pub u8, pub u8);

impl fmt::Display for MadeMove {
    fn fmt<W: fmt::Write>(&self, f: &mut fmt::Formatter<W>) -> fmt::Result {
        let MadeMove(start, die) = self;
        if start > die {
            let target = start - die;
            write!(f, "{start:02} {die} {target:02}")
        } else {
            write!(f, "{start:02} {die} off")
        }
    }
}

// A side's counts on points 1 to 25 as hex digits.
#[derive(Debug, Drop)]
struct SideDigits<'a>(&'a [u8; 26]);

impl fmt::Display for SideDigits<'_> {
    fn fmt<W: fmt::Write>(&self, f: &mut fmt::Formatter<W>) -> fmt::Result {
        let SideDigits(side) = self;
        for count in side.iter().skip(1) {
            write!(f, "{count:x}")?;
        }
        Ok(())
    }
}

// The board and the player due, as an S line.
#[derive(Debug, Drop)]
pub struct ShownSetting<'a>(pub &'a Setting);

impl fmt::Display for ShownSetting<'_> {
    fn fmt<W: fmt::Write>(&self, f: &mut fmt::Formatter<W>) -> fmt::Result {
        let ShownSetting(setting) = self;
        let due = setting.due;
        let white = SideDigits(setting.side(Player::White));
        let black = SideDigits(setting.side(Player::Black));
        write!(f, "S {due} {white} {black}")
    }
}

// What is expected of a line that begins so.
pub fn expected(line: &[u8]) -> &'static str {
    match line {
        [b'S', ..] => "'S p WHITE BLACK': W or B, and two sides of 25 hex digits 0 to f",
        [b'L', ..] => "'L ab': two digits",
        [b'P', ..] => "'P ab ssd ..': two digits, and up to 8 moves of three digits",
        _ => "'S p WHITE BLACK', 'L ab', 'P ab ssd ..', a # line or an empty line",
    }
}
