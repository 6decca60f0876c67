ghost use Rattle.std.specs.Prelude.{◌≡◌, ℕ, ◌+◌, List, [], ◌∷◌, ◌++◌, Ok, Err};
ghost use Rattle.bits.specs.Columns.{column_bits};
ghost use Rattle.doors.specs.Plan.{mark_of, Noted};

use bits::rank_select::RankSelect;
use refusals::fault::Fault;
use std::fmt;
use words::reading::{GrowStore, ReadStore};

// What a character of a plan says.
#[derive(Clone, Copy, PartialEq, Eq, Debug)]
pub enum Mark {
    Door(bool),
    Break,
}

// A character that is no mark.
#[derive(Clone, Copy, PartialEq, Eq, Debug)]
pub struct Strange;

// Why a plan was not taken in, and at which byte.
#[derive(Clone, Copy, PartialEq, Eq, Debug)]
pub enum Trouble {
    Strange(usize),
    Refused(usize, Fault),
}

// `x` is a door reached, `-` a door missed, and a line break is no door.
impl TryFrom<u8> for Mark {
    type Error = Strange;

    ghost try_from_gives = { λ b r. r ≡ mark_of b };

    fn try_from(byte: u8) -> Result<Mark, Strange> {
        match byte {
            b'x' => Ok(Mark::Door(true)),
            b'-' => Ok(Mark::Door(false)),
            b'\n' | b'\r' => Ok(Mark::Break),
            _ => Err(Strange),
        }
    }
}

impl fmt::Display for Trouble {
    fn fmt<W: fmt::Write>(&self, f: &mut fmt::Formatter<W>) -> fmt::Result {
        match self {
            Trouble::Strange(at) => write!(f, "byte {at} is neither x nor -"),
            Trouble::Refused(at, fault) => write!(f, "byte {at}: {fault}"),
        }
    }
}

// Adds the doors of a plan to a column, up to the first byte that is no mark or that finds no room.
pub fn note_doors<C: GrowStore<Item = u64>, V: GrowStore<Item = u64>>(
    text: &[u8],
    doors: &mut RankSelect<C, V>,
) -> Result<(), Trouble>
    ensures { Noted text.now (column_bits V.ReadStore doors.old) result (column_bits V.ReadStore doors.new) }
{
    for (at, byte) in text.iter().enumerate() {
        let mark = Mark::try_from(*byte).map_err(|_| Trouble::Strange(at))?;
        match mark {
            Mark::Door(bit) => doors
                .push(bit)
                .map_err(|fault| Trouble::Refused(at, fault))?,
            Mark::Break => {}
        }
    }
    Ok(())
}
