ghost use Rattle.std.specs.Prelude.{Some};
ghost use Rattle.runs.specs.Lines.{line_text};

use floor::{Pull, Tile};
use sheets::Fault;
use std::fmt;

// A line that a run prints: the floor that is laid, a field that is carried out, or why the run ends early.
#[derive(Clone, Copy, PartialEq, Eq, Debug)]
pub(crate) enum Line {
    Floor { size: Tile, reach: Pull },
    Ok,
    Stop(Fault),
}

impl fmt::Display for Line {
    ghost output = { λ line. Some (line_text line) };

    fn fmt<W: fmt::Write>(&self, f: &mut fmt::Formatter<W>) -> fmt::Result {
        match self {
            Line::Floor { size, reach } => write!(f, "floor {size} {reach}"),
            Line::Ok => write!(f, "ok"),
            Line::Stop(fault) => write!(f, "stop {fault}"),
        }
    }
}
