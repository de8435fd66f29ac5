ghost use Rattle.std.specs.Prelude.{◌≡◌};
ghost use Rattle.runs.specs.declared.stop.Stop.TheVariants.{Faulty, NoMemory};

use sheets::Fault;
use std::alloc::AllocError;
use std::fmt;

// Why the lines of a run break off: a fault, which the last line names, or want of memory.
#[derive(Clone, Copy, PartialEq, Eq, Debug)]
pub enum Stop {
    Faulty(Fault),
    NoMemory(AllocError),
}

// The conversions are written by hand, since a clause names the error that `?` makes.
impl From<Fault> for Stop {
    ghost from_gives = { λ fault stop. stop ≡ Faulty fault };

    fn from(fault: Fault) -> Stop {
        Stop::Faulty(fault)
    }
}

// A text can fail to be written only for want of memory.
impl From<fmt::Error> for Stop {
    ghost from_gives = { λ _ stop. stop ≡ NoMemory (record {}) };

    fn from(_error: fmt::Error) -> Stop {
        Stop::NoMemory(AllocError)
    }
}

impl From<AllocError> for Stop {
    ghost from_gives = { λ error stop. stop ≡ NoMemory error };

    fn from(error: AllocError) -> Stop {
        Stop::NoMemory(error)
    }
}
