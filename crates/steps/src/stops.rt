// Why a program ends early.
ghost use Rattle.std.specs.Prelude.{◌≡◌, is_ok};

use faults::Fault;
use std::error::Error;
use std::{fmt, io};

// A call that was refused, or an output that failed. Written without derives of the kit's crates, which the programs would then rest on.
#[derive(Debug, Drop)]
pub enum Stop {
    Refused(Fault),
    Output(io::Error),
}

impl fmt::Display for Stop {
    fn fmt<W: fmt::Write>(&self, f: &mut fmt::Formatter<W>) -> fmt::Result {
        match self {
            Stop::Refused(fault) => write!(f, "refused with {}", fault.refusal.number()),
            Stop::Output(error) => write!(f, "{error}"),
        }
    }
}

impl Error for Stop {}

impl From<Fault> for Stop {
    fn from(fault: Fault) -> Stop {
        Stop::Refused(fault)
    }
}

impl From<io::Error> for Stop {
    fn from(error: io::Error) -> Stop {
        Stop::Output(error)
    }
}

// The outcome of a program; a refusal is told first, by its number, on the standard error that is handed in.
pub fn told(errors: &impl Print, outcome: Result<(), Stop>) -> Result<(), Stop>
    ensures { is_ok result ≡ is_ok outcome }
{
    if let Err(stop @ Stop::Refused(_)) = &outcome {
        println!(errors; "{stop}")?;
    }
    outcome
}
