//! Why bytes are no script.
ghost use Rattle.std.specs.Prelude.{◌≡◌};
ghost use Rattle.st_script.specs.Outcome.{at_line};

use st_fold::Kind;
use st_key::{KeyRefusal, ValueRefusal};
use std::alloc::{AllocError, AllocFailed};

/// Why bytes are no script.
#[derive(Clone, Copy, Debug, PartialEq, Eq)]
pub enum ScriptRefusal {
    /// The first faulty line, counted from 1, and what is wrong with it. Line 0 is the whole.
    Bad { line: u64, kind: Kind },
    /// No memory was left.
    NoMemory,
}

/// Why a line is refused.
#[derive(Clone, Copy, Debug, PartialEq, Eq)]
pub(crate) enum LineRefusal {
    Bad(Kind),
    NoMemory,
}

impl LineRefusal {
    pub(crate) fn at(self, number: u64) -> ScriptRefusal
        ensures { result ≡ at_line number self }
    {
        match self {
            LineRefusal::Bad(kind) => ScriptRefusal::Bad { line: number, kind },
            LineRefusal::NoMemory => ScriptRefusal::NoMemory,
        }
    }
}

impl From<Kind> for LineRefusal {
    ghost use Rattle.st_script.specs.declared.refusal.LineRefusal.TheVariants.{Bad};

    ghost from_gives = { λ kind why. why ≡ Bad kind };

    fn from(kind: Kind) -> LineRefusal {
        LineRefusal::Bad(kind)
    }
}

impl From<AllocError> for LineRefusal {
    ghost use Rattle.st_script.specs.declared.refusal.LineRefusal.TheVariants.{NoMemory};

    ghost from_gives = { λ _ why. why ≡ NoMemory };

    fn from(_: AllocError) -> LineRefusal {
        LineRefusal::NoMemory
    }
}

impl<T: Drop> From<AllocFailed<T>> for LineRefusal {
    ghost use Rattle.st_script.specs.declared.refusal.LineRefusal.TheVariants.{NoMemory};

    ghost from_gives = { λ _ why. why ≡ NoMemory };

    fn from(_: AllocFailed<T>) -> LineRefusal {
        LineRefusal::NoMemory
    }
}

impl From<KeyRefusal> for LineRefusal {
    ghost use Rattle.st_script.specs.Outcome.{of_key};

    ghost from_gives = { λ why refusal. refusal ≡ of_key why };

    fn from(why: KeyRefusal) -> LineRefusal {
        match why {
            KeyRefusal::KeyTooLong { .. } => LineRefusal::Bad(Kind::Key),
            KeyRefusal::NoMemory => LineRefusal::NoMemory,
        }
    }
}

impl From<ValueRefusal> for LineRefusal {
    ghost use Rattle.st_script.specs.Outcome.{of_value};

    ghost from_gives = { λ why refusal. refusal ≡ of_value why };

    fn from(why: ValueRefusal) -> LineRefusal {
        match why {
            ValueRefusal::ValueTooLong { .. } => LineRefusal::Bad(Kind::Value),
            ValueRefusal::NoMemory => LineRefusal::NoMemory,
        }
    }
}
