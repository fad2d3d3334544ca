//! The judgement that stands before each read: whether its version can be read now.
#![tactic(auto)]

ghost use Rattle.std.specs.Prelude.{◌≡◌};
ghost use Rattle.st_gate.specs.Judgement.{judged};

#[cfg(test)]
mod tests;

/// Whether a version can be read.
#[derive(Clone, Copy, Debug, PartialEq, Eq)]
pub enum Judged {
    /// It can.
    Ready,
    /// It is below the oldest version that can be read, which is told.
    TooOld { oldest: u64 },
    /// It is above the newest version that has come, which is told.
    NotYet { newest: u64 },
}

/// Judges a version against the oldest and the newest, both of which can be read. Too old is judged first. It takes no
/// memory.
pub fn judge(oldest: u64, newest: u64, version: u64) -> Judged
    ensures { result ≡ judged oldest newest version }
{
    if version < oldest {
        Judged::TooOld { oldest }
    } else if version > newest {
        Judged::NotYet { newest }
    } else {
        Judged::Ready
    }
}
