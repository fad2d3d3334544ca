//! Lengths of keys and values of a log.
ghost use Rattle.st_session.specs.Logs.{AreShort, IsShort};
ghost use Rattle.std.specs.List.{AllByRecursion};

use st_mutation::{Batch, Mutation};

/// The keys and values of a log are as short as their types say.
pub fn logs_are_short(log: &[Batch])
    ensures { AreShort log.now }
{
    for batch in log {
        are_short(batch.mutations.as_slice());
    }
}

fn are_short(mutations: &[Mutation])
    ensures { AllByRecursion IsShort mutations.now }
{
    for mutation in mutations {
        is_short(mutation);
    }
}

fn is_short(mutation: &Mutation)
    ensures { IsShort mutation.now }
{
    match mutation {
        Mutation::Set(key, value) | Mutation::Atomic(_, key, value) => {
            let _ = key.bytes();
            let _ = value.bytes();
        }
        Mutation::Clear(_) => {}
    }
}
