//! The part of a mutation inside a range.
ghost use Rattle.std.specs.Prelude.{◌≡◌, IfOk};
ghost use Rattle.st_key.specs.Parts.{greatest, least};
ghost use Rattle.st_mutation.specs.Clip.{clipped, common};

use crate::Mutation;
use st_key::{Key, Range};
use std::alloc::AllocError;

/// The part of a mutation inside a range, None where nothing of it is inside.
///
/// It shares the bytes of keys and values.
pub fn clip(m: &Mutation, to: &Range) -> Result<Option<Mutation>, AllocError>
    ensures { IfOk result (λ part. part ≡ clipped m.now to.now) }
{
    match m {
        Mutation::Set(key, _) | Mutation::Atomic(_, key, _) => {
            if to.contains(key.bytes()) {
                Ok(Some(m.clone()?))
            } else {
                Ok(None)
            }
        }
        Mutation::Clear(range) => Ok(common(range, to)?.map(Mutation::Clear)),
    }
}

// The keys of both ranges, None where there are none.
fn common(a: &Range, b: &Range) -> Result<Option<Range>, AllocError>
    ensures { IfOk result (λ range. range ≡ common a.now b.now) }
{
    let begin = greatest(a.begin(), b.begin()).clone()?;
    let end = least(a.end(), b.end()).clone()?;
    match Range::new(begin, end) {
        Ok(range) => Ok(Some(range)),
        Err(_) => Ok(None),
    }
}

fn greatest<'a>(a: &'a Key, b: &'a Key) -> &'a Key
    ensures { result.now ≡ greatest a.now b.now }
{
    if a < b { b } else { a }
}

fn least<'a>(a: &'a Key, b: &'a Key) -> &'a Key
    ensures { result.now ≡ least a.now b.now }
{
    if b < a { b } else { a }
}
