//! The least key of a range that isn't served.
ghost use Rattle.std.specs.Prelude.{◌≡◌, None, Some, not, MatchOption};
ghost use Rattle.std.specs.List.{find};
ghost use Rattle.st_key.specs.Spans.{key_less, all_keys};
ghost use Rattle.st_model.specs.Partition.{IsPartition};
ghost use Rattle.st_shards.specs.Unserved.{is_missing};

use crate::phases::is_unserved;
use crate::slots::Slots;
use st_key::{Key, Range};
use st_model::Piece;

// Whether the piece begins at the end of the range or above it.
fn lies_behind(piece: &Piece, range: &Range) -> bool
    ensures { result ≡ not (key_less piece.now.begin range.now.end) }
{
    piece.begin >= *range.end()
}

impl Slots {
    /// The first piece that has keys of the range and isn't served. It is found by halving, and a walk over the range.
    pub fn first_missing(&self, range: &Range) -> Option<&Piece>
        requires { IsPartition self.now }
        ensures { MatchOption result (find (is_missing range.now) self.now ≡ None)
            (λ piece. find (is_missing range.now) self.now ≡ Some piece.now) }
    {
        let pieces = self.as_slice();
        for at in self.place_of(range.begin().bytes())..pieces.len() {
            let piece = &pieces[at];
            if lies_behind(piece, range) {
                return None;
            }
            if is_unserved(piece) {
                return Some(piece);
            }
        }
        None
    }

    /// The key that all keys of pieces are below.
    pub fn end(&self) -> &Key
        requires { IsPartition self.now }
        ensures { result.now ≡ all_keys.end }
    {
        let pieces = self.as_slice();
        &pieces[pieces.len() - 1].end
    }
}
