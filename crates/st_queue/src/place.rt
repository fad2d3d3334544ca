// Where a queue's current file ends, and which file comes next.
ghost use Rattle.std.specs.Option.{ForSome};
ghost use Rattle.std.specs.Prelude.{◌≡◌, ◌<◌, ◌≤◌, ◌^◌};
ghost use Rattle.st_queue.specs.Due.{behind_last, last_behind};
ghost use Rattle.st_queue.specs.Place.{next_place, other_file, spent};
ghost use Rattle.st_queue.specs.Reading.{Fits};

use crate::reading::MAX_NUMBER;

/// The end of a file: the gate behind its last frame.
#[derive(Clone, Copy, Debug, PartialEq, Eq)]
pub struct Place {
    pub file: u8,
    /// The file's generation.
    pub generation: u64,
    /// The place of the closed gate.
    pub gate: u64,
    /// The number of the frame that comes next.
    pub next: u64,
}

/// The other one of the two files.
fn other_file(file: u8) -> u8
    ensures { result ≡ other_file file }
{
    if file == 0 { 1 } else { 0 }
}

/// Where the first frame of the file that comes next will stand.
pub(crate) fn next_place(current: Option<Place>) -> Place
    requires { ForSome current Fits }
    ensures { result ≡ next_place current }
{
    match current {
        None => Place {
            file: 0,
            generation: 1,
            gate: 28,
            next: 0,
        },
        Some(place) => Place {
            file: other_file(place.file),
            generation: place.generation + 1,
            gate: 28,
            next: place.next,
        },
    }
}

/// The generation or the first number that the next file would have, where that is past its bound.
pub(crate) fn spent(current: Option<Place>) -> Option<u64>
    requires { ForSome current Fits }
    ensures { result ≡ spent current }
{
    let next = next_place(current);
    if next.generation > MAX_NUMBER {
        return Some(next.generation);
    }
    if next.next > MAX_NUMBER {
        return Some(next.next);
    }
    None
}

/// The number behind the last frame of a file that ends at this place, where it has frames.
pub(crate) fn behind_last(place: Place) -> Option<u64>
    ensures { result ≡ behind_last place }
{
    if place.gate > 28 {
        Some(place.next)
    } else {
        None
    }
}

/// The same of the current file, where one is live.
pub(crate) fn last_behind(current: Option<Place>) -> Option<u64>
    ensures { result ≡ last_behind current }
{
    match current {
        None => None,
        Some(place) => behind_last(place),
    }
}
