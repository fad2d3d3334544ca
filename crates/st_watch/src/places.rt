//! Where entries stand that are in the order of their keys. All is found by halving.
ghost use Rattle.std.specs.Prelude.{◌≡◌, ◌≤◌, true, false, take, drop, length, bytes_eq};
ghost use Rattle.std.specs.List.{AllByRecursion};
ghost use Rattle.st_key.specs.Spans.{key_less, within};
ghost use Rattle.st_watch.specs.Layout.{IsRising, IsRun};

use crate::entry::Entry;
use st_key::Range;

/// The entries from one place up to, and without, another.
#[derive(Clone, Copy)]
pub(crate) struct Run {
    pub from: usize,
    pub to: usize,
}

// Whether `a` comes before `b` in the order of bytes.
fn is_less(a: &[u8], b: &[u8]) -> bool
    ensures { result ≡ key_less a.now b.now }
{
    a < b
}

/// How many entries have a key below this one, found by halving. They come first.
pub(crate) fn count_below(entries: &[Entry], key: &[u8]) -> usize
    requires { IsRising entries.now }
    ensures bound { result ≤ length entries.now }
    ensures first { AllByRecursion (λ entry. key_less entry.standing.key key.now ≡ true) (take result entries.now) }
    ensures others { AllByRecursion (λ entry. key_less entry.standing.key key.now ≡ false) (drop result entries.now) }
{
    entries.partition_point(|entry| is_less(entry.standing.key.bytes(), key))
}

/// How many entries have this key or one below it, found by halving. They come first.
pub(crate) fn count_to(entries: &[Entry], key: &[u8]) -> usize
    requires { IsRising entries.now }
    ensures bound { result ≤ length entries.now }
    ensures first { AllByRecursion (λ entry. key_less key.now entry.standing.key ≡ false) (take result entries.now) }
    ensures others { AllByRecursion (λ entry. key_less key.now entry.standing.key ≡ true) (drop result entries.now) }
{
    entries.partition_point(|entry| !is_less(key, entry.standing.key.bytes()))
}

/// The entries of a key.
pub(crate) fn run_of_key(entries: &[Entry], key: &[u8]) -> Run
    requires { IsRising entries.now }
    ensures { IsRun (λ entry. bytes_eq entry.standing.key key.now) entries.now result.from result.to }
{
    let from = count_below(entries, key);
    Run {
        from,
        to: from + count_to(&entries[from..], key),
    }
}

/// The entries of the keys of a range.
pub(crate) fn run_of_range(entries: &[Entry], range: &Range) -> Run
    requires { IsRising entries.now }
    ensures { IsRun (λ entry. within range.now entry.standing.key) entries.now result.from result.to }
{
    let (begin, end) = (range.begin(), range.end());
    let from = count_below(entries, begin.bytes());
    Run {
        from,
        to: from + count_below(&entries[from..], end.bytes()),
    }
}
