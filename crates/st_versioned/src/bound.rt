//! Sides of a key.
ghost use Rattle.std.specs.Prelude.{◌≡◌};
ghost use Rattle.std.specs.Option.{option_map};
ghost use Rattle.st_key.specs.Spans.{key_less};
ghost use Rattle.st_versioned.specs.Neighbours.{bound_behind, first_by, first_of_two, is_beyond};
ghost use Rattle.st_versioned.specs.Root.{same};

/// The keys on one side of a key.
#[derive(Clone, Copy)]
pub(crate) enum Bound<'a> {
    /// Those at the key or above it.
    From(&'a [u8]),
    /// Those above the key.
    Above(&'a [u8]),
    /// Those below the key.
    Below(&'a [u8]),
}

pub(crate) fn is_same(a: &[u8], b: &[u8]) -> bool
    ensures { result ≡ same a.now b.now }
{
    a.cmp(b).is_eq()
}

pub(crate) fn is_less(a: &[u8], b: &[u8]) -> bool
    ensures { result ≡ key_less a.now b.now }
{
    a.cmp(b).is_lt()
}

impl<'a> Bound<'a> {
    /// Whether the key is on this side.
    pub(crate) fn is_beyond(self, other: &[u8]) -> bool
        ensures { result ≡ is_beyond self.entry other.now }
    {
        match self {
            Bound::From(key) => !is_less(other, key),
            Bound::Above(key) => is_less(key, other),
            Bound::Below(key) => is_less(other, key),
        }
    }

    // Whether one key comes before another on the way from the bound.
    fn is_first(self, a: &[u8], b: &[u8]) -> bool
        ensures { result ≡ first_by self.entry a.now b.now }
    {
        match self {
            Bound::From(_) | Bound::Above(_) => is_less(a, b),
            Bound::Below(_) => is_less(b, a),
        }
    }

    /// The keys behind one of this side, on the way from the bound.
    pub(crate) fn behind<'b>(self, key: &'b [u8]) -> Bound<'b>
        ensures { result ≡ bound_behind self.entry key.entry }
    {
        match self {
            Bound::From(_) | Bound::Above(_) => Bound::Above(key),
            Bound::Below(_) => Bound::Below(key),
        }
    }

    /// The one of two keys that comes first, where either may be missing.
    pub(crate) fn first<'b>(self, a: Option<&'b [u8]>, b: Option<&'b [u8]>) -> Option<&'b [u8]>
        ensures { option_map (λ k. k.now) result ≡ first_of_two self.entry (option_map (λ k. k.now) a.entry) (option_map (λ k. k.now) b.entry) }
    {
        match (a, b) {
            (Some(one), Some(other)) => Some(if self.is_first(other, one) {
                other
            } else {
                one
            }),
            (Some(one), None) => Some(one),
            (None, other) => other,
        }
    }
}
