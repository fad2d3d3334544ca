//! Laws of the definitions, each the contract of a function that does nothing.
ghost use Rattle.std.specs.Prelude.{◌≡◌, ℕ, List, None};
ghost use Rattle.st_mutation.specs.declared.batch.Mutation.{Mutation};
ghost use Rattle.st_versioned.specs.Apart.{AreApart, HasKey};
ghost use Rattle.st_versioned.specs.Root.{Pairs, Row, behind, decided, decision_above, over, value_at};
ghost use Rattle.st_versioned.specs.Window.{Stands, Versions, abandoned, begun, with_change, with_mutation};
ghost use Rattle.st_versioned.specs.Writing.{made_above, made_to, written};
ghost use Rattle.st_versioned.specs.declared.change.Change.{Change};

/// What a version writes decides each key as its change says.
pub fn what_is_written_decides()
    ensures decides { (version : ℕ) (change : Change) (rows : List Row) (key : List ℕ) → AreApart rows → HasKey change
        → decided (written version change rows) key ≡ behind (decided rows key) version change key }
    ensures apart { (version : ℕ) (change : Change) (rows : List Row) → AreApart rows → HasKey change → AreApart (written version change rows) }
{}

/// What a root decided above a version decides a key as the root does, where that was decided above it.
pub fn decisions_above_stay()
    ensures { (version : ℕ) (rows : List Row) (key : List ℕ) → AreApart rows
        → decided (made_above version rows) key ≡ decision_above version (decided rows key) }
{}

/// A root without what it wrote at or below a version is the same map over a base that has that.
pub fn above_a_base_is_the_same_map()
    ensures { (version : ℕ) (rows : List Row) (base : Pairs) (key : List ℕ) → AreApart rows
        → over (made_to version rows) base key ≡ value_at base key
        → over (made_above version rows) base key ≡ over rows base key }
{}

/// Giving a version up undoes its beginning, its changes and its mutations.
pub fn abandoning_undoes()
    ensures begun { (window : Versions) (version : ℕ) → Stands window → window.making ≡ None → abandoned (begun version window) ≡ window }
    ensures changed { (window : Versions) (change : Change) → abandoned (with_change change window) ≡ abandoned window }
    ensures mutated { (window : Versions) (mutation : Mutation) → Stands window → abandoned (with_mutation mutation window) ≡ abandoned window }
{}
