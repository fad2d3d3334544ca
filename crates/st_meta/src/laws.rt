//! Laws of the definitions, each the contract of a function that does nothing.
ghost use Rattle.std.specs.Prelude.{◌≡◌, false, Ok};
ghost use Rattle.std.specs.List.{list_any};
ghost use Rattle.st_meta.specs.Reading.{meta_of};
ghost use Rattle.st_meta.specs.Stored.{IsState, Pairs, Stores, is_other, with_stored};
ghost use Rattle.st_meta.specs.declared.state.Meta.{Meta as State};

/// A map with no other pair that is no user's stores the state whose pairs are set in it.
pub fn written_is_stored()
    ensures { (pairs : Pairs) (meta : State) → IsState meta → list_any (λ pair. is_other pair.0) pairs ≡ false
        → Stores (with_stored meta pairs) meta }
{}

/// Pairs that store a state are read as that state.
pub fn stored_is_read()
    ensures { (pairs : Pairs) (meta : State) → Stores pairs meta → meta_of pairs ≡ Ok meta }
{
    st_num::put_is_taken();
}
