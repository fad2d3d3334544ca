//! Laws of the definitions, each the contract of a function that does nothing.
ghost use Rattle.std.specs.Prelude.{◌≡◌, ℕ, Bool, List, IsTrue, MatchOption};
ghost use Rattle.std.specs.FinMap.Entries.{find, put, where_key, is_sorted};
ghost use Rattle.st_ptree.specs.Entries.{key_cmp, first_of, last_of, is_ordered, item_at, with_entry, pairs_of};
ghost use Rattle.st_ptree.specs.Nearest.{HaveNone, IsLeast, IsGreatest};

/// A list of entries without their priorities is a map as its sorted pairs, and changes as one.
pub fn pairs_are_a_map<T>()
    ensures found { (entries : List (List ℕ × (ℕ × T))) (key : List ℕ)
        → item_at entries key ≡ find key_cmp key (pairs_of entries) }
    ensures put { (entries : List (List ℕ × (ℕ × T))) (key : List ℕ) (prio : ℕ) (item : T)
        → pairs_of (with_entry entries key prio item) ≡ put key_cmp key item (pairs_of entries) }
    ensures kept { (entries : List (List ℕ × (ℕ × T))) (keeps : List ℕ → Bool)
        → pairs_of (where_key key_cmp keeps entries) ≡ where_key key_cmp keeps (pairs_of entries) }
    ensures ordered { (entries : List (List ℕ × (ℕ × T)))
        → is_sorted key_cmp (pairs_of entries) ≡ is_ordered entries }
{}

/// Of the entries whose keys pass a test the first has the least key, and the last the greatest.
pub fn neighbours_are_nearest<T>()
    ensures least { (entries : List (List ℕ × (ℕ × T))) (keeps : List ℕ → Bool) → IsTrue (is_ordered entries)
        → MatchOption (first_of (where_key key_cmp keeps entries)) (HaveNone keeps entries) (IsLeast keeps entries) }
    ensures greatest { (entries : List (List ℕ × (ℕ × T))) (keeps : List ℕ → Bool) → IsTrue (is_ordered entries)
        → MatchOption (last_of (where_key key_cmp keeps entries)) (HaveNone keeps entries) (IsGreatest keeps entries) }
{}
