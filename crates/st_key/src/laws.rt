//! Laws of the definitions, each the contract of a function that does nothing.
ghost use Rattle.std.specs.Prelude.{◌≡◌, ℕ, ◌&&◌, ◌||◌, not, false, true, List, [], ◌∷◌, ◌++◌, IsTrue, codes};
ghost use Rattle.st_key.specs.Parts.{with_span, without_span};
ghost use Rattle.st_key.specs.Spans.{Span, key_less, within, holds, is_canonical};

/// Keys are in a strict total order.
pub fn key_order()
    ensures irreflexive { (a : List ℕ) → key_less a a ≡ false }
    ensures transitive { (a b c : List ℕ)
        → IsTrue (key_less a b) → IsTrue (key_less b c) → IsTrue (key_less a c) }
    ensures connected { (a b : List ℕ) → key_less a b ≡ false → key_less b a ≡ false → a ≡ b }
{}

/// A key with the byte 00 appended is the next key: from `key` up to it there is `key` alone.
pub fn next_key()
    ensures above { (key : List ℕ) → IsTrue (key_less key (key ++ 0 ∷ [])) }
    ensures alone { (key other : List ℕ)
        → key_less other key ≡ false → IsTrue (key_less other (key ++ 0 ∷ [])) → other ≡ key }
{}

/// A set of keys has one canonical form: lists of ranges in that form with the same keys are equal.
pub fn one_canonical_form()
    ensures { (a b : List Span) → IsTrue (is_canonical a) → IsTrue (is_canonical b)
        → ((key : List ℕ) → holds a key ≡ holds b key) → a ≡ b }
{}

/// With a span put in, a list of spans has the span's keys beside its own, and with a span taken out it has its other keys
/// alone. Where the span has a key, a canonical list stays so.
pub fn spans_are_put_in_and_taken_out()
    ensures put_in { (spans : List Span) (span : Span) (key : List ℕ)
        → holds (with_span spans span) key ≡ (holds spans key || within span key) }
    ensures taken_out { (spans : List Span) (span : Span) (key : List ℕ)
        → holds (without_span spans span) key ≡ (holds spans key && not (within span key)) }
    ensures form_with { (spans : List Span) (span : Span) → IsTrue (is_canonical spans)
        → IsTrue (key_less span.begin span.end) → IsTrue (is_canonical (with_span spans span)) }
    ensures form_without { (spans : List Span) (span : Span) → IsTrue (is_canonical spans)
        → IsTrue (key_less span.begin span.end) → IsTrue (is_canonical (without_span spans span)) }
{}
