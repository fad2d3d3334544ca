//! Laws of the definitions, each the contract of a function that does nothing.
ghost use Rattle.std.specs.Prelude.{◌≡◌, ◌<◌, ◌≤◌, ℕ, false, [], List, None, Some, if◌then◌else◌, IsTrue};
ghost use Rattle.std.specs.List.{AllByRecursion};
ghost use Rattle.std.specs.Option.{option_or};
ghost use Rattle.st_fold.specs.Map.{Map, folded, value_at};
ghost use Rattle.st_fold.specs.Plain.{Rises};
ghost use Rattle.st_fold.specs.Reading.{pairs_in};
ghost use Rattle.st_key.specs.Spans.{Span, key_less, within};
ghost use Rattle.st_mutation.specs.declared.batch.Batch.{Batch};
ghost use Rattle.st_adding.specs.Rows.{AgreeOn, forgotten, handed, rises};
ghost use Rattle.st_adding.specs.Updates.{Holding, IsHeldOf, below, dropped_to, first_above, from, with_batch};

/// What is held of a piece stays what the log does to it: from the fetch on, behind each batch that comes next, and on both sides
/// of a cut. What a batch brought is undone by dropping to the version before.
pub fn held_updates_are_those_of_the_log()
    ensures fresh { (log : List Batch) (piece : Span) (at : ℕ) → IsHeldOf log at (record { piece = piece; at = at; updates = [] }) }
    ensures held { (log : List Batch) (before newest : ℕ) (batch : Batch) (held : Holding)
        → Rises before log → held.at ≤ newest → first_above newest log ≡ Some batch
        → IsHeldOf log newest held → IsHeldOf log batch.version (with_batch batch held) }
    ensures below { (log : List Batch) (newest : ℕ) (key : List ℕ) (held : Holding)
        → IsTrue (key_less key held.piece.end) → IsHeldOf log newest held → IsHeldOf log newest (below key held) }
    ensures from { (log : List Batch) (newest : ℕ) (key : List ℕ) (held : Holding)
        → IsTrue (key_less held.piece.begin key) → IsHeldOf log newest held → IsHeldOf log newest (from key held) }
    ensures to_newest { (log : List Batch) (newest : ℕ) (held : Holding)
        → IsHeldOf log newest held → AllByRecursion (λ update. update.0 ≤ newest) held.updates }
    ensures undone { (newest : ℕ) (batch : Batch) (held : Holding)
        → AllByRecursion (λ update. update.0 ≤ newest) held.updates → newest < batch.version → dropped_to newest (with_batch batch held) ≡ held }
{}

/// Where rows are those of a map up to a key, and a block has the rows of the map from there on, they are those of the map up to
/// the end of the block, and elsewhere stay as they were. This holds of what a log folds to, since its keys rise.
pub fn fetched_rows_are_those_of_a_map()
    ensures goes_on { (pairs whole : Map) (begin middle end : List ℕ) → IsTrue (rises whole)
        → AgreeOn (record { begin = begin; end = middle }) pairs whole
        → AgreeOn (record { begin = middle; end = end }) pairs []
        → AgreeOn (record { begin = begin; end = end }) (handed (pairs_in (record { begin = middle; end = end }) whole) pairs) whole }
    ensures elsewhere { (pairs whole : Map) (span : Span) (key : List ℕ) → IsTrue (rises whole) → within span key ≡ false
        → value_at (handed (pairs_in span whole) pairs) key ≡ value_at pairs key }
    ensures same_rows { (span : Span) (pairs whole : Map) → IsTrue (rises pairs) → IsTrue (rises whole)
        → AgreeOn span pairs whole → pairs_in span pairs ≡ pairs_in span whole }
    ensures folded { (log : List Batch) (version : ℕ) → IsTrue (rises (folded log version)) }
{}

/// What handing rows and forgetting a range do to each key, and that both keep the keys rising.
pub fn rows_are_a_map()
    ensures handed { (rows pairs : Map) (key : List ℕ)
        → value_at (handed rows pairs) key ≡ option_or (value_at (handed rows []) key) (value_at pairs key) }
    ensures handed_rise { (rows pairs : Map) → IsTrue (rises pairs) → IsTrue (rises (handed rows pairs)) }
    ensures forgotten { (span : Span) (pairs : Map) (key : List ℕ)
        → value_at (forgotten span pairs) key ≡ (if within span key then None else value_at pairs key) }
    ensures forgotten_rise { (span : Span) (pairs : Map) → IsTrue (rises pairs) → IsTrue (rises (forgotten span pairs)) }
{}
