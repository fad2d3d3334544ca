//! Facts of every state that a legal trace reaches.
ghost use Rattle.std.specs.Prelude.{◌≡◌, ◌<◌, ◌≤◌, ◌-◌, ◌∷◌, ◌++◌, ℕ, Bool, List, None, Some, fold, is_none, IfSome, IsSome, IsTrue, MatchOption, false, true, length};
ghost use Rattle.std.specs.List.{AllByRecursion};
ghost use Rattle.st_key.specs.Spans.{Span, all_keys, holds, is_canonical, key_less, within};
ghost use Rattle.st_fold.specs.declared.plan.Act.{Act};
ghost use Rattle.st_fold.specs.declared.plan.Script.{Script};
ghost use Rattle.st_fold.specs.declared.report.Event.{Event};
ghost use Rattle.st_fold.specs.Assigned.{assigned_by, is_assigned as is_left};
ghost use Rattle.st_fold.specs.Plain.{Rises};
ghost use Rattle.st_mutation.specs.declared.batch.Batch.{Batch};
ghost use Rattle.st_mutation.specs.declared.batch.Move.{Move};
ghost use Rattle.st_mutation.specs.declared.batch.Move.TheVariants.{Release};
ghost use Rattle.st_model.specs.declared.piece.Phase.{Phase};
ghost use Rattle.st_model.specs.declared.piece.Piece.{Piece};
ghost use Rattle.st_model.specs.Facts.{AreInStep, AreRanges, AreWatched, EndsBelow, HasDrop, drops, dropped, is_assigned, is_dropped, is_gone, IsCanonical, IsCounted, IsIdleIn, IsKept, IsMoved, IsPlaced, IsReached, IsSoundOpening, NeverFell};
ghost use Rattle.st_model.specs.Partition.{IsPartition, phase_at};
ghost use Rattle.st_model.specs.Pieces.{move_piece, wants_block};
ghost use Rattle.st_model.specs.Report.{fresh, MayOpen};
ghost use Rattle.st_model.specs.State.{assigned, Given, move_span, next_batch, Opening, State, step};
ghost use Rattle.st_model.specs.Trace.{due, event_by, is_at_rest, IsFetchOf, makes, state_after, state_at};

/// The oldest version is the durable one and not above the newest, and that of a flight lies between them.
pub fn versions_are_in_order()
    ensures { (given : Given) (opening : Opening) (trace : List Event) (state : State)
        → state_after given opening trace ≡ Some state → IsCounted state }
{}

/// From one place of a trace to a later one no version falls.
pub fn versions_never_fall()
    ensures { (given : Given) (opening : Opening) (trace : List Event) (early late : ℕ) (before after : State) → early ≤ late
        → state_at given opening trace early ≡ Some before → state_at given opening trace late ≡ Some after
        → NeverFell before after }
{}

/// The events up to a place of a legal trace are a legal trace.
pub fn traces_are_legal_to_each_place()
    ensures { (given : Given) (opening : Opening) (trace : List Event) (state : State) (place : ℕ)
        → state_after given opening trace ≡ Some state → 1 ≤ place → place ≤ length trace
        → IsSome (state_at given opening trace place) }
{}

/// The pieces part the keys below ff, and each is fetched as far as its phase tells, inside its ends and its versions.
pub fn pieces_stay_in_order()
    ensures partition { (given : Given) (opening : Opening) (trace : List Event) (state : State)
        → state_after given opening trace ≡ Some state → IsPartition state.pieces }
    ensures placed { (given : Given) (opening : Opening) (trace : List Event) (state : State)
        → state_after given opening trace ≡ Some state
        → AllByRecursion (λ piece. IsPlaced state piece piece.phase) state.pieces }
{}

/// A state is at rest exactly where nothing is due.
pub fn rest_is_nothing_due()
    ensures { (given : Given) (state : State) → is_at_rest given state ≡ is_none (due given state) }
{}

/// An act's event may come in the state that it was made for. Where the act makes none, no event of its kind may come.
pub fn acts_make_steps()
    ensures made { (given : Given) (state : State) (fetched : Piece → Event) (action : Act) (event : Event)
        → IsPartition state.pieces → ((piece : Piece) → IsTrue (wants_block piece) → IsFetchOf piece (fetched piece))
        → event_by given state fetched action ≡ Some event → IsSome (step given state event) }
    ensures not_made { (given : Given) (state : State) (fetched : Piece → Event) (action : Act) (event : Event)
        → event_by given state fetched action ≡ None → IsTrue (makes action event) → step given state event ≡ None }
{}

/// No more watches stand than may, each with a number of its own, and none came at a version that hasn't come.
pub fn watches_stay_within_their_limit()
    ensures { (given : Given) (opening : Opening) (trace : List Event) (state : State)
        → state_after given opening trace ≡ Some state → AreWatched given state }
{}

/// Every fact holds in each state that a legal trace reaches, where the log's versions rise from 1 on and the opening
/// has only keys that are assigned at its version.
pub fn reached_states_keep_the_facts()
    ensures last { (given : Given) (opening : Opening) (trace : List Event) (state : State) → Rises 0 given.log
        → IsSoundOpening given opening → state_after given opening trace ≡ Some state → IsReached given state }
    ensures places { (given : Given) (opening : Opening) (trace : List Event) (place : ℕ) (state : State) → Rises 0 given.log
        → IsSoundOpening given opening → state_at given opening trace place ≡ Some state → IsReached given state }
{}

/// In such a state each key below ff is in a phase, and what holds of a key in that phase holds of it.
pub fn reached_keys_are_in_their_phases()
    ensures { (given : Given) (opening : Opening) (trace : List Event) (state : State) (key : List ℕ) → Rises 0 given.log
        → IsSoundOpening given opening → state_after given opening trace ≡ Some state → IsTrue (key_less key all_keys.end)
        → MatchOption (phase_at state.pieces key) ⊥ (λ phase. IsKept given state key phase) }
{}

/// In such a state no batch above the durable version drops a key that is fetched, was sent, or is served: none of its moves
/// takes the key away that is assigned just before it. One that is absent, or waits to be fetched, was dropped by no batch
/// above the version since which it is gone, and where that isn't durable, by the batch of that version.
pub fn reached_keys_are_idle()
    ensures phases { (given : Given) (opening : Opening) (trace : List Event) (state : State) (key : List ℕ) → Rises 0 given.log
        → IsSoundOpening given opening → state_after given opening trace ≡ Some state → IsTrue (key_less key all_keys.end)
        → MatchOption (phase_at state.pieces key) ⊥ (λ phase. IsIdleIn given state.durable state.newest key phase) }
    ensures moves { (given : Given) (opening : Opening) (trace : List Event) (state : State) (key : List ℕ) (phase : Phase)
        (early later : List Batch) (batch : Batch) (before after : List Move) (span : Span) → Rises 0 given.log
        → IsSoundOpening given opening → state_after given opening trace ≡ Some state
        → phase_at state.pieces key ≡ Some phase → is_gone phase ≡ false
        → given.log ≡ early ++ batch ∷ later → state.durable < batch.version → batch.version ≤ state.newest
        → batch.moves ≡ before ++ Release span ∷ after → IsTrue (within span key)
        → fold (assigned_by key) (is_assigned given (batch.version - 1) key) before ≡ false }
{}

/// In such a state a key is assigned exactly where its piece isn't absent.
pub fn all_but_absent_keys_are_assigned()
    ensures { (given : Given) (opening : Opening) (trace : List Event) (state : State) → Rises 0 given.log
        → IsSoundOpening given opening → state_after given opening trace ≡ Some state
        → AreInStep (assigned given.own given.log state.newest) state.pieces }
{}

/// That stays so move by move. What the moves of a batch drop is gone since its version, and what they don't drop is as it
/// was: only an absent key that they leave assigned begins to wait.
pub fn moves_keep_in_step()
    ensures step { (version : ℕ) (spans : List Span) (pieces : List Piece) (move : Move) → AreInStep spans pieces
        → AreInStep (move_span spans move) (move_piece version pieces move) }
    ensures phases { (version : ℕ) (spans : List Span) (pieces : List Piece) (moves : List Move) (key : List ℕ) (before : Phase)
        → IsPartition pieces → AreInStep spans pieces → IsTrue (key_less key all_keys.end) → phase_at pieces key ≡ Some before
        → MatchOption (phase_at (fold (move_piece version) pieces moves) key) ⊥
        (λ after. IsMoved version (drops key (holds spans key) moves) (holds (fold move_span spans moves) key) key before after) }
{}

/// Moves drop a key where one of them takes it away that is assigned just before it, and the spans that they drop have just
/// these keys.
pub fn drops_are_of_each_key()
    ensures of_moves { (key : List ℕ) (held : Bool) (moves : List Move) → drops key held moves ≡ true → HasDrop key held moves }
    ensures by_moves { (key : List ℕ) (held : Bool) (moves : List Move) → HasDrop key held moves → drops key held moves ≡ true }
    ensures spans { (spans : List Span) (moves : List Move) (key : List ℕ)
        → holds (dropped spans moves) key ≡ drops key (holds spans key) moves }
{
    st_mutation::clip_is_the_part_inside();
}

/// The batch that comes next drops just the keys that its moves drop of those that are assigned at the newest version, and
/// up to its version there is no other drop.
pub fn next_batch_drops_by_its_moves()
    ensures next { (given : Given) (state : State) (batch : Batch) (key : List ℕ) → Rises 0 given.log
        → next_batch given state ≡ Some batch
        → is_dropped given batch.version key ≡ drops key (is_assigned given state.newest key) batch.moves }
    ensures none_between { (given : Given) (state : State) (batch : Batch) (version : ℕ) (key : List ℕ) → Rises 0 given.log
        → next_batch given state ≡ Some batch → state.newest < version → version < batch.version
        → is_dropped given version key ≡ false }
{}

/// The list of what is assigned has just the keys that the moves of the log leave to the server.
pub fn assignment_is_of_each_key()
    ensures { (own : List Span) (log : List Batch) (version : ℕ) (key : List ℕ)
        → holds (assigned own log version) key ≡ is_left own log version key }
{}

/// No key above those of the pieces is assigned at any version, where all ranges end at most at ff.
pub fn assigned_keys_are_below_ff()
    ensures { (given : Given) (version : ℕ) (key : List ℕ) → EndsBelow given → is_assigned given version key ≡ true
        → IsTrue (key_less key all_keys.end) }
{}

/// A fresh store, and one that a life left, opens with keys that are assigned at its version.
pub fn openings_are_sound()
    ensures fresh { (script : Script) (given : Given) → Rises 0 script.log → given.log ≡ script.log → given.own ≡ script.own
        → IsSoundOpening given (fresh script) }
    ensures next { (given : Given) (opening next : Opening) (trace : List Event) → Rises 0 given.log
        → IsSoundOpening given opening → MayOpen (state_after given opening trace) next → IsSoundOpening given next }
{}

/// What is assigned, what is available and what will be so with a commit in flight are in canonical form in every state that
/// a legal trace reaches, and so is what the next life opens with. It takes that the first keys and those of the opening
/// are so, and that each range that moves has a key.
pub fn reached_keys_are_in_canonical_form()
    ensures assigned { (given : Given) (version : ℕ) → AreRanges given
        → IsTrue (is_canonical (assigned given.own given.log version)) }
    ensures last { (given : Given) (opening : Opening) (trace : List Event) (state : State) → AreRanges given
        → IsTrue (is_canonical opening.available) → state_after given opening trace ≡ Some state → IsCanonical given state }
    ensures next { (given : Given) (opening next : Opening) (trace : List Event) → AreRanges given
        → IsTrue (is_canonical opening.available) → MayOpen (state_after given opening trace) next
        → IsTrue (is_canonical next.available) }
{}
