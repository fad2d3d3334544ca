//! Laws of the pieces as a partition of the keys below ff: which changes keep it, and what each does to the piece that
//! has a key.
ghost use Rattle.std.specs.Prelude.{◌≡◌, ◌<◌, ◌≤◌, ◌&&◌, ◌++◌, ◌∷◌, [], suc, ℕ, Bool, List, Some, Option, IsTrue, IsSome, MatchOption, false, map, length, take, drop, slice_index_or, not, bytes_eq, if◌then◌else◌};
ghost use Rattle.std.specs.List.{AllWithin};
ghost use Rattle.std.specs.List.Sorted.{IsPartitionedBy};
ghost use Rattle.st_model.specs.Reply.{first_unreadable};
ghost use Rattle.std.specs.Option.{option_map, option_map_or, option_and_then};
ghost use Rattle.st_key.specs.Spans.{Span, key_less, holds, all_keys};
ghost use Rattle.st_mutation.specs.declared.batch.Move.{Move};
ghost use Rattle.st_mutation.specs.declared.batch.Move.TheVariants.{Assign, Release};
ghost use Rattle.st_model.specs.Partition.{Tiles, IsPartition, IsPlaceOf, IsFirstUnserved, AreServed, piece_at, phase_at, part_with, changed_with, cuts};
ghost use Rattle.st_model.specs.Pieces.{span_of, is_absent, is_readable, serves, waits, cut, cut_where, change_within, move_piece, first_phase, first_pieces, begins, change_at, by_phase, in_phase, inject, split_piece};
ghost use Rattle.st_model.specs.declared.piece.Piece.{Piece};
ghost use Rattle.st_model.specs.declared.piece.Phase.{Phase};
ghost use Rattle.st_model.specs.declared.piece.Phase.TheVariants.{Absent};

/// Each key below ff is in a piece, and is served exactly where that piece is readable.
pub fn pieces_have_all_keys()
    ensures held { (pieces : List Piece) (key : List ℕ) → IsPartition pieces → IsTrue (key_less key all_keys.end)
        → IsSome (piece_at pieces key) }
    ensures served { (pieces : List Piece) (key : List ℕ) → IsPartition pieces
        → serves pieces key ≡ option_map_or (λ piece. is_readable piece.phase) (piece_at pieces key) false }
{}

/// The pieces of an opening are a partition, and each key is in the phase that it has by itself.
pub fn openings_part_the_keys()
    ensures partition { (version : ℕ) (available assigned : List Span) → IsPartition (first_pieces version available assigned) }
    ensures phases { (version : ℕ) (available assigned : List Span) (key : List ℕ) → IsTrue (key_less key all_keys.end)
        → phase_at (first_pieces version available assigned) key
        ≡ Some (first_phase version (holds available key) (holds assigned key)) }
{}

/// A cut keeps the partition, and leaves at each key the part of its piece that has it.
pub fn cuts_part_the_keys()
    ensures partition { (test : Phase → Bool) (place : List ℕ) (pieces : List Piece) → IsPartition pieces
        → IsPartition (cut_where test place pieces) }
    ensures parts { (test : Phase → Bool) (key place : List ℕ) (pieces : List Piece) → IsPartition pieces
        → piece_at (cut_where test place pieces) key
        ≡ option_map (λ piece. if test piece.phase then part_with key place piece else piece) (piece_at pieces key) }
{}

/// A move keeps the partition. At each key it leaves the part of the piece that has it, cut at the ends of the move,
/// and inside the move in another phase; or the piece as it was, where the move isn't about its phase.
pub fn moves_part_the_keys()
    ensures partition { (version : ℕ) (pieces : List Piece) (move : Move) → IsPartition pieces
        → IsPartition (move_piece version pieces move) }
    ensures assigned { (version : ℕ) (pieces : List Piece) (span : Span) (key : List ℕ) → IsPartition pieces
        → piece_at (move_piece version pieces (Assign span)) key
        ≡ option_map (changed_with key span is_absent waits) (piece_at pieces key) }
    ensures released { (version : ℕ) (pieces : List Piece) (span : Span) (key : List ℕ) → IsPartition pieces
        → piece_at (move_piece version pieces (Release span)) key
        ≡ option_map (changed_with key span (λ phase. not (is_absent phase)) (λ phase. Absent version)) (piece_at pieces key) }
{}

/// A change of phases alone keeps the partition, and is made of the piece that has a key.
pub fn phases_change_in_place()
    ensures partition { (change : Phase → Phase) (pieces : List Piece) → IsPartition pieces → IsPartition (by_phase change pieces) }
    ensures phases { (change : Phase → Phase) (pieces : List Piece) (key : List ℕ)
        → piece_at (by_phase change pieces) key
        ≡ option_map (λ piece. in_phase (change piece.phase) piece) (piece_at pieces key) }
    ensures injected { (version : ℕ) (pieces : List Piece) → IsPartition pieces → IsPartition (map (inject version) pieces) }
    ensures injected_phases { (version : ℕ) (pieces : List Piece) (key : List ℕ)
        → piece_at (map (inject version) pieces) key ≡ option_map (inject version) (piece_at pieces key) }
{}

/// A change of the piece that begins at a key, where that piece passes a test, keeps the partition if it leaves of each
/// piece that passes the test parts that lie one behind another. It is made of that piece alone.
pub fn one_piece_changes()
    ensures partition { (begin : List ℕ) (test : Piece → Bool) (change : Piece → List Piece) (pieces : List Piece)
        → ((piece : Piece) → IsTrue (key_less piece.begin piece.end) → IsTrue (test piece)
        → Tiles span_of piece.begin piece.end (change piece))
        → IsPartition pieces → IsTrue (begins test begin pieces) → IsPartition (change_at begin change pieces) }
    ensures parts { (begin key : List ℕ) (test : Piece → Bool) (change : Piece → List Piece) (pieces : List Piece)
        → ((piece : Piece) → IsTrue (key_less piece.begin piece.end) → IsTrue (test piece)
        → Tiles span_of piece.begin piece.end (change piece))
        → IsPartition pieces → IsTrue (begins test begin pieces)
        → piece_at (change_at begin change pieces) key
        ≡ option_and_then
        (λ piece. if bytes_eq piece.begin begin && test piece then piece_at (change piece) key else Some piece)
        (piece_at pieces key) }
    ensures split { (test : Piece → Bool) (durable : ℕ) (place : List ℕ)
        → ((piece : Piece) → IsTrue (test piece) → bytes_eq place piece.begin ≡ false → IsTrue (cuts place (span_of piece)))
        → (piece : Piece) → IsTrue (key_less piece.begin piece.end) → IsTrue (test piece)
        → Tiles span_of piece.begin piece.end (split_piece durable place piece) }
{}

/// The pieces end further and further on, so the piece that has a key is found by halving: the first that ends above it.
pub fn pieces_are_found()
    ensures parted { (key : List ℕ) (pieces : List Piece) → IsPartition pieces
        → IsPartitionedBy (λ piece. not (key_less key piece.end)) pieces }
    ensures found { (pieces : List Piece) (key : List ℕ) (at : ℕ) → IsPartition pieces
        → AllWithin (λ piece. key_less key piece.end ≡ false) pieces 0 at
        → AllWithin (λ piece. IsTrue (key_less key piece.end)) pieces at (length pieces)
        → at < length pieces → IsPlaceOf pieces key at }
    ensures in_range { (pieces : List Piece) (key : List ℕ) (at : ℕ) → IsPartition pieces
        → AllWithin (λ piece. key_less key piece.end ≡ false) pieces 0 at
        → AllWithin (λ piece. IsTrue (key_less key piece.end)) pieces at (length pieces)
        → at ≤ length pieces → IsTrue (key_less key all_keys.end) → at < length pieces }
{}

/// A change of the piece that begins at a key, and a cut at a key, are made at the place of the piece that has the key.
pub fn pieces_change_at_a_place()
    ensures begins { (test : Piece → Bool) (begin : List ℕ) (pieces : List Piece) (at : ℕ) (other : Piece) → IsPartition pieces
        → IsPlaceOf pieces begin at
        → begins test begin pieces
        ≡ (bytes_eq (slice_index_or pieces at other).begin begin && test (slice_index_or pieces at other)) }
    ensures changed { (begin : List ℕ) (change : Piece → List Piece) (pieces : List Piece) (at : ℕ) (other : Piece)
        → IsPartition pieces → IsPlaceOf pieces begin at
        → change_at begin change pieces
        ≡ take at pieces
        ++ ((if bytes_eq (slice_index_or pieces at other).begin begin then change (slice_index_or pieces at other)
        else slice_index_or pieces at other ∷ [])
        ++ drop (suc at) pieces) }
    ensures cut { (test : Phase → Bool) (place : List ℕ) (pieces : List Piece) (at : ℕ) (other : Piece)
        → IsPartition pieces → IsPlaceOf pieces place at
        → cut_where test place pieces
        ≡ take at pieces
        ++ ((if test (slice_index_or pieces at other).phase then cut place (slice_index_or pieces at other)
        else slice_index_or pieces at other ∷ [])
        ++ drop (suc at) pieces) }
    ensures uncut { (test : Phase → Bool) (place : List ℕ) (pieces : List Piece)
        → AllWithin (λ piece. key_less place piece.end ≡ false) pieces 0 (length pieces)
        → cut_where test place pieces ≡ pieces }
{}

/// Of a span that ends at ff at most, the key that is told as unreadable is the least that isn't served; and none is told
/// exactly where all are served.
pub fn first_unreadable_is_least()
    ensures { (pieces : List Piece) (span : Span) → IsPartition pieces → IsTrue (key_less span.begin span.end)
        → key_less all_keys.end span.end ≡ false
        → MatchOption (first_unreadable pieces span) (AreServed pieces span) (IsFirstUnserved pieces span) }
{}
