//! Laws of the definitions, each the contract of a function that does nothing.
ghost use Rattle.std.specs.Prelude.{◌≡◌, ℕ, List, Option, false, IsTrue};
ghost use Rattle.st_key.specs.Spans.{Span, within};
ghost use Rattle.st_mutation.specs.declared.batch.Mutation.{Mutation};
ghost use Rattle.st_mutation.specs.Clip.{clipped, value_by_part};
ghost use Rattle.st_mutation.specs.Effect.{value_by};

/// The part of a mutation inside a range does to a key of the range what the mutation does, and to
/// any other key nothing.
pub fn clip_is_the_part_inside()
    ensures inside { (mutation : Mutation) (to : Span) (key : List ℕ) (before : Option (List ℕ))
        → IsTrue (within to key) → value_by_part key before (clipped mutation to) ≡ value_by key before mutation }
    ensures outside { (mutation : Mutation) (to : Span) (key : List ℕ) (before : Option (List ℕ))
        → within to key ≡ false → value_by_part key before (clipped mutation to) ≡ before }
{}
