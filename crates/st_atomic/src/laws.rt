//! Laws of the definitions, each the contract of a function that does nothing.
ghost use Rattle.std.specs.Prelude.{◌≡◌, ◌≤◌, ◌<◌, ◌+◌, ◌^◌, ◌%◌, ◌++◌, ℕ, List, [], ◌∷◌, Option, Some, All, length};
ghost use Rattle.std.specs.Option.{ForSome};
ghost use Rattle.st_atomic.specs.declared.AtomicOp.{AtomicOp};
ghost use Rattle.st_atomic.specs.Atomic.{bytes_of, changed, number_of};

/// So many bytes of a number stand for it modulo 256 to their number, and the bytes of the number
/// that bytes stand for are these.
pub fn bytes_are_numbers()
    ensures length { (count number : ℕ) → length (bytes_of count number) ≡ count }
    ensures number { (count number : ℕ) → number_of (bytes_of count number) ≡ number % 256 ^ count }
    ensures bytes { (bytes : List ℕ) → All (λ byte. byte < 256) bytes
        → bytes_of (length bytes) (number_of bytes) ≡ bytes }
{}

/// The value after an operation is no longer than a value may be.
pub fn values_stay_short()
    ensures { (op : AtomicOp) (old : Option (List ℕ)) (operand : List ℕ)
        → ForSome old (λ bytes. length bytes ≤ 100000) → length operand ≤ 100000
        → ForSome (changed op old operand) (λ bytes. length bytes ≤ 100000) }
{}

/// A value of 99,999 bytes takes one byte more, and not two.
pub fn append_limit()
    ensures one { (old : List ℕ) (a : ℕ) → length old ≡ 99999
        → changed AtomicOp.AppendIfFits (Some old) (a ∷ []) ≡ Some (old ++ a ∷ []) }
    ensures two { (old : List ℕ) (a b : ℕ) → length old ≡ 99999
        → changed AtomicOp.AppendIfFits (Some old) (a ∷ b ∷ []) ≡ Some old }
{}
