//! Laws of the definitions, each the contract of a function that does nothing.
ghost use Rattle.std.specs.Prelude.{◌≡◌, ◌++◌, List, Ok, IsTrue};
ghost use Rattle.std.specs.List.{list_all};
ghost use Rattle.st_ops.specs.declared.op.Op.{Op};
ghost use Rattle.st_ops.specs.Grammar.{has_form, is_change, are_items, is_ending, HasParts, IsPayload};
ghost use Rattle.st_ops.specs.Reading.{reading};
ghost use Rattle.st_ops.specs.Spelling.{spelt};

/// A payload's spelling is read as that payload, and no other payload has it.
pub fn one_spelling()
    ensures read { (ops : List Op) → IsPayload ops → reading (spelt ops) ≡ Ok ops }
    ensures one { (a b : List Op) → IsPayload a → IsPayload b → spelt a ≡ spelt b → a ≡ b }
{
    st_num::put_is_taken();
    st_num::taken_is_put();
}

/// A list has the form exactly where it is sets and clears, then items whose keys rise, then the ending.
pub fn form_of_parts()
    ensures joined { (changes items ending : List Op) → IsTrue (list_all is_change changes)
        → IsTrue (are_items items) → IsTrue (is_ending ending) → IsTrue (has_form (changes ++ items ++ ending)) }
    ensures parted { (ops : List Op) → IsTrue (has_form ops) → HasParts ops }
{}
