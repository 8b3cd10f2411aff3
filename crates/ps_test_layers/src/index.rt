//! Rows of the index of a dictionary: in which of its places the positions of a few keys stand.

ghost use Rattle.std.specs.Prelude.{◌≡◌, ℕ, [], ◌∷◌, List, None, Some, map};
ghost use Rattle.ps_word.specs.declared.words.Word.{Word};
ghost use Rattle.ps_mem.specs.Index.{index_word, index_words};
ghost use Rattle.ps_test_layers.specs.Rows.{integer_pairs};

/// What the index of a body of four pairs is, whatever the values are.
pub fn index_rows()
    // The keys 5, 1 and 9 are each looked for from place 1 on.
    ensures put { (births : ℕ → ℕ) (value : Word)
        → index_words births 4 (integer_pairs value (5 ∷ 1 ∷ 9 ∷ [])) ≡ map index_word
        (None ∷ Some 0 ∷ Some 1 ∷ Some 2 ∷ []) }
    // Without the first, the others are found a place earlier.
    ensures removed { (births : ℕ → ℕ) (value : Word)
        → index_words births 4 (integer_pairs value (1 ∷ 9 ∷ [])) ≡ map index_word
        (None ∷ Some 0 ∷ Some 1 ∷ None ∷ []) }
    // Behind the last place comes the first.
    ensures round { (births : ℕ → ℕ) (value : Word)
        → index_words births 4 (integer_pairs value (3 ∷ 7 ∷ [])) ≡ map index_word
        (Some 1 ∷ None ∷ None ∷ Some 0 ∷ []) }
{}
