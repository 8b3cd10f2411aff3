//! The law that a definition's text is read back as what was given.

ghost use Rattle.std.specs.Prelude.{ℕ, List, [], ◌∷◌, ◌+◌, ◌-◌, ◌++◌, codes, length};
ghost use Rattle.ps_language.specs.Token.{executable_name_token, literal_name_token};
ghost use Rattle.ps_prologues.specs.Prologues.{FitsLimit, IsDefinable, IsNameText, HasTokens, definition_text, value_token};
ghost use Rattle.ps_prologues.specs.declared.definitions.DefinedValue.{DefinedValue as AValue};

/// The law of definitions.
pub fn prologue_laws()
    // Wherever the text of a definition stands, and whatever stands before and behind it, its tokens
    // are the literal name, the value, and `def`; behind the last one its line feed is left.
    ensures read { (front rest name : List ℕ) (value : AValue) → IsNameText name → IsDefinable value
        → FitsLimit value → HasTokens (front ++ (definition_text name value ++ rest)) (length front)
        (literal_name_token name ∷ value_token value ∷ executable_name_token (codes "def") ∷ [])
        (length front + (length (definition_text name value) - 1)) }
{}
