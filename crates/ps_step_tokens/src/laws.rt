//! What holds of every token that is scanned.

ghost use Rattle.std.specs.Prelude.{◌≡◌, ℕ, List};
ghost use Rattle.ps_language.specs.Scan.{scan};
ghost use Rattle.ps_language.specs.Token.{Token, found};
ghost use Rattle.ps_step_tokens.specs.Short.{IsShort};

/// A token that is scanned is within the limits of its names, strings and procedures.
pub fn scanned_is_short()
    ensures { (text : List ℕ) (at : ℕ) (token : Token) (end : ℕ) → scan text at ≡ found token end
        → IsShort token }
{}
