//! The law that the scan is the grammar, as a public contract.

ghost use Rattle.std.specs.Prelude.{ℕ, List, ◌↔◌, ◌≡◌, ◌+◌, ◌++◌, length};
ghost use Rattle.ps_language.specs.Scan.{scan, further_on};
ghost use Rattle.ps_language.specs.Syntax.{Reads, LiesAt};
ghost use Rattle.ps_language.specs.Token.{Scan, Token, found};

/// The law of the scan that `next_token` answers.
pub fn scanner_is_grammar()
    // what is scanned is what the grammar has, and the grammar has one answer
    ensures exact { (bytes : List ℕ) (at : ℕ) (outcome : Scan) → (scan bytes at ≡ outcome)
        ↔ Reads bytes at outcome }
    ensures one { (bytes : List ℕ) (at : ℕ) (x y : Scan) → Reads bytes at x → Reads bytes at y → x
        ≡ y }
    // what stands in front of a text changes nothing but the places: from a token's end the scan
    // goes on as over the whole text
    ensures onward { (front text : List ℕ) (at : ℕ) → scan (front ++ text) (length front + at)
        ≡ further_on (length front) (scan text at) }
    // a token lies where it says
    ensures place { (bytes : List ℕ) (at : ℕ) (token : Token) (end : ℕ)
        → Reads bytes at (found token end) → LiesAt bytes at token end }
{}
