//! The laws of places: they are those of the objects that a step makes, and of their elements.

ghost use Rattle.std.specs.Prelude.{ℕ, List, ◌≡◌, ◌+◌, drop, length, slice_index};
ghost use Rattle.ps_language.specs.Scan.{scan};
ghost use Rattle.ps_language.specs.StepValues.{LookedUp};
ghost use Rattle.ps_language.specs.Token.{Token, Tokens, procedure_token, found};
ghost use Rattle.ps_language.specs.Value.{Store};
ghost use Rattle.ps_places.specs.Made.{StandAt, AreMadeAt, token_made};
ghost use Rattle.ps_places.specs.Objects.{token_places, objects_at};
ghost use Rattle.ps_places.specs.Tokens.{token_begin};

/// The laws of what `object_begin` and `element_begin` answer.
pub fn places_laws()
    // The objects that a step makes of a token are, in the order of their births, each made of the
    // token at its place, and no others.
    ensures objects { (look : List ℕ → LookedUp) (text : List ℕ) (begin : ℕ) (token : Token)
        (end : ℕ) (store : Store) → scan text begin ≡ found token end
        → token_begin text begin ≡ begin
        → AreMadeAt look text (objects_at 33 text begin)
        (drop (length store) (token_made look token store).store) }
    // Behind the brace of a procedure the tokens that are read one behind another are its elements,
    // each at its place, and no others.
    ensures elements { (text : List ℕ) (begin : ℕ) (elements : Tokens) (end : ℕ)
        → slice_index text begin ≡ 123 → scan text begin ≡ found (procedure_token elements) end
        → StandAt text (token_places text (begin + 1)) elements }
{}
