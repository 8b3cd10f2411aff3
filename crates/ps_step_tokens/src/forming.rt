//! The names of a procedure, in the order of its text (PLRM2, 3.2.2).

ghost use Rattle.std.specs.Prelude.{◌≡◌, ℕ, ◌<◌, ◌≤◌, ◌++◌, List, fold, length, OnErr, OnOk};
ghost use Rattle.std.specs.Prelude.{IsErrOf};
ghost use Rattle.ps_language.specs.Dictionaries.{meet};
ghost use Rattle.ps_language.specs.Limits.{name_limit, names_limit};
ghost use Rattle.ps_language.specs.StepTokens.{names_in};
ghost use Rattle.ps_names.specs.Names.{AreNames};
ghost use Rattle.ps_scan.specs.Shown.{token_of};
ghost use Rattle.ps_step_tokens.specs.Procedures.{IsMore, token_in, tokens_in};
ghost use Rattle.ps_step_tokens.specs.Short.{AreShort, IsShort};

use crate::fitting::names_fit;
use ps_names::{Names, NamesFault};
use ps_scan::TokenKind;

/// Meets a name.
fn form_name(names: &mut Names, text: &[u8]) -> Result<(), NamesFault>
    requires short { length text.now ≤ name_limit }
    ensures formed { OnOk result (names.new ≡ meet names.old text.now) }
    ensures full { IsErrOf result NamesFault.Full
        → names_limit < length (meet names.old text.now) }
    ensures memory { IsErrOf result NamesFault.Memory
        → length names.old < length (meet names.old text.now) }
    ensures long { IsErrOf result NamesFault.TooLong → ⊥ }
    ensures more { IsMore names.old names.new }
    ensures are { AreNames names.old → AreNames names.new }
{
    match names.intern(text) {
        Ok(_) => Ok(()),
        Err(fault) => Err(fault),
    }
}

/// Meets all names of a procedure in order, those within it too.
///
/// `Full`: they would be too many. `Memory`: one is new, and a growth was refused. After a fault
/// some are met, the last ones.
#[cycle(forming)]
fn form_names(names: &mut Names, text: &[u8], elements: &[TokenKind]) -> Result<(), NamesFault>
    requires short { AreShort (tokens_in text.now elements.now) }
    ensures formed { OnOk result (names.new
        ≡ fold meet names.old (names_in (tokens_in text.now elements.now))) }
    ensures full { IsErrOf result NamesFault.Full → names_limit < length
        (fold meet names.old (names_in (tokens_in text.now elements.now))) }
    ensures memory { IsErrOf result NamesFault.Memory → length names.old < length
        (fold meet names.old (names_in (tokens_in text.now elements.now))) }
    ensures long { IsErrOf result NamesFault.TooLong → ⊥ }
    ensures more { IsMore names.old names.new }
    ensures are { AreNames names.old → AreNames names.new }
{
    for element in elements {
        match form_element(names, text, element) {
            Ok(()) => {}
            Err(fault) => return Err(fault),
        }
    }
    Ok(())
}

/// The same of one element.
#[cycle(forming)]
fn form_element(names: &mut Names, text: &[u8], element: &TokenKind) -> Result<(), NamesFault>
    requires short { IsShort (token_of text.now element.now) }
    ensures formed { OnOk result (names.new
        ≡ fold meet names.old (names_in (token_in text.now element.now))) }
    ensures full { IsErrOf result NamesFault.Full → names_limit < length
        (fold meet names.old (names_in (token_in text.now element.now))) }
    ensures memory { IsErrOf result NamesFault.Memory → length names.old < length
        (fold meet names.old (names_in (token_in text.now element.now))) }
    ensures long { IsErrOf result NamesFault.TooLong → ⊥ }
    ensures more { IsMore names.old names.new }
    ensures are { AreNames names.old → AreNames names.new }
{
    match element {
        TokenKind::LiteralName(span)
        | TokenKind::ExecutableName(span)
        | TokenKind::ImmediateName(span) => { form_name(names, span.of(text)) }
        TokenKind::Procedure(inner) => form_names(names, text, inner),
        TokenKind::Integer(_) | TokenKind::Text(_) => Ok(()),
    }
}

/// Meets all names of a procedure in order, those within it too.
///
/// `Full`: they would be too many. `Memory`: they are not, one is new, and a growth was refused.
/// After a fault the names are as they were.
pub(crate) fn meet_names(
    names: &mut Names,
    text: &[u8],
    elements: &[TokenKind],
) -> Result<(), NamesFault>
    requires short { AreShort (tokens_in text.now elements.now) }
    ensures formed { OnOk result (names.new
        ≡ fold meet names.old (names_in (tokens_in text.now elements.now))) }
    ensures full { IsErrOf result NamesFault.Full → names_limit < length
        (fold meet names.old (names_in (tokens_in text.now elements.now))) }
    ensures memory { IsErrOf result NamesFault.Memory → (length names.old < length
        (fold meet names.old (names_in (tokens_in text.now elements.now)))) × (length
        (fold meet names.old (names_in (tokens_in text.now elements.now))) ≤ names_limit) }
    ensures long { IsErrOf result NamesFault.TooLong → ⊥ }
    ensures fault { OnErr result (names.new ≡ names.old) }
    ensures more { IsMore names.old names.new }
    ensures are { OnOk result (AreNames names.new) }
{
    let count = names.len();
    match form_names(names, text, elements) {
        Ok(()) => Ok(()),
        Err(fault) => {
            names.truncate(count);
            if names_fit(names, text, elements) {
                Err(fault)
            } else {
                Err(NamesFault::Full)
            }
        }
    }
}
