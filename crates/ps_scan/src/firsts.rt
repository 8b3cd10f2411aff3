//! The number that a text begins with, by no memory (PLRM2, 3.2, 8 'cvi').

ghost use Rattle.std.specs.Prelude.{◌≡◌};
ghost use Rattle.ps_language.specs.Scan.{scan};
ghost use Rattle.ps_scan.specs.Passed.{number_of};

use crate::passes::{TokenClass, pass_token};
use crate::spans::blank_end;
use crate::tokens::{NESTING_LIMIT, ScanFault};
use thiserror::Error;

/// Why a text begins with no number.
#[derive(Clone, Copy, Debug, PartialEq, Eq, Error)]
pub enum NumberFault {
    /// Its first token is none, or it has no token.
    #[error("no number")]
    NoNumber,
    #[error("the text breaks the grammar")]
    Syntax,
    #[error("a number, a name, a string or a procedure is past its limit")]
    Limit,
}

/// The number that the first token of a text is. It takes no memory.
///
/// `NoNumber`: the first token is none, or there is no token. `Syntax`: the text breaks the grammar
/// there. `Limit`: a number, a name, a string, a procedure or the nesting of procedures is past its
/// limit.
pub fn first_number(bytes: &[u8]) -> Result<i32, NumberFault>
    ensures { result ≡ number_of (scan bytes.now 0) }
{
    let here = blank_end(bytes, 0);
    if here >= bytes.len() {
        return Err(NumberFault::NoNumber);
    }
    match pass_token(bytes, here, NESTING_LIMIT) {
        Ok(token) => match token.class {
            TokenClass::Number(number) => Ok(number),
            TokenClass::Name => Err(NumberFault::NoNumber),
            TokenClass::Text => Err(NumberFault::NoNumber),
            TokenClass::Procedure => Err(NumberFault::NoNumber),
        },
        Err(ScanFault::Syntax) => Err(NumberFault::Syntax),
        Err(ScanFault::Limit) => Err(NumberFault::Limit),
        // no memory is taken
        Err(ScanFault::Memory) => Err(NumberFault::Limit),
    }
}
