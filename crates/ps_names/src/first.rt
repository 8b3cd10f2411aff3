//! The names that every run has met at its start, by number (PLRM2, 3.7): the errors, the types, the
//! keys of `$error`, what systemdict has beside the operators, and the operators.
//!
//! The operators come last, so that one more leaves each other number as it is. The keys of
//! systemdict have neighbouring numbers, fewer than its index has places, so that no two share one.

ghost use Rattle.std.specs.Prelude.{◌≡◌, ◌<◌, Some, slice_get};
ghost use Rattle.ps_language.specs.Worlds.{first_names};

use ps_language::errors::{ErrorName, error_text};
use ps_language::operators::{OPERATORS, operator_at, operator_name};

/// The number of `dictstackoverflow`; the other errors follow it by the letter.
pub const FIRST_ERROR: u16 = 0;

/// The number of `integertype`; the other types follow it.
pub const FIRST_TYPE: u16 = 16;

/// The number of `newerror`, the first key of `$error`.
pub const NEWERROR: u16 = 27;

/// The number of `errorname`.
pub const ERRORNAME: u16 = 28;

/// The number of `command`.
pub const COMMAND: u16 = 29;

/// The number of `true`, the first of what systemdict has beside the operators.
pub const TRUE: u16 = 30;

/// The number of `false`.
pub const FALSE: u16 = 31;

/// The number of `null`.
pub const NULL: u16 = 32;

/// The number of `systemdict`.
pub const SYSTEMDICT: u16 = 33;

/// The number of `userdict`.
pub const USERDICT: u16 = 34;

/// The number of `pop`; the other operators follow it in their order.
pub const FIRST_OPERATOR: u16 = 35;

/// How many they are.
pub const FIRST_COUNT: u16 = FIRST_OPERATOR + OPERATORS as u16;

/// The text of a number.
pub(crate) fn first_name(number: u16) -> &'static [u8]
    requires { number < FIRST_COUNT }
    ensures { slice_get first_names number ≡ Some result.now }
{
    if number >= FIRST_OPERATOR {
        return operator_name(operator_at((number - FIRST_OPERATOR) as u8));
    }
    match number {
        0 => error_text(ErrorName::DictStackOverflow),
        1 => error_text(ErrorName::DictStackUnderflow),
        2 => error_text(ErrorName::ExecStackOverflow),
        3 => error_text(ErrorName::InvalidAccess),
        4 => error_text(ErrorName::InvalidContext),
        5 => error_text(ErrorName::InvalidExit),
        6 => error_text(ErrorName::LimitCheck),
        7 => error_text(ErrorName::RangeCheck),
        8 => error_text(ErrorName::StackOverflow),
        9 => error_text(ErrorName::StackUnderflow),
        10 => error_text(ErrorName::SyntaxError),
        11 => error_text(ErrorName::TypeCheck),
        12 => error_text(ErrorName::Undefined),
        13 => error_text(ErrorName::UndefinedResult),
        14 => error_text(ErrorName::UnmatchedMark),
        15 => error_text(ErrorName::VmError),
        16 => b"integertype",
        17 => b"booleantype",
        18 => b"nulltype",
        19 => b"marktype",
        20 => b"nametype",
        21 => b"operatortype",
        22 => b"arraytype",
        23 => b"stringtype",
        24 => b"dicttype",
        25 => b"locktype",
        26 => b"conditiontype",
        27 => b"newerror",
        28 => b"errorname",
        29 => b"command",
        30 => b"true",
        31 => b"false",
        32 => b"null",
        33 => b"systemdict",
        34 => b"userdict",
        _ => unreachable!(),
    }
}
