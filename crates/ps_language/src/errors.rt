//! The errors, and how each is written (PLRM2, 3.10).

ghost use Rattle.std.specs.Prelude.{◌≡◌};
ghost use Rattle.ps_language.specs.StepErrors as errors;

/// The errors that an operator or the interpreter raises (PLRM2, 3.10).
#[derive(Clone, Copy, Debug, PartialEq, Eq)]
pub enum ErrorName {
    DictStackOverflow,
    DictStackUnderflow,
    ExecStackOverflow,
    InvalidAccess,
    InvalidContext,
    InvalidExit,
    LimitCheck,
    RangeCheck,
    StackOverflow,
    StackUnderflow,
    SyntaxError,
    TypeCheck,
    Undefined,
    UndefinedResult,
    UnmatchedMark,
    VmError,
}

/// The name of an error (PLRM2, 3.10).
pub fn error_text(error: ErrorName) -> &'static [u8]
    ensures { result.now ≡ errors.error_text error }
{
    match error {
        ErrorName::DictStackOverflow => b"dictstackoverflow",
        ErrorName::DictStackUnderflow => b"dictstackunderflow",
        ErrorName::ExecStackOverflow => b"execstackoverflow",
        ErrorName::InvalidAccess => b"invalidaccess",
        ErrorName::InvalidContext => b"invalidcontext",
        ErrorName::InvalidExit => b"invalidexit",
        ErrorName::LimitCheck => b"limitcheck",
        ErrorName::RangeCheck => b"rangecheck",
        ErrorName::StackOverflow => b"stackoverflow",
        ErrorName::StackUnderflow => b"stackunderflow",
        ErrorName::SyntaxError => b"syntaxerror",
        ErrorName::TypeCheck => b"typecheck",
        ErrorName::Undefined => b"undefined",
        ErrorName::UndefinedResult => b"undefinedresult",
        ErrorName::UnmatchedMark => b"unmatchedmark",
        ErrorName::VmError => b"VMerror",
    }
}
