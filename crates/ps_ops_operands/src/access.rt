//! What an access permits (PLRM2, 3.3.2).

ghost use Rattle.std.specs.Prelude.{◌≡◌, ◌&&◌};
ghost use Rattle.ps_language.specs.Access as language;

use ps_language::access::Access;

/// Whether an access permits reading.
#[inline]
pub fn is_readable(access: Access) -> bool
    ensures { result ≡ language.is_readable access }
{
    match access {
        Access::Unlimited | Access::ReadOnly => true,
        Access::ExecuteOnly | Access::NoAccess => false,
    }
}

/// Whether an access permits writing.
#[inline]
pub fn is_writable(access: Access) -> bool
    ensures { result ≡ language.is_writable access }
{
    match access {
        Access::Unlimited => true,
        Access::ReadOnly | Access::ExecuteOnly | Access::NoAccess => false,
    }
}

/// Whether an access permits execution.
#[inline]
pub fn is_executable(access: Access) -> bool
    ensures { result ≡ language.is_executable access }
{
    match access {
        Access::Unlimited | Access::ReadOnly | Access::ExecuteOnly => true,
        Access::NoAccess => false,
    }
}

/// Whether one access permits reading and the other writing.
#[inline]
pub fn may_copy(from: Access, to: Access) -> bool
    ensures { result ≡ language.is_readable from && language.is_writable to }
{
    is_readable(from) && is_writable(to)
}
