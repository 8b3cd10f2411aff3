//! The operators on the attribute of an object, and on the access of arrays and strings.

ghost use Rattle.std.specs.Prelude.{◌≡◌, ℕ};
ghost use Rattle.ps_language.specs.Access as language;
ghost use Rattle.ps_language.specs.RowsTypes as rows;
ghost use Rattle.ps_mem.specs.Heap.{Heap};
ghost use Rattle.ps_mem.specs.Shows.{IsReady};
ghost use Rattle.ps_ops_operands.specs.Changes.{Observes};

use ps_language::access::Access;
use ps_language::errors::ErrorName;
use ps_mem::Memory;
use ps_ops_operands::{Operands, plain};

/// `x cvlit x`: literal. Raises `stackunderflow`.
pub fn cvlit(operands: &mut Operands) -> Result<(), ErrorName>
    ensures row { (h : Heap) → IsReady h operands.old → Observes (λ store. rows.cvlit_row) result h
        operands.old operands.new }
    ensures ready { (h : Heap) → IsReady h operands.old → IsReady h operands.new }
{
    let Some(word) = operands.top() else {
        return Err(ErrorName::StackUnderflow);
    };
    operands.replace(1, word.with_executable(false));
    Ok(())
}

/// `x cvx x`: executable. Raises `stackunderflow`.
pub fn cvx(operands: &mut Operands) -> Result<(), ErrorName>
    ensures row { (h : Heap) → IsReady h operands.old → Observes (λ store. rows.cvx_row) result h
        operands.old operands.new }
    ensures ready { (h : Heap) → IsReady h operands.old → IsReady h operands.new }
{
    let Some(word) = operands.top() else {
        return Err(ErrorName::StackUnderflow);
    };
    operands.replace(1, word.with_executable(true));
    Ok(())
}

/// `x xcheck t`: whether it is executable. Raises `stackunderflow`.
pub fn xcheck(operands: &mut Operands) -> Result<(), ErrorName>
    ensures row { (h : Heap) → IsReady h operands.old → Observes (λ store. rows.xcheck_row) result h
        operands.old operands.new }
    ensures ready { (h : Heap) → IsReady h operands.old → IsReady h operands.new }
{
    let Some(word) = operands.top() else {
        return Err(ErrorName::StackUnderflow);
    };
    operands.replace(1, plain::boolean(word.is_executable()));
    Ok(())
}

/// How much of an access was taken away.
#[inline]
fn reduction_of(access: Access) -> u8
    ensures { result ≡ language.reduction_of access }
{
    match access {
        Access::Unlimited => 0,
        Access::ReadOnly => 1,
        Access::ExecuteOnly => 2,
        Access::NoAccess => 3,
    }
}

/// Whether an access may be reduced to another: access is only ever taken away.
#[inline]
pub fn reduces_to(access: Access, reduced: Access) -> bool
    ensures { result ≡ language.reduces_to access reduced }
{
    reduction_of(access) <= reduction_of(reduced)
}

/// `X executeonly X`: an array or a string that can only be executed. Raises `stackunderflow`,
/// `typecheck`, and `invalidaccess` where less is permitted.
pub fn executeonly<M: Memory>(operands: &mut Operands, memory: &M) -> Result<(), ErrorName>
    requires ready { IsReady (M.heap memory.now) operands.old }
    ensures row { Observes (λ store. rows.executeonly_row) result (M.heap memory.now) operands.old
        operands.new }
    ensures ready { IsReady (M.heap memory.now) operands.new }
{
    let Some(word) = operands.top() else {
        return Err(ErrorName::StackUnderflow);
    };
    let Some(part) = word.as_part() else {
        return Err(ErrorName::TypeCheck);
    };
    if !reduces_to(part.access, Access::ExecuteOnly) {
        return Err(ErrorName::InvalidAccess);
    }
    operands.replace(1, word.with_access(Access::ExecuteOnly));
    Ok(())
}
