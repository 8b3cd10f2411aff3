//! What holds of operators whatever runs them.

ghost use Rattle.ps_ops.specs.Frugal.{frugal_operators};
ghost use Rattle.ps_ops.specs.Turns.{operator_asks};
ghost use Rattle.ps_step_execute.specs.Frugal.{AreFrugal};

/// The operators of the operand stack but `copy`, of arithmetic, and relations take no memory: each
/// changes operands alone or raises an error, and reads into no list.
pub fn frugal_operators()
    ensures { AreFrugal operator_asks frugal_operators }
{}
