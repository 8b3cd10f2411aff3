//! The operators that one context can't do alone: those on contexts and locks, and those that are
//! shown the memory (PLRM2, 7.1, 8 'Operators': Multiple Execution Contexts, Virtual Memory).

ghost use Rattle.std.specs.Prelude.{◌≡◌, ◌↔◌, IfSome, None, false};
ghost use Rattle.ps_step_outcome.specs.Turns.{is_for_world};
ghost use Rattle.ps_step_outcome.specs.WorldOperators.{operator_of};

use ps_language::operators::Operator;

/// An operator that is left to the world of all contexts.
#[derive(Clone, Copy, Debug, PartialEq, Eq)]
pub enum WorldOperator {
    CurrentContext,
    Fork,
    Join,
    Detach,
    Lock,
    Monitor,
    Condition,
    Wait,
    Notify,
    Yield,
    VmStatus,
    VmReclaim,
}

impl WorldOperator {
    /// That of an operator, if it is left to the world.
    #[inline]
    pub fn of(operator: Operator) -> Option<WorldOperator>
        ensures is { IfSome result (λ left. operator_of left ≡ operator) }
        ensures none { (result ≡ None) ↔ (is_for_world operator ≡ false) }
    {
        match operator {
            Operator::CurrentContext => Some(WorldOperator::CurrentContext),
            Operator::Fork => Some(WorldOperator::Fork),
            Operator::Join => Some(WorldOperator::Join),
            Operator::Detach => Some(WorldOperator::Detach),
            Operator::Lock => Some(WorldOperator::Lock),
            Operator::Monitor => Some(WorldOperator::Monitor),
            Operator::Condition => Some(WorldOperator::Condition),
            Operator::Wait => Some(WorldOperator::Wait),
            Operator::Notify => Some(WorldOperator::Notify),
            Operator::Yield => Some(WorldOperator::Yield),
            Operator::VmStatus => Some(WorldOperator::VmStatus),
            Operator::VmReclaim => Some(WorldOperator::VmReclaim),
            _ => None,
        }
    }

    /// The operator of the language.
    #[inline]
    pub fn operator(self) -> Operator
        ensures { result ≡ operator_of self }
    {
        match self {
            WorldOperator::CurrentContext => Operator::CurrentContext,
            WorldOperator::Fork => Operator::Fork,
            WorldOperator::Join => Operator::Join,
            WorldOperator::Detach => Operator::Detach,
            WorldOperator::Lock => Operator::Lock,
            WorldOperator::Monitor => Operator::Monitor,
            WorldOperator::Condition => Operator::Condition,
            WorldOperator::Wait => Operator::Wait,
            WorldOperator::Notify => Operator::Notify,
            WorldOperator::Yield => Operator::Yield,
            WorldOperator::VmStatus => Operator::VmStatus,
            WorldOperator::VmReclaim => Operator::VmReclaim,
        }
    }
}
