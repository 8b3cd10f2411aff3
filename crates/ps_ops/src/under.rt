//! Operators that neither see nor change frames, whatever frames are above those that stand (PLRM2,
//! 8 'Operators').

ghost use Rattle.std.specs.Prelude.{◌≡◌, ◌<◌};
ghost use Rattle.ps_ops_state.specs.Lent.{lent_of, IsGood};
ghost use Rattle.ps_ops.specs.Alone.{ActsUnder, came_under};

use crate::joins::{get, put};
use ps_language::operators::Operator;
use ps_mem::{Memory, Slot};
use ps_ops_dictionaries::definitions::{def, store};
use ps_ops_dictionaries::finds::{known, load, where_key};
use ps_ops_dictionaries::makes::dict;
use ps_ops_dictionaries::stack::{begin, currentdict, end};
use ps_ops_sequences::array_makes::{array, end_array};
use ps_ops_sequences::arrays;
use ps_ops_sequences::copies::putinterval;
use ps_ops_sequences::elements::astore;
use ps_ops_sequences::intervals::getinterval;
use ps_ops_sequences::lengths::length;
use ps_ops_sequences::searches::search;
use ps_ops_sequences::string_makes::string;
use ps_ops_sequences::string_searches::anchorsearch;
use ps_ops_state::breaks::{Break, made, tried};
use ps_ops_state::lent::{Attempt, Context, Runtime};
use ps_ops_types::attributes;
use ps_ops_types::types::type_of;
use ps_ops_values::equality::equality;
use ps_ops_values::names::cvn;
use ps_ops_values::numbers::cvi;
use ps_ops_values::orders::{Relation, order};
use ps_ops_values::texts::cvs;
use ps_step_execute::under::Under;

/// What an operator came to, by its outcome.
#[inline(always)]
fn came(outcome: Result<(), Break>) -> Under
    ensures { result ≡ came_under outcome }
{
    match outcome {
        Ok(()) => Under::Done,
        Err(_) => Under::Fails,
    }
}

/// `put`, by a call of its own: so it makes no room for what other operators need.
#[inline(never)]
fn put_under<M: Memory>(context: &mut Context, runtime: &mut Runtime<M>, slot: Slot) -> Under
    requires good { IsGood (lent_of M.heap M.grants context.old runtime.old) }
    ensures frames { context.new.frames ≡ context.old.frames }
    ensures acts { ActsUnder Operator.Put slot result
        (lent_of M.heap M.grants context.old runtime.old)
        (lent_of M.heap M.grants context.new runtime.new) }
{
    let attempt = Attempt {
        slot,
        refused: false,
    };
    came(put(context, runtime, attempt))
}

/// `def`, likewise.
#[inline(never)]
fn def_under<M: Memory>(context: &mut Context, runtime: &mut Runtime<M>, slot: Slot) -> Under
    requires good { IsGood (lent_of M.heap M.grants context.old runtime.old) }
    ensures frames { context.new.frames ≡ context.old.frames }
    ensures acts { ActsUnder Operator.Def slot result
        (lent_of M.heap M.grants context.old runtime.old)
        (lent_of M.heap M.grants context.new runtime.new) }
{
    let attempt = Attempt {
        slot,
        refused: false,
    };
    came(def(context, runtime, attempt))
}

/// The other operators that programs call often and that neither see nor change frames, where they
/// raise no error and are made. All others are left.
#[inline(never)]
fn often_under<M: Memory>(
    operator: Operator,
    context: &mut Context,
    runtime: &mut Runtime<M>,
    slot: Slot,
) -> Under
    requires good { IsGood (lent_of M.heap M.grants context.old runtime.old) }
    ensures frames { context.new.frames ≡ context.old.frames }
    ensures acts { ActsUnder operator slot result
        (lent_of M.heap M.grants context.old runtime.old)
        (lent_of M.heap M.grants context.new runtime.new) }
{
    match operator {
        Operator::Get => came(get(context, runtime)),
        Operator::Length => came(length(context, runtime)),
        Operator::Aload => came(made(arrays::aload(&mut context.operands, &mut runtime.memory))),
        Operator::Array => {
            let outcome = array(&mut context.operands, &mut runtime.memory, slot, false);
            came(tried(outcome))
        }
        Operator::EndArray => {
            let outcome = end_array(&mut context.operands, &mut runtime.memory, slot, false);
            came(tried(outcome))
        }
        Operator::MakeString => {
            let outcome = string(&mut context.operands, &mut runtime.memory, slot, false);
            came(tried(outcome))
        }
        Operator::Load => came(load(context, runtime)),
        Operator::Known => came(known(context, runtime)),
        Operator::Begin => came(begin(context, runtime)),
        Operator::End => came(end(context, runtime)),
        _ => Under::Left,
    }
}

/// An operator that programs call often acts in an ordinary step, where it raises no error and is
/// made. The others are left.
#[inline(never)]
pub fn operate_under<M: Memory>(
    operator: Operator,
    context: &mut Context,
    runtime: &mut Runtime<M>,
    slot: Slot,
) -> Under
    requires good { IsGood (lent_of M.heap M.grants context.old runtime.old) }
    ensures frames { context.new.frames ≡ context.old.frames }
    ensures acts { ActsUnder operator slot result
        (lent_of M.heap M.grants context.old runtime.old)
        (lent_of M.heap M.grants context.new runtime.new) }
{
    match operator {
        Operator::Put => put_under(context, runtime, slot),
        Operator::Def => def_under(context, runtime, slot),
        Operator::Exec
        | Operator::If
        | Operator::IfElse
        | Operator::For
        | Operator::Repeat
        | Operator::Loop
        | Operator::Forall
        | Operator::Stopped
        | Operator::Exit
        | Operator::Stop
        | Operator::Bind => Under::Left,
        Operator::Get
        | Operator::Length
        | Operator::Aload
        | Operator::Array
        | Operator::EndArray
        | Operator::MakeString
        | Operator::Load
        | Operator::Known
        | Operator::Begin
        | Operator::End => often_under(operator, context, runtime, slot),
        _ => seldom_under(operator, context, runtime, slot),
    }
}

/// The same of operators that programs call less often: it is a call, so that the others make no
/// room for what these need.
#[inline(never)]
fn seldom_under<M: Memory>(
    operator: Operator,
    context: &mut Context,
    runtime: &mut Runtime<M>,
    slot: Slot,
) -> Under
    requires good { IsGood (lent_of M.heap M.grants context.old runtime.old) }
    ensures frames { context.new.frames ≡ context.old.frames }
    ensures acts { ActsUnder operator slot result
        (lent_of M.heap M.grants context.old runtime.old)
        (lent_of M.heap M.grants context.new runtime.new) }
{
    let attempt = Attempt {
        slot,
        refused: false,
    };
    match operator {
        Operator::GetInterval => came(getinterval(context, runtime)),
        Operator::PutInterval => came(putinterval(context, runtime, attempt)),
        Operator::Astore => came(astore(context, runtime, attempt)),
        Operator::Search => came(search(context, runtime)),
        Operator::AnchorSearch => {
            came(made(anchorsearch(&mut context.operands, &mut runtime.memory)))
        }
        Operator::Cvs => came(cvs(context, runtime, attempt)),
        Operator::Cvi => came(cvi(context, runtime)),
        Operator::Cvn => came(cvn(context, runtime)),
        Operator::Eq => came(equality(context, runtime, true)),
        Operator::Ne => came(equality(context, runtime, false)),
        Operator::Gt => came(order(context, runtime, Relation::Greater)),
        Operator::Ge => came(order(context, runtime, Relation::GreaterOrEqual)),
        Operator::Lt => came(order(context, runtime, Relation::Less)),
        Operator::Le => came(order(context, runtime, Relation::LessOrEqual)),
        Operator::Where => came(where_key(context, runtime)),
        Operator::Store => came(store(context, runtime, attempt)),
        Operator::Dict => came(dict(context, runtime, attempt)),
        Operator::CurrentDict => came(currentdict(context, runtime)),
        Operator::TypeOf => came(made(type_of(&mut context.operands))),
        Operator::Cvlit => came(made(attributes::cvlit(&mut context.operands))),
        Operator::Cvx => came(made(attributes::cvx(&mut context.operands))),
        Operator::Xcheck => came(made(attributes::xcheck(&mut context.operands))),
        _ => Under::Left,
    }
}
