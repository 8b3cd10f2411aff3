//! Each operator by what it is lent (PLRM2, 8 'Operators').

ghost use Rattle.std.specs.Prelude.{◌≡◌, ◌<◌, IsTrue};
ghost use Rattle.ps_ops_state.specs.Acts.{Acts};
ghost use Rattle.ps_ops_state.specs.Lent.{lent, lent_of, IsGood};
ghost use Rattle.ps_ops.specs.Operators.{asked_of, row_now, is_done};

use crate::exits::exit;
use crate::joins::{copy, get, put_apart};
use ps_language::operators::Operator;
use ps_mem::Memory;
use ps_ops_control::control;
use ps_ops_control::frames::Cause;
use ps_ops_dictionaries::errors::error_dictionary;
use ps_ops_dictionaries::literals::end_dict;
use ps_ops_dictionaries::makes::dict;
use ps_ops_dictionaries::reads::maxlength;
use ps_ops_dictionaries::removals::undef;
use ps_ops_dictionaries::{definitions, finds, stack as dictionaries};
use ps_ops_operands::{arithmetic, logic, stack_operators};
use ps_ops_sequences::array_makes::{array, end_array};
use ps_ops_sequences::arrays;
use ps_ops_sequences::copies::putinterval;
use ps_ops_sequences::elements::astore;
use ps_ops_sequences::intervals::getinterval;
use ps_ops_sequences::lengths::length;
use ps_ops_sequences::loops::forall;
use ps_ops_sequences::reductions::{noaccess, readonly};
use ps_ops_sequences::searches::search;
use ps_ops_sequences::string_makes::string;
use ps_ops_sequences::string_searches::anchorsearch;
use ps_ops_state::breaks::{Break, made, tried};
use ps_ops_state::lent::{Attempt, Context, Runtime};
use ps_ops_types::types::type_of;
use ps_ops_types::{access, attributes};
use ps_ops_values::equality::equality;
use ps_ops_values::lines as output;
use ps_ops_values::names::cvn;
use ps_ops_values::numbers::cvi;
use ps_ops_values::orders::{Relation, order};
use ps_ops_values::strings::print;
use ps_ops_values::texts::cvs;
use ps_text::lines::Form;

/// Does what an operator does, each by its own function.
///
/// `Raises`: the errors of its row, in their order. `NotMade`: for what it asks for, behind them.
#[inline(always)]
pub fn operate<M: Memory>(
    operator: Operator,
    context: &mut Context,
    runtime: &mut Runtime<M>,
    attempt: Attempt,
) -> Result<(), Break>
    requires done { IsTrue (is_done operator) }
    requires good { IsGood (lent_of M.heap M.grants context.old runtime.old) }
    ensures { Acts (asked_of operator) (row_now operator) attempt result
        (lent_of M.heap M.grants context.old runtime.old)
        (lent_of M.heap M.grants context.new runtime.new) }
{
    match operator {
        Operator::Pop => made(stack_operators::pop(&mut context.operands)),
        Operator::Exch => made(stack_operators::exch(&mut context.operands)),
        Operator::Dup => made(stack_operators::dup(&mut context.operands)),
        Operator::Index => made(stack_operators::index(&mut context.operands)),
        Operator::Roll => made(stack_operators::roll(&mut context.operands)),
        Operator::Clear => made(stack_operators::clear(&mut context.operands)),
        Operator::Count => made(stack_operators::count(&mut context.operands)),
        Operator::Mark => made(stack_operators::mark(&mut context.operands)),
        Operator::ClearToMark => made(stack_operators::cleartomark(&mut context.operands)),
        Operator::CountToMark => made(stack_operators::counttomark(&mut context.operands)),
        Operator::Add => made(arithmetic::add(&mut context.operands)),
        Operator::Sub => made(arithmetic::sub(&mut context.operands)),
        Operator::Mul => made(arithmetic::mul(&mut context.operands)),
        Operator::Idiv => made(arithmetic::idiv(&mut context.operands)),
        Operator::Mod => made(arithmetic::modulo(&mut context.operands)),
        Operator::Neg => made(arithmetic::neg(&mut context.operands)),
        Operator::Abs => made(arithmetic::abs(&mut context.operands)),
        Operator::And => made(logic::and(&mut context.operands)),
        Operator::Or => made(logic::or(&mut context.operands)),
        Operator::Xor => made(logic::xor(&mut context.operands)),
        Operator::Not => made(logic::not(&mut context.operands)),
        Operator::Bitshift => made(arithmetic::bitshift(&mut context.operands)),
        Operator::BeginArray => made(stack_operators::mark(&mut context.operands)),
        Operator::Get => get(context, runtime),
        Operator::Aload => made(arrays::aload(&mut context.operands, &mut runtime.memory)),
        Operator::BeginDict => made(stack_operators::mark(&mut context.operands)),
        Operator::Exec => made(control::exec(&mut context.operands, &mut context.frames)),
        Operator::If => made(control::if_then(&mut context.operands, &mut context.frames)),
        Operator::IfElse => made(control::if_then_else(&mut context.operands, &mut context.frames)),
        Operator::For => made(control::begin_for(&mut context.operands, &mut context.frames)),
        Operator::Repeat => made(control::begin_repeat(&mut context.operands, &mut context.frames)),
        Operator::Loop => made(control::begin_loop(&mut context.operands, &mut context.frames)),
        Operator::Exit => exit(&context.frames),
        Operator::Stop => Err(Break::Unwinds(Cause::Stop)),
        Operator::Stopped => made(control::begin_stopped(
            &mut context.operands,
            &mut context.frames,
        )),
        Operator::Quit => Err(Break::Unwinds(Cause::Quit)),
        Operator::Bind => made(control::begin_bind(&mut context.operands, &mut context.frames)),
        Operator::TypeOf => made(type_of(&mut context.operands)),
        Operator::Cvlit => made(attributes::cvlit(&mut context.operands)),
        Operator::Cvx => made(attributes::cvx(&mut context.operands)),
        Operator::Xcheck => made(attributes::xcheck(&mut context.operands)),
        Operator::ExecuteOnly => made(attributes::executeonly(
            &mut context.operands,
            &mut runtime.memory,
        )),
        Operator::Rcheck => made(access::rcheck(&mut context.operands, &mut runtime.memory)),
        Operator::Wcheck => made(access::wcheck(&mut context.operands, &mut runtime.memory)),
        Operator::AnchorSearch => made(anchorsearch(&mut context.operands, &mut runtime.memory)),
        Operator::MakeString => tried(string(
            &mut context.operands,
            &mut runtime.memory,
            attempt.slot,
            attempt.refused,
        )),
        Operator::Array => tried(array(
            &mut context.operands,
            &mut runtime.memory,
            attempt.slot,
            attempt.refused,
        )),
        Operator::EndArray => tried(end_array(
            &mut context.operands,
            &mut runtime.memory,
            attempt.slot,
            attempt.refused,
        )),
        Operator::Put => put_apart(context, runtime, attempt),
        Operator::Copy => copy(context, runtime, attempt),
        Operator::Equals => output::equals(context, runtime),
        Operator::EqualsEquals => output::equals_equals(context, runtime),
        Operator::Stack => output::show_stack(context, runtime, Form::Plain),
        Operator::Pstack => output::show_stack(context, runtime, Form::Full),
        Operator::Print => print(context, runtime),
        Operator::Begin => dictionaries::begin(context, runtime),
        Operator::End => dictionaries::end(context, runtime),
        Operator::MaxLength => maxlength(context, runtime),
        Operator::CurrentDict => dictionaries::currentdict(context, runtime),
        Operator::CountDictStack => dictionaries::countdictstack(context, runtime),
        Operator::ClearDictStack => dictionaries::cleardictstack(context, runtime),
        Operator::Known => finds::known(context, runtime),
        Operator::Load => finds::load(context, runtime),
        Operator::Where => finds::where_key(context, runtime),
        Operator::GetInterval => getinterval(context, runtime),
        Operator::Length => length(context, runtime),
        Operator::PutInterval => putinterval(context, runtime, attempt),
        Operator::Forall => forall(context, runtime),
        Operator::ReadOnly => readonly(context, runtime, attempt),
        Operator::NoAccess => noaccess(context, runtime, attempt),
        Operator::Astore => astore(context, runtime, attempt),
        Operator::Eq => equality(context, runtime, true),
        Operator::Ne => equality(context, runtime, false),
        Operator::Gt => order(context, runtime, Relation::Greater),
        Operator::Ge => order(context, runtime, Relation::GreaterOrEqual),
        Operator::Lt => order(context, runtime, Relation::Less),
        Operator::Le => order(context, runtime, Relation::LessOrEqual),
        Operator::Search => search(context, runtime),
        Operator::Dict => dict(context, runtime, attempt),
        Operator::Cvi => cvi(context, runtime),
        Operator::Cvn => cvn(context, runtime),
        Operator::Cvs => cvs(context, runtime, attempt),
        Operator::Def => definitions::def_apart(context, runtime, attempt),
        Operator::Store => definitions::store(context, runtime, attempt),
        Operator::Undef => undef(context, runtime, attempt),
        Operator::EndDict => end_dict(context, runtime, attempt),
        Operator::ErrorDict => error_dictionary(context, runtime),
        // Those that are left to the world alone: that any other has its arm is proved.
        _ => unreachable!(),
    }
}
