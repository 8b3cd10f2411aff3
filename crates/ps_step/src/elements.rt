//! Elements of a procedure one after another, as far as operands and frames alone do them (PLRM2,
//! 3.5).

ghost use Rattle.std.specs.Prelude.{◌≡◌, ◌+◌, ◌-◌, ◌<◌, ◌≤◌, ◌^◌, List};
ghost use Rattle.ps_ops_control.specs.Frames.{IsHeld};
ghost use Rattle.ps_ops_control.specs.declared.frames.Frame.{Frame};
ghost use Rattle.ps_ops_state.specs.Lent.{IsGood, Lent};
ghost use Rattle.ps_step_frames.specs.Steps.{frames_after};
ghost use Rattle.ps_step.specs.Elements.{DoesFirst, IsBehind, stacked};

use ps_mem::Memory;
use ps_ops_operands::Operands;
use ps_ops_state::lent::Dictionaries;
use ps_seq::arrays::element_at;
use ps_step_execute::operates::Operate;
use ps_step_execute::quick::{Fast, do_quickly};
use ps_step_frames::elements::Element;
use ps_word::values::Part;

/// The index of an element, by its sum of address and place and that of the first.
#[inline(always)]
fn index_of(start: usize, at: usize) -> u16
    requires from { start ≤ at }
    requires within { at < start + 2 ^ 16 }
    ensures { result ≡ at - start }
{
    (at - start) as u16
}

/// Does the first elements of a procedure, at most so many, as far as operands and frames alone do
/// them, names looked up among them. It tells how many are done, and what the one behind them came
/// to, unless as many are done as may be. The memory stays as it is. It counts by sums of the array's
/// address and the places there, so that nothing is added for each.
#[inline(always)]
pub fn do_first<O: Operate, M: Memory>(
    rest: Part,
    most: u16,
    dictionaries: &Dictionaries,
    operands: &mut Operands,
    memory: &mut M,
) -> (u16, Fast<Element>)
    requires good { (l : Lent) × (below : List Frame) × IsGood (stacked (M.heap memory.old)
        dictionaries.now operands.old (frames_after 0 rest below) l) }
    requires part { IsHeld (M.heap memory.old) rest }
    requires most { most ≤ rest.length }
    ensures heap { M.heap memory.new ≡ M.heap memory.old }
    ensures grants { M.grants memory.new ≡ M.grants memory.old }
    ensures behind { IsBehind most result.0 result.1 }
    ensures does { DoesFirst O.asks (M.heap memory.old) dictionaries.now rest result.0
        result.1 operands.old operands.new }
{
    let start = rest.address as usize + rest.offset as usize;
    for at in start..start + most as usize {
        let word = element_at(memory, rest, at);
        match do_quickly::<O, M>(word, dictionaries, operands, memory, true) {
            Fast::Done => {}
            Fast::Enters(body) => {
                let done = index_of(start, at);
                return (done, Fast::Enters(body));
            }
            Fast::Treats(value) => {
                let done = index_of(start, at);
                let element = Element { word, value };
                return (done, Fast::Treats(element));
            }
            Fast::Slow => {
                let done = index_of(start, at);
                return (done, Fast::Slow);
            }
        }
    }
    (most, Fast::Done)
}
