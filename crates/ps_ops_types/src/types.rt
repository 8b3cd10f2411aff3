//! The types of objects.

ghost use Rattle.std.specs.Prelude.{◌≡◌, ◌<◌, ℕ};
ghost use Rattle.ps_language.specs.RowsTypes as rows;
ghost use Rattle.ps_mem.specs.Heap.{Heap};
ghost use Rattle.ps_mem.specs.Shows.{IsReady};
ghost use Rattle.ps_ops_types.specs.Types as types;
ghost use Rattle.ps_ops_operands.specs.FirstNames.{ObservesMet};

use ps_language::errors::ErrorName;
use ps_names::first::FIRST_TYPE;
use ps_ops_operands::Operands;
use ps_word::values::{Content, Value};

/// The place of a type among the types.
fn type_place(content: Content) -> u16
    ensures place { result ≡ types.type_place content }
    ensures few { result < 11 }
{
    match content {
        Content::Integer(_) => 0,
        Content::Boolean(_) => 1,
        Content::Null | Content::Body(_) => 2,
        Content::Mark => 3,
        Content::Name(_) => 4,
        Content::Operator(_) => 5,
        Content::Array(_) => 6,
        Content::Text(_) => 7,
        Content::Dictionary(_) => 8,
        Content::Lock(_) => 9,
        Content::Condition(_) => 10,
    }
}

/// `x type N`: the name of its type, executable. The names that the run has met begin with those of
/// its start. Raises `stackunderflow`.
pub fn type_of(operands: &mut Operands) -> Result<(), ErrorName>
    ensures row { (h : Heap) → IsReady h operands.old → ObservesMet (λ store. rows.type_row) result
        h operands.old operands.new }
    ensures ready { (h : Heap) → IsReady h operands.old → IsReady h operands.new }
{
    let Some(word) = operands.top() else {
        return Err(ErrorName::StackUnderflow);
    };
    let name = Value {
        content: Content::Name(FIRST_TYPE + type_place(word.content())),
        executable: true,
    };
    operands.replace(1, name.pack());
    Ok(())
}
