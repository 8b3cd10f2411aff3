//! The operator that leaves a loop (PLRM2, 8 'Operators': Control).

ghost use Rattle.std.specs.Prelude.{◌≡◌, ℕ, List};
ghost use Rattle.ps_language.specs.Control as language;
ghost use Rattle.ps_ops_control.specs.Frames.{frames_in};
ghost use Rattle.ps_mem.specs.Heap.{Heap};
ghost use Rattle.ps_ops.specs.Exits.{exit_as};

use ps_language::errors::ErrorName;
use ps_ops_control::frames::{Cause, Frames};
use ps_ops_control::unwinding::is_in_loop;
use ps_ops_state::breaks::Break;

/// `exit`: an unwinding for the innermost loop begins. Raises `invalidexit` where none stands above
/// the topmost frame of `stopped`.
pub fn exit(frames: &Frames) -> Result<(), Break>
    ensures { (h : Heap) (names : List (List ℕ)) → result
        ≡ exit_as (language.is_in_loop (frames_in h names frames.now)) }
{
    if is_in_loop(frames) {
        return Err(Break::Unwinds(Cause::Exit));
    }
    Err(Break::Raises(ErrorName::InvalidExit))
}
