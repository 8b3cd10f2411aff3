//! What a schedule has of a step.

ghost use Rattle.std.specs.Prelude.{◌≡◌, ◌↔◌, IsTrue};
ghost use Rattle.ps_language.specs.Schedules.{last_move, plain_move};
ghost use Rattle.ps_language.specs.Worlds.{kept_pair};
ghost use Rattle.ps_ctx.specs.Notes.{note_of};
ghost use Rattle.ps_vault.specs.Stories.{};

use ps_ctx::notes::Note;
use ps_language::schedules::Entry;

/// Whether each step of an entry is an ordinary one: none is refused, and none shows a pair.
#[inline]
pub fn is_ordinary(entry: &Entry) -> bool
    ensures { IsTrue result ↔ (last_move entry.now ≡ plain_move entry.now.context) }
{
    !entry.refused && entry.shown.is_none()
}

/// What a schedule keeps of the pair that a step was shown: the pair, where a `vmstatus` acted
/// (PLRM2, 8 'vmstatus').
pub fn kept(told: Note, shown: Option<(i32, i32)>) -> Option<(i32, i32)>
    ensures { result ≡ kept_pair (note_of told) shown }
{
    match told {
        Note::ShowsMemory => shown,
        Note::Nothing | Note::TurnEnds | Note::Wishes(_) => None,
    }
}
