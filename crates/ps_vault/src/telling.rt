//! What is told of the values of the contexts: of the world of program and schedule, also while a call
//! waits, since one whose element is taken has changed neither operands nor objects.

ghost use Rattle.std.specs.Prelude.{◌≡◌};
ghost use Rattle.ps_ctx_readers.specs.Values.{IsTold};
ghost use Rattle.ps_vault.specs.Stories.{world_at};

use crate::vaults::Vault;
use ps_ctx::deeds::Deeds;
use ps_ctx_readers::contexts::tell_at;
use ps_ctx_readers::views::{Place, ToldValue, Untold};
use ps_mem::Memory;
use ps_step_interpreter::interprets::Interpret;

impl<M: Memory + Drop, S: Interpret + Drop, D: Deeds + Drop> Vault<'_, M, S, D> {
    /// Tells what a context has at a place. Its bytes, which are those of a string, or of the name that
    /// a name or an operator is, are written to the front of a room, if it has place for all of them.
    ///
    /// `NoContext`: none has this identifier, or it is ended. `NoValue`: the context has no value
    /// there. Then nothing is written.
    pub fn tell(
        &mut self,
        context: u32,
        place: Place<'_>,
        room: &mut [u8],
    ) -> Result<ToldValue, Untold>
        ensures same { self.new ≡ self.old }
        ensures told { IsTold (world_at self.old) context place.entry room.old room.new result }
    {
        tell_at(
            &self.world.contexts,
            context,
            place,
            &mut self.runtime,
            room,
        )
    }
}
