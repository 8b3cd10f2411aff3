//! What holds of the entries of schedules that hosts have.

ghost use Rattle.std.specs.Prelude.{◌≡◌};
ghost use Rattle.ps_language.specs.declared.schedules.Entry.{Entry};
ghost use Rattle.ps_run_hosts.specs.Hosts.{given_entry, handed_entry};

/// A schedule that was handed out and is given back is the same.
pub fn host_entry_laws()
    ensures { (entry : Entry) → given_entry (handed_entry entry) ≡ entry }
{}
