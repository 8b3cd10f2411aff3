//! What holds of the texts of schedules.

ghost use Rattle.std.specs.Prelude.{◌≡◌, ◌≢◌, ℕ, List};
ghost use Rattle.ps_language.specs.declared.schedules.Entry.{Entry};
ghost use Rattle.ps_run_schedules.specs.Texts.{AreEntries, text_of, IsBadAt};

/// What is read of a text that was written is what was written, and a bad line leaves no schedule.
pub fn schedule_text_laws()
    // Two schedules with one text are one.
    ensures once { (first second : List Entry) → AreEntries first → AreEntries second
        → text_of first ≡ text_of second → first ≡ second }
    // Bytes with a bad line are the text of no schedule.
    ensures bad { (bytes : List ℕ) (line : ℕ) → IsBadAt bytes line → (schedule : List Entry)
        → AreEntries schedule → text_of schedule ≢ bytes }
{}
