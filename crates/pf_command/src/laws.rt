//! What follows from the definitions alone.

ghost use Rattle.std.specs.Prelude.{◌≡◌, ◌++◌, ◌∷◌, [], List};
ghost use Rattle.pf_entry.specs.Entry.{Entry};
ghost use Rattle.pf_command.specs.Effect.{after, after_command};

/// One entry more in a log is one command more for the configuration.
pub fn a_log_goes_on()
    ensures { (entries : List Entry) (e : Entry) →
        after (entries ++ e ∷ []) ≡ after_command (after entries) e.command }
{}
