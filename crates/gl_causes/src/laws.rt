ghost use Rattle.gl_causes.specs.Causes.{OneCause};

/// Two causes of one entry are the same.
pub fn an_entry_has_one_cause()
    ensures { OneCause }
{}
