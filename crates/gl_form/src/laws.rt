ghost use Rattle.gl_form.specs.Rules.{FormedExactly, HasOneFirst};

/// A record is well-formed exactly where no place fails a rule; and there is one first place at most that does.
pub fn form_is_exact()
    ensures form { FormedExactly }
    ensures one { HasOneFirst }
{}
