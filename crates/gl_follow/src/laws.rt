ghost use Rattle.gl_follow.specs.Beginnings.{BeginningsAreMade, OneLength, RunsOrFails};

/// Where a list is not what its machine makes, one length is that of its longest beginning that the machine makes: a beginning of what
/// is made is made, and no list is both made and not.
pub fn a_list_fails_its_program_at_one_place()
    ensures beginnings { BeginningsAreMade }
    ensures one_length { OneLength }
    ensures apart { RunsOrFails }
{}
