ghost use Rattle.gl_listing.specs.Laws.{FormKeepsApart, ListedExactly, NumberedExactly, NumbersFailOnce, PositionsFailOnce};

/// A record is listed, and one of the form is numbered, exactly where no place fails to be.
pub fn faults_are_exact()
    ensures listed { ListedExactly }
    ensures numbered { NumberedExactly }
{}

/// That a look and the end of its attempt draw two numbers follows from the form.
pub fn numbers_are_apart()
    ensures { FormKeepsApart }
{}

/// Positions fail first at one place, and so do numbers.
pub fn one_first_place()
    ensures positions { PositionsFailOnce }
    ensures numbers { NumbersFailOnce }
{}
