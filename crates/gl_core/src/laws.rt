//! Laws of epochs.
ghost use Rattle.gl_core.specs.EpochLaws.{EpochsTell};

/// The last write and each thread's last read since are enough, as epochs: by the clock of a thread that makes a next access they tell
/// whether it is racy.
pub fn epochs_are_enough()
    ensures { EpochsTell }
{}
