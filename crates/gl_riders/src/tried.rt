use gl_vm::Reply;

/// What a try of an ask came to.
#[derive(Clone, Copy)]
pub enum Tried {
    /// The machine is answered this.
    Answered(Reply),
    /// It is tried again: another pass held a turn that it needs, or the state of the list makes the thread wait.
    Again,
    /// The ring has no room: it is tried again after a sweep.
    Full,
    /// No thread is live that could fork this one.
    Unforked,
}
