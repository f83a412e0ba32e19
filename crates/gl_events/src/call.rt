use gl_model::Act;

/// What a thread asks for.
#[derive(Clone, Copy)]
pub enum Call {
    Begin,
    End,
    Enter(u16),
    Exit(u16),
    VRead(u16),
    VWrite { field: u16, value: i64 },
    Fork { func: u16, value: i64 },
    Join(u8),
    Alloc(u16),
    Print(i64),
    Input,
}

/// An act, and the value of its entry.
#[derive(Clone, Copy)]
pub struct Plan {
    pub act: Act,
    pub value: i64,
}
