use crate::gate::Gate;
use gl_shortcut::Cuts;

/// What a run goes by and tells beside its table: the short cuts of its judgements, and the gate.
#[derive(Drop)]
pub struct Aids<'a, G: Gate> {
    pub cuts: &'a Cuts,
    pub gate: &'a G,
}

impl<'a, G: Gate> Aids<'a, G> {
    pub(crate) fn of(cuts: &'a Cuts, gate: &'a G) -> Aids<'a, G> {
        Aids { cuts, gate }
    }
}
