ghost use Rattle.std.specs.Prelude.{◌↔◌, ◌<◌, IsTrue};
ghost use Rattle.gl_model.specs.declared.event.Element.{Element as AnElement};
ghost use Rattle.gl_model.specs.declared.limits.TheConstants.{THREADS};
ghost use Rattle.gl_model.specs.Lockset.{Has};
ghost use Rattle.gl_model.specs.Locksets.{IsOrderedOrExcepted, IsVarOf};

use gl_model::{Element, Lockset, Question, VarSet};

fn has_some(set: &Lockset, variables: &VarSet) -> bool
    ensures { IsTrue result ↔ ((y : AnElement) × IsVarOf variables.now y × Has set.now y) }
{
    for x in variables.ids() {
        if set.has(Element::Var(*x)) {
            return true;
        }
    }
    false
}

/// Whether an access whose lockset this is lets the question's pass.
pub fn passes(set: &Lockset, q: &Question) -> bool
    requires { q.now.thread < THREADS }
    ensures { IsTrue result ↔ IsOrderedOrExcepted (Has set.now) q.now.thread q.now.commit }
{
    match &q.commit {
        None => set.has(Element::Thread(q.thread)),
        Some(variables) => {
            set.has(Element::Tx) || set.has(Element::Thread(q.thread)) || has_some(set, variables)
        }
    }
}
