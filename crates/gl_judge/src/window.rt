ghost use Rattle.std.specs.Prelude.{◌↔◌, All};
ghost use Rattle.gl_model.specs.declared.event.Element.{Element as AnElement};
ghost use Rattle.gl_model.specs.Elements.{IsStampInRange};
ghost use Rattle.gl_model.specs.Lockset.{Has};
ghost use Rattle.gl_model.specs.Locksets.{AfterAll};

use gl_model::{Info, Lockset, Stamp};

/// The Info's lockset after these further events.
pub fn walk(info: &Info, window: &[Stamp]) -> Lockset
    requires { All IsStampInRange window.now }
    ensures { (y : AnElement) → Has result y ↔ AfterAll (Has info.now.set) window.now y }
{
    let mut set = info.set;
    for stamp in window {
        set.step(stamp);
    }
    set
}
