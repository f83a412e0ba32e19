// A private word that is stored in its row.
ghost use Rattle.std.specs.Prelude.{◌≡◌, ◌≢◌, ◌<◌, [], Contains, OnOk, OnErr, IfErr};
ghost use Rattle.gl_model.specs.declared.limits.TheConstants.{THREADS, VARIABLES};
ghost use Rattle.gl_rule.specs.View.{moved};
ghost use Rattle.gl_rows.specs.WritingBack.{IsWrittenBack, read_busy, without_owed};

use gl_table::{Busy, Pass, Shared};

/// Stores the word of a cached write in the variable's row; the pass owes it no more then. No number is drawn, and the row's Infos stay.
/// Busy comes only where this call read the row's turn as held by another pass.
pub fn write_back(shared: &Shared, pass: &mut Pass, var: u16, value: i64) -> Result<(), Busy>
    requires table { pass.old.own.table ≡ shared.now.id }
    requires near { var < VARIABLES }
    requires held { pass.old.own.held ≡ [] }
    requires owes { Contains pass.old.own.owed (var, value) }
    ensures stored { OnOk result (IsWrittenBack pass.old var pass.new) }
    ensures own { OnOk result (pass.new.own ≡ record pass.old.own { owed = without_owed var pass.old.own.owed }) }
    ensures cost { OnOk result (pass.new.moves ≡ moved 4 pass.old.moves) }
    ensures kept { OnErr result (pass.new.own ≡ pass.old.own) }
    ensures busy { IfErr result (λ b. (b.by < THREADS) × (pass.new ≡ read_busy pass.old var b.by)) }
    ensures other { IfErr result (λ b. b.by ≢ pass.old.own.id) }
{
    let mut kept = shared.take_row(pass, var)?;
    kept.row_mut().value = value;
    shared.put_paid(pass, var, kept);
    Ok(())
}
