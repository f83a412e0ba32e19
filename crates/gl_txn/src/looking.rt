// A look: the word of a variable, under its row's turn, with a number.
ghost use Rattle.std.specs.Prelude.{◌≡◌, ◌≢◌, ◌<◌, suc, [], IfOk, IfErr};
ghost use Rattle.gl_model.specs.declared.limits.TheConstants.{VARIABLES, THREADS};
ghost use Rattle.gl_draws.specs.Ties.{counted};
ghost use Rattle.gl_rule.specs.Lives.{Running, life_of};
ghost use Rattle.gl_rule.specs.Numbers.{count_on};
ghost use Rattle.gl_rule.specs.View.{refused};
ghost use Rattle.gl_table.specs.PassView.{view_of, after};
ghost use Rattle.gl_txn.specs.Looked.{IsLookAt};
ghost use Rattle.gl_rule.specs.Bounded.{most_entries};

use gl_model::Look;
use gl_table::{Pass, Shared};

// Takes the row, draws a number for its word, and puts it back as it was taken. The Err names the pass that holds the row.
pub(crate) fn look_at(shared: &Shared, pass: &mut Pass, var: u16) -> Result<Look, u8>
    requires table { pass.old.own.table ≡ shared.now.id }
    requires there { var < VARIABLES }
    requires held { pass.old.own.held ≡ [] }
    requires owed { pass.old.own.owed ≡ [] }
    requires few { counted pass.old.own.mine < most_entries }
    requires runs { life_of pass.old.own.mine ≡ Running }
    requires room { count_on var pass.old.own.drawn ≡ 0 }
    ensures look { IfOk result (λ l. IsLookAt var l pass.old pass.new) }
    ensures other { IfErr result (λ by. by ≢ pass.old.own.id) }
    ensures busy { IfErr result (λ by. (by < THREADS) × (pass.new ≡ after pass.old (refused (view_of pass.old) (suc var) by))) }
{
    let kept = match shared.take_row(pass, var) {
        Ok(kept) => kept,
        Err(busy) => return Err(busy.by),
    };
    let value = kept.row().value;
    let nth = shared.mark_open(pass, var, Some(value));
    shared.put_row(pass, var, kept);
    Ok(Look { var, value, nth })
}
