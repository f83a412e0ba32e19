// The variables of the two lists of a commit.
ghost use Rattle.std.specs.Prelude.{◌≡◌, MatchOption, nat_lt, length, true, false};
ghost use Rattle.gl_model.specs.Rising.{with_all};
ghost use Rattle.gl_model.specs.declared.limits.TheConstants.{TX_VARIABLES};

use gl_model::{TX_VARIABLES, VarSet};

/// The variables of both, or `None` where there are more than a transaction may have.
pub fn both(reads: VarSet, writes: &VarSet) -> Option<VarSet>
    ensures { MatchOption result (nat_lt TX_VARIABLES (length (with_all writes.now reads)) ≡ true)
        (λ all. (all ≡ with_all writes.now reads) × (nat_lt TX_VARIABLES (length (with_all writes.now reads)) ≡ false)) }
{
    reads.union(writes)
}

/// Whether there are more than a transaction may have. Lists that are that short together are not looked at.
pub fn are_too_many(reads: &VarSet, writes: &VarSet) -> bool
    ensures { result ≡ nat_lt TX_VARIABLES (length (with_all writes.now reads.now)) }
{
    if reads.len() + writes.len() <= TX_VARIABLES as usize {
        return false;
    }
    both(*reads, writes).is_none()
}
