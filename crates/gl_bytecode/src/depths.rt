ghost use Rattle.std.specs.Prelude.{◌≡◌, ℕ, ◌≤◌, ◌<◌, ◌++◌, ◌∷◌, [], length, map, false, IfOk, MatchBool, OnOk, None};
ghost use Rattle.gl_bytecode.specs.Faults.{HasDepths, fault_at, falls_off};
ghost use Rattle.gl_bytecode.specs.Instructions.{successors};
ghost use Rattle.gl_bytecode.specs.Passing.{Passing, claims_after, work};

use crate::contents::Contents;
use crate::function::Function;
use crate::instr::{Catch, Flow, Instr};
use crate::limits::{CODE, OPERANDS};
use std::alloc::{AllocError, Global};

/// A place of a function is reached with so many values on the stack.
#[derive(Clone, Copy, Debug, PartialEq, Eq)]
pub(crate) struct Claim {
    pub at: u16,
    pub depth: u16,
}

impl Contents {
    /// Can depths be given to all that is reached of a function? Each place's depth is found at most once, and then its
    /// successors are looked at.
    pub fn has_depths(&self, alloc: Global, function: &Function) -> Result<bool, AllocError>
        requires named { (k : ℕ) → fault_at self.now function.now k ≡ None }
        requires ended { falls_off function.now ≡ false }
        requires code { length function.now.code ≤ CODE }
        ensures { IfOk result (λ b. MatchBool b (HasDepths self.now function.now) (¬ HasDepths self.now function.now)) }
    {
        let mut depths = vec![in alloc; None; function.code.len()]?;
        let mut claims = first_claims(alloc, &function.catches)?;
        while let Some(claim) = claims.pop() {
            if !self.admits(function, &mut depths, &mut claims, claim)? {
                return Ok(false);
            }
        }
        Ok(true)
    }

    // Does the claim agree with the depth that was found, or where none was, has the instruction its operands? Then its
    // successors are claimed.
    fn admits(
        &self,
        function: &Function,
        depths: &mut Vec<Option<u16>>,
        claims: &mut Vec<Claim>,
        claim: Claim,
    ) -> Result<bool, AllocError>
        requires passing { Passing self.now function.now depths.old.items (claims.old.items ++ claim ∷ []) }
        requires code { length function.now.code ≤ CODE }
        ensures { IfOk result (λ b. MatchBool b (Passing self.now function.now depths.new.items claims.new.items × (work depths.new.items claims.new.items < work depths.old.items (claims.old.items ++ claim ∷ []))) (¬ HasDepths self.now function.now)) }
    {
        let found = depths[claim.at as usize];
        match found {
            Some(depth) => Ok(depth == claim.depth),
            None => {
                let instr = function.code[claim.at as usize];
                let needs = self.needs(instr);
                if (claim.depth as usize) < needs || claim.depth as usize > OPERANDS {
                    return Ok(false);
                }
                depths[claim.at as usize] = Some(claim.depth);
                let after = claim.depth - needs as u16 + instr.gives() as u16;
                claim_successors(claims, instr, claim.at, after)?;
                Ok(true)
            }
        }
    }
}

// A function begins with an empty stack, and a handler with the code of its exception.
fn first_claims(alloc: Global, catches: &[Catch]) -> Result<Vec<Claim>, AllocError>
    ensures { IfOk result (λ v. v.items ≡ (record { at = 0; depth = 0 }) ∷ map (λ c. record { at = c.target; depth = 1 }) catches.now) }
{
    let mut claims = vec![in alloc; Claim { at: 0, depth: 0 }]?;
    for catch in catches {
        claims.push(Claim {
            at: catch.target,
            depth: 1,
        })?;
    }
    Ok(claims)
}

// Claims that the successors of the instruction at a place are reached with so many values.
fn claim_successors(
    claims: &mut Vec<Claim>,
    instr: Instr,
    at: u16,
    depth: u16,
) -> Result<(), AllocError>
    requires { at < CODE }
    ensures { OnOk result (claims.new.items ≡ claims.old.items ++ claims_after depth (successors instr at)) }
{
    let next = Claim { at: at + 1, depth };
    match instr.flow() {
        Flow::Leaves => {}
        Flow::Next => claims.push(next)?,
        Flow::Always(to) => claims.push(Claim { at: to, depth })?,
        Flow::Either(to) => {
            claims.push(Claim { at: to, depth })?;
            claims.push(next)?;
        }
    }
    Ok(())
}
