// An attempt, its looks and its writes.
ghost use Rattle.std.specs.Prelude.{◌≡◌, ◌⊎◌, ◌<◌, true, IfOk, IfErr, OnOk, OnErr};
ghost use Rattle.gl_model.specs.declared.limits.TheConstants.{TX_VARIABLES, VARIABLES};
ghost use Rattle.gl_txn.specs.Attempts.{nothing, is_in, size, IsTooLarge, with_write};
ghost use Rattle.gl_txn.specs.Trying.{MayTry};
ghost use Rattle.gl_txn.specs.Reading.{IsRead, HasLooked, IsReadStop, IfTooLarge};
ghost use Rattle.gl_txn.specs.declared.stops.TxStop.TheVariants.{TooLarge};

use crate::looking::look_at;
use crate::stops::TxStop;
use crate::taken::TakenRow;
use gl_model::{Looks, Numbers, Pair, Pairs, Tx, VarSet};
use gl_table::{Pass, Shared};
use std::alloc::{AllocError, Global};
use std::marker::Model;

/// An attempt that runs. It has all the memory that it will need.
#[derive(Drop)]
pub struct Txn {
    pub(crate) tx: Box<Tx>,
    // The variables that it looked at, and all of them.
    pub(crate) looked: VarSet,
    pub(crate) all: VarSet,
    // Room for the rows that its end takes.
    pub(crate) rows: Vec<TakenRow>,
}

impl Model for Txn {
    ghost use Rattle.gl_txn.specs.Attempts.{Attempting};

    ghost Value = { Attempting };

    ghost use Rattle.gl_txn.specs.TxnInside.{txn_view, IsTxn};

    ghost view = { txn_view };

    ghost invariant = { IsTxn };
}

impl Txn {
    /// An attempt that has done nothing.
    pub fn begin(alloc: Global) -> Result<Txn, AllocError>
        ensures { IfOk result (λ t. t ≡ nothing) }
    {
        let tx = Box::new(
            alloc,
            Tx {
                looks: Looks::empty(),
                writes: Pairs::empty(),
                numbers: Numbers::empty(),
            },
        )?;
        Ok(Txn {
            tx,
            looked: VarSet::empty(),
            all: VarSet::empty(),
            rows: Vec::with_capacity(alloc, 16)?,
        })
    }

    /// Reads a variable inside the attempt: its own write, else the word that it looked at before, else the variable's word, which is a
    /// look. A look draws a number. TooLarge comes exactly where the variable is not in the attempt and that has no room for another,
    /// Busy only where this call read the row's turn as held by another pass.
    pub fn read(&mut self, shared: &Shared, pass: &mut Pass, var: u16) -> Result<i64, TxStop>
        requires may { MayTry shared.now pass.old self.old }
        requires there { var < VARIABLES }
        ensures done { IfOk result (λ v. IsRead var v self.old pass.old.own self.new pass.new.own) }
        ensures looked { IfOk result (λ v. HasLooked self.old var v pass.old pass.new) }
        ensures large { IfErr result (λ s. IfTooLarge s (IsTooLarge self.old var)) }
        ensures cause { IfErr result (λ s. IsReadStop s self.old var pass.old pass.new) }
        ensures stop { OnErr result (self.new ≡ self.old) }
        ensures kept { OnErr result (pass.new.own ≡ pass.old.own) }
    {
        if let Some(pair) = self.tx.writes.of(var) {
            return Ok(pair.value);
        }
        if let Some(look) = self.tx.looks.of(var) {
            return Ok(look.value);
        }
        self.all.keeps();
        let mut all = self.all;
        if all.insert(var).is_err() {
            return Err(TxStop::TooLarge);
        }
        let mut looked = self.looked;
        let Ok(()) = looked.insert(var) else {
            unreachable!()
        };
        let look = match look_at(shared, pass, var) {
            Ok(look) => look,
            Err(by) => return Err(TxStop::Busy { by }),
        };
        let Ok(()) = self.tx.looks.put(look) else {
            unreachable!()
        };
        self.all = all;
        self.looked = looked;
        Ok(look.value)
    }

    /// Writes a variable inside the attempt. It stops exactly where the variable is not in the attempt and that has no room for another.
    pub fn write(&mut self, var: u16, value: i64) -> Result<(), TxStop>
        requires there { var < VARIABLES }
        ensures done { OnOk result (self.new ≡ with_write var value self.old) }
        ensures room { OnOk result ((is_in self.old var ≡ true) ⊎ (size self.old < TX_VARIABLES)) }
        ensures large { IfErr result (λ s. (s ≡ TooLarge) × IsTooLarge self.old var) }
        ensures stop { OnErr result (self.new ≡ self.old) }
    {
        self.tx.writes.keeps();
        self.tx.looks.keeps();
        self.all.keeps();
        if self.all.insert(var).is_err() {
            return Err(TxStop::TooLarge);
        }
        self.all.keeps();
        let Ok(()) = self.tx.writes.put(Pair { var, value }) else {
            unreachable!()
        };
        Ok(())
    }
}
