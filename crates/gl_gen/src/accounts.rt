ghost use Rattle.std.specs.Prelude.{◌≡◌, ◌≤◌, ◌<◌, IfOk, IsTrue, OnOk, []};
ghost use Rattle.std.specs.List.{list_all};
ghost use Rattle.gl_asm.specs.Texts.{IsText};
ghost use Rattle.gl_bytecode.specs.Programs.{draft_of};
ghost use Rattle.gl_gen.specs.Bank.{bank_program, main_code, transfer_code};
ghost use Rattle.gl_gen.specs.BankText.{bank_text};
ghost use Rattle.gl_gen.specs.Drafts.{is_no_throw, with_function};

use crate::code::{ACCOUNTS, main_code, transfer_code};
use gl_bytecode::{Instr, Parts, ProgError, Program, validate};
use std::alloc::{AllocError, Global};

/// The most transfers of a thread.
pub const MOST_TRANSFERS: u32 = 10_000;

// The locals of main: the bank, and the number of each thread.
const MAIN_LOCALS: u8 = 9;

// The locals of an account's thread: the bank, and how many transfers are left.
const TRANSFER_LOCALS: u8 = 2;

// Adds a function of this code.
fn add_function(parts: &mut Parts, args: u8, locals: u8, code: &[Instr]) -> Result<(), AllocError>
    requires { IsTrue (list_all is_no_throw code.now) }
    ensures { OnOk result (parts.new ≡ with_function args locals code.now parts.old) }
{
    parts.function(args, locals)?;
    for instr in code {
        parts.instr(*instr)?;
    }
    Ok(())
}

// Adds main.
fn add_main(alloc: Global, parts: &mut Parts) -> Result<(), AllocError>
    ensures { OnOk result (parts.new ≡ with_function 0 MAIN_LOCALS main_code parts.old) }
{
    let code = main_code(alloc)?;
    add_function(parts, 0, MAIN_LOCALS, &code)
}

// Adds the function of an account's thread.
fn add_transfer(parts: &mut Parts, transfers: u32, account: u16) -> Result<(), AllocError>
    requires { account < ACCOUNTS }
    ensures { OnOk result (parts.new ≡ with_function 1 TRANSFER_LOCALS (transfer_code transfers account) parts.old) }
{
    let code = transfer_code(transfers, account);
    add_function(parts, 1, TRANSFER_LOCALS, &code)
}

// The parts of the bank.
fn parts_of(alloc: Global, transfers: u32) -> Result<Parts, AllocError>
    ensures { IfOk result (λ parts. parts ≡ draft_of (bank_program transfers)) }
{
    let mut parts = Parts::new(alloc);
    parts.class(ACCOUNTS, 0)?;
    parts.main_is(0);
    add_main(alloc, &mut parts)?;
    for account in 0..ACCOUNTS {
        add_transfer(&mut parts, transfers, account)?;
    }
    Ok(parts)
}

/// The bank: eight accounts of 1000, and a thread for each that moves 1 to the next account so many times, each time in a transaction.
/// Main waits for them and prints the sum. It is the program that its text says, with no inputs. The only error is want of memory: the
/// validator finds no fault.
pub fn bank(alloc: Global, transfers: u32) -> Result<Program, AllocError>
    requires least { 1 ≤ transfers }
    requires most { transfers ≤ MOST_TRANSFERS }
    ensures program { IfOk result (λ program. program ≡ bank_program transfers) }
    ensures text { IfOk result (λ program. IsText (bank_text transfers) program []) }
{
    let parts = parts_of(alloc, transfers)?;
    match validate(alloc, parts) {
        Ok(program) => Ok(program),
        Err(ProgError::Memory(error)) => Err(error),
        Err(ProgError::Fault(_)) => unreachable!(),
    }
}
