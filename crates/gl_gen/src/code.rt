ghost use Rattle.std.specs.Prelude.{◌≡◌, ◌++◌, ◌<◌, IfOk, OnOk};
ghost use Rattle.gl_gen.specs.Bank.{adding, for_each, for_others, main_code, next, opening, starting, transfer_code, waiting};

use gl_bytecode::Instr;
use std::alloc::{AllocError, Global};

/// How many accounts there are, and threads that move between them.
pub(crate) const ACCOUNTS: u16 = 8;

/// What each account has at first.
pub(crate) const OPENING: i64 = 1000;

// The account behind an account; behind the last comes the first.
fn next(account: u16) -> u16
    requires { account < ACCOUNTS }
    ensures { result ≡ next account }
{
    (account + 1) % ACCOUNTS
}

// Adds what gives each account its first value.
fn add_openings(code: &mut Vec<Instr>) -> Result<(), AllocError>
    ensures { OnOk result (code.new.items ≡ code.old.items ++ for_each opening) }
{
    for account in 0..ACCOUNTS {
        code.extend_from_slice(&[Instr::Load(0), Instr::Push(OPENING), Instr::Put(account)])?;
    }
    Ok(())
}

// Adds what starts the thread of each account.
fn add_starts(code: &mut Vec<Instr>) -> Result<(), AllocError>
    ensures { OnOk result (code.new.items ≡ code.old.items ++ for_each starting) }
{
    for account in 0..ACCOUNTS {
        let thread = account + 1;
        code.extend_from_slice(&[Instr::Load(0), Instr::Fork(thread), Instr::Store(thread)])?;
    }
    Ok(())
}

// Adds what waits for each of these threads.
fn add_waits(code: &mut Vec<Instr>) -> Result<(), AllocError>
    ensures { OnOk result (code.new.items ≡ code.old.items ++ for_each waiting) }
{
    for account in 0..ACCOUNTS {
        let thread = account + 1;
        code.extend_from_slice(&[Instr::Load(thread), Instr::Join])?;
    }
    Ok(())
}

// Adds what adds each account behind the first to the sum.
fn add_sums(code: &mut Vec<Instr>) -> Result<(), AllocError>
    ensures { OnOk result (code.new.items ≡ code.old.items ++ for_others adding) }
{
    for account in 1..ACCOUNTS {
        code.extend_from_slice(&[Instr::Load(0), Instr::Get(account), Instr::Add])?;
    }
    Ok(())
}

/// The code of main: it gives each account its first value, starts the threads, waits for them, and prints the sum of the accounts.
pub(crate) fn main_code(alloc: Global) -> Result<Vec<Instr>, AllocError>
    ensures { IfOk result (λ code. code.items ≡ main_code) }
{
    let mut code = Vec::new(alloc);
    code.extend_from_slice(&[Instr::New(0), Instr::Store(0)])?;
    add_openings(&mut code)?;
    add_starts(&mut code)?;
    add_waits(&mut code)?;
    code.extend_from_slice(&[Instr::Load(0), Instr::Get(0)])?;
    add_sums(&mut code)?;
    code.extend_from_slice(&[Instr::Print, Instr::Halt])?;
    Ok(code)
}

/// The code of an account's thread: so many times it moves 1 to the next account, each time in a transaction.
pub(crate) fn transfer_code(transfers: u32, account: u16) -> [Instr; 21]
    requires { account < ACCOUNTS }
    ensures { result ≡ transfer_code transfers account }
{
    let to = next(account);
    [
        Instr::Push(i64::from(transfers)),
        Instr::Store(1),
        Instr::Txbegin,
        Instr::Load(0),
        Instr::Load(0),
        Instr::Get(account),
        Instr::Push(1),
        Instr::Sub,
        Instr::Put(account),
        Instr::Load(0),
        Instr::Load(0),
        Instr::Get(to),
        Instr::Push(1),
        Instr::Add,
        Instr::Put(to),
        Instr::Commit,
        Instr::Inc(1, -1),
        Instr::Load(1),
        Instr::Jnz(2),
        Instr::Push(0),
        Instr::Ret,
    ]
}
