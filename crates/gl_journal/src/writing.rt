// The text of a record.
ghost use Rattle.std.specs.Prelude.{◌≡◌, ◌++◌, OnOk, IfOk, string_bytes, map};
ghost use Rattle.std.specs.List.{AllByRecursion, flat_map};
ghost use Rattle.gl_journal.specs.Meaning.{IsRecordText};
ghost use Rattle.gl_journal.specs.Written.{AllEntries, IsActTyped, IsEndingTyped, IsEntryTyped, IsStamped, IsTxTyped, IsValue, IsWhyTyped, NamesFew};
ghost use Rattle.gl_model.specs.Entries.{seen, Sync as SyncEntry};
ghost use Rattle.gl_journal.specs.Rows.{list_word, look_word, pair_word, number_word, tx_words, over_row, abort_row, entry_row, thread_row, row_text, record_text};

use crate::sync_kinds::{kind_of, number_of};
use gl_model::{
    Act, Ending, Entry, Look, Looks, Number, Numbers, Pair, Pairs, Record, THREADS, TX_VARIABLES,
    Tx, Why,
};
use std::alloc::{AllocError, Global};

const MOST_PARTS: usize = TX_VARIABLES as usize;

// Adds a look.
fn push_look(out: &mut String, look: Look) -> Result<(), AllocError>
    ensures text { OnOk result (string_bytes out.new ≡ string_bytes out.old ++ look_word look) }
    ensures typed { IsValue look.value }
{
    let Look { var, value, nth } = look;
    write!(out, "{var}:{value}:{nth}")
}

// Adds a write.
fn push_pair(out: &mut String, pair: Pair) -> Result<(), AllocError>
    ensures text { OnOk result (string_bytes out.new ≡ string_bytes out.old ++ pair_word pair) }
    ensures typed { IsValue pair.value }
{
    let Pair { var, value } = pair;
    write!(out, "{var}:{value}")
}

// Adds a number.
fn push_number(out: &mut String, number: Number) -> Result<(), AllocError>
    ensures { OnOk result (string_bytes out.new ≡ string_bytes out.old ++ number_word number) }
{
    let Number { var, nth } = number;
    write!(out, "{var}:{nth}")
}

// Adds the list of the looks.
fn push_looks(out: &mut String, looks: &Looks) -> Result<(), AllocError>
    ensures text { OnOk result (string_bytes out.new ≡ string_bytes out.old ++ list_word (map look_word looks.now)) }
    ensures typed { OnOk result (AllByRecursion (λ l. IsValue l.value) looks.now) }
{
    looks.keeps();
    let Some(first) = looks.at(0) else {
        return write!(out, "-");
    };
    push_look(out, first)?;
    for i in 1..MOST_PARTS {
        let Some(look) = looks.at(i) else {
            return Ok(());
        };
        write!(out, ",")?;
        push_look(out, look)?;
    }
    Ok(())
}

// Adds the list of the writes.
fn push_pairs(out: &mut String, pairs: &Pairs) -> Result<(), AllocError>
    ensures text { OnOk result (string_bytes out.new ≡ string_bytes out.old ++ list_word (map pair_word pairs.now)) }
    ensures typed { OnOk result (AllByRecursion (λ w. IsValue w.value) pairs.now) }
{
    pairs.keeps();
    let Some(first) = pairs.at(0) else {
        return write!(out, "-");
    };
    push_pair(out, first)?;
    for i in 1..MOST_PARTS {
        let Some(pair) = pairs.at(i) else {
            return Ok(());
        };
        write!(out, ",")?;
        push_pair(out, pair)?;
    }
    Ok(())
}

// Adds the list of the numbers.
fn push_numbers(out: &mut String, numbers: &Numbers) -> Result<(), AllocError>
    ensures { OnOk result (string_bytes out.new ≡ string_bytes out.old ++ list_word (map number_word numbers.now)) }
{
    numbers.keeps();
    let Some(first) = numbers.at(0) else {
        return write!(out, "-");
    };
    push_number(out, first)?;
    for i in 1..MOST_PARTS {
        let Some(number) = numbers.at(i) else {
            return Ok(());
        };
        write!(out, ",")?;
        push_number(out, number)?;
    }
    Ok(())
}

// Adds the rest of a line: a transaction.
fn push_tx(out: &mut String, tx: &Tx) -> Result<(), AllocError>
    ensures text { OnOk result (string_bytes out.new ≡ string_bytes out.old ++ row_text (tx_words tx.now)) }
    ensures typed { OnOk result (IsTxTyped tx.now) }
{
    write!(out, "r ")?;
    push_looks(out, &tx.looks)?;
    write!(out, " w ")?;
    push_pairs(out, &tx.writes)?;
    write!(out, " n ")?;
    push_numbers(out, &tx.numbers)?;
    writeln!(out)
}

// Adds the line of a synchronization.
fn push_sync(out: &mut String, at: u64, act: Act, value: i64) -> Result<(), AllocError>
    ensures text { OnOk result (string_bytes out.new ≡ string_bytes out.old ++ row_text (entry_row (SyncEntry at act value))) }
    ensures act { IsActTyped act }
    ensures value { IsValue value }
{
    let kind = kind_of(act).word();
    let number = number_of(act);
    writeln!(out, "sync {at} {kind} {number} {value}")
}

// Adds the line of an attempt that was dropped.
fn push_abort(out: &mut String, tx: &Tx, why: Why) -> Result<(), AllocError>
    ensures text { OnOk result (string_bytes out.new ≡ string_bytes out.old ++ row_text (abort_row tx.now why)) }
    ensures tx { OnOk result (IsTxTyped tx.now) }
    ensures why { IsWhyTyped why }
{
    match why {
        Why::Changed { var, read, found } => write!(out, "abort changed {var} {read} {found} ")?,
        Why::Raised { var } => write!(out, "abort raised {var} ")?,
    }
    push_tx(out, tx)
}

// Adds the line of the end of a list.
fn push_over(out: &mut String, ending: Ending) -> Result<(), AllocError>
    ensures text { OnOk result (string_bytes out.new ≡ string_bytes out.old ++ row_text (over_row ending)) }
    ensures typed { IsEndingTyped ending }
{
    match ending {
        Ending::Halt => writeln!(out, "over halt"),
        Ending::Uncaught(code) => writeln!(out, "over uncaught {code}"),
        Ending::Spent => writeln!(out, "over spent"),
    }
}

// Tells a caller's proof that a value is one of 64 bits.
fn keeps_type(value: i64)
    ensures { IsValue value }
{
    let _ = value;
}

// Adds the line of an entry.
fn push_entry(out: &mut String, entry: &Entry) -> Result<(), AllocError>
    ensures text { OnOk result (string_bytes out.new ≡ string_bytes out.old ++ row_text (entry_row (seen entry.now))) }
    ensures typed { OnOk result (IsEntryTyped (seen entry.now)) }
{
    match entry {
        Entry::Sync { at, act, value } => push_sync(out, *at, *act, *value),
        Entry::Commit { at, tx } => {
            write!(out, "commit {at} ")?;
            push_tx(out, tx)
        }
        Entry::Plain {
            var,
            nth,
            cached,
            write,
            value,
            raised,
        } => {
            let verb = if *write { "wr" } else { "rd" };
            let owner = if *cached { "cached" } else { "own" };
            let verdict = if *raised { "race" } else { "ok" };
            keeps_type(*value);
            writeln!(out, "plain {var} {nth} {verb} {value} {owner} {verdict}")
        }
        Entry::Abort { tx, why } => push_abort(out, tx, *why),
        Entry::Trim { low } => writeln!(out, "trim {low}"),
        Entry::Over(ending) => push_over(out, *ending),
    }
}

// Adds the lines of a thread.
fn push_list(out: &mut String, thread: u8, entries: &[Entry]) -> Result<(), AllocError>
    ensures text { OnOk result (string_bytes out.new ≡ string_bytes out.old ++ (row_text (thread_row thread) ++ flat_map (λ e. row_text (entry_row (seen e))) entries.now)) }
    ensures typed { OnOk result (AllByRecursion IsEntryTyped (map seen entries.now)) }
{
    writeln!(out, "thread {thread}")?;
    for entry in entries {
        push_entry(out, entry)?;
    }
    Ok(())
}

/// The text of a record and of the number of steps that its threads were given. Where a line can say its positions, numbers and low
/// marks, and each transaction names at most `TX_VARIABLES` variables, it means that record, and so is read back.
pub fn write_record(alloc: Global, steps: u32, record_of: &Record) -> Result<Vec<u8>, AllocError>
    ensures text { IfOk result (λ text. text.items ≡ record_text steps record_of.now) }
    ensures read { IsStamped steps record_of.now → AllEntries NamesFew record_of.now → IfOk result (λ text. IsRecordText text.items steps record_of.now) }
{
    let mut out = String::new(alloc);
    writeln!(out, "record 1 {steps}")?;
    record_of.keeps();
    for thread in 0..THREADS {
        if let Some(entries) = record_of.thread(thread) {
            push_list(&mut out, thread, entries)?;
        }
    }
    writeln!(out, "done")?;
    Ok(out.into_bytes())
}
