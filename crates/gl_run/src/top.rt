// The top calls: words, input, output and status.
ghost use Rattle.std.specs.Prelude.{string_bytes, map};
ghost use Rattle.gl_run.specs.Command.{HasCauses, HasLeft, Serves};
ghost use Rattle.gl_run.specs.Finishing.{Finishes};
ghost use Rattle.gl_run.specs.Words.{command_of, run_command_of, text_command_of};

use crate::keep::Keep;
use crate::kept::Kept;
use crate::page::{Page, Stop};
use crate::reply::{reply, text_reply};
use crate::status::{NO_MEMORY, READ_FAILED, WRITE_FAILED};
use crate::words::{command_of, run_command_of, text_command_of};
use gl_io::{Failed, Sink, Source, write_all};
use gl_shortcut::Cuts;
use gl_threads::Gate;
use std::alloc::{AllocError, Global};
use std::sync::Wait;
use std::thread::Threads;

/// How the program ends.
#[derive(Drop)]
pub struct Answer {
    /// The exit status.
    pub status: u8,
    /// The record of an accepted trace, or the closed table of a run, also where a write failed.
    pub kept: Option<Kept>,
}

// Writes the whole page, where there is one.
fn finish<K: Sink>(sink: &mut K, reply: Result<Page, Stop>) -> Answer
    ensures { Finishes reply result (K.faults sink.old) (K.faults sink.new) (K.written sink.old) (K.written sink.new) }
{
    match reply {
        Ok(Page { status, text, kept }) => match write_all(sink, &text) {
            Ok(()) => Answer { status, kept },
            Err(Failed) => Answer {
                status: WRITE_FAILED,
                kept,
            },
        },
        Err(Stop::Read) => Answer {
            status: READ_FAILED,
            kept: None,
        },
        Err(Stop::Memory) => Answer {
            status: NO_MEMORY,
            kept: None,
        },
    }
}

/// Does what the words say where they name a command that reads a text and runs nothing; other words are none that it
/// knows. It waits for nobody, and so returns. All input is read before the first byte is written. The statuses are 1 where the
/// words are no such command, 2 where a read failed, 4 where the text is refused, 6 where an access is raised, 8 where the
/// record that is audited is not lawful, else 0; 3 where a write failed, and 5 where memory ran out. The short cuts change no answer.
#[tactic(auto, using(crate::proofs::Finished::causes_of, crate::proofs::Finished::written_of))]
pub fn goldi_text<S: Source, K: Sink>(
    alloc: Global,
    words: &[String],
    source: &mut S,
    sink: &mut K,
    cuts: &Cuts,
) -> Answer
    ensures causes { HasCauses (text_command_of (map string_bytes words.now)) (S.faults source.old) (S.faults source.new) (K.faults sink.old) (K.faults sink.new) result.status }
    ensures left { HasLeft (text_command_of (map string_bytes words.now)) (S.left source.old) (S.left source.new) result.status }
    ensures written { Serves Keep.Record (text_command_of (map string_bytes words.now)) (S.left source.old) result.status result.kept (K.written sink.old) (K.written sink.new) }
{
    let reply = text_reply(alloc, text_command_of(words), source, cuts, Keep::Record);
    finish(sink, reply)
}

/// Does what the words say where they name a command that runs a program, one that it reads or a bank; other words are none that it
/// knows. The statuses are those of `goldi_text`, and 7 where nothing is raised and some thread ended otherwise than by halting. A run
/// may wait for ever, and then nothing is answered. The gate is told of each step that a run tries, and changes no answer.
#[tactic(auto, using(crate::proofs::Finished::causes_of, crate::proofs::Finished::written_of))]
pub fn goldi_run<S: Source, K: Sink, G: Gate, R: Threads + Wait + Sync>(
    rt: &R,
    alloc: Global,
    words: &[String],
    source: &mut S,
    sink: &mut K,
    cuts: &Cuts,
    gate: &G,
) -> Answer
    ensures causes { HasCauses (run_command_of (map string_bytes words.now)) (S.faults source.old) (S.faults source.new) (K.faults sink.old) (K.faults sink.new) result.status }
    ensures left { HasLeft (run_command_of (map string_bytes words.now)) (S.left source.old) (S.left source.new) result.status }
    ensures written { Serves Keep.Record (run_command_of (map string_bytes words.now)) (S.left source.old) result.status result.kept (K.written sink.old) (K.written sink.new) }
{
    let asked = match run_command_of(alloc, words) {
        Ok(asked) => asked,
        Err(AllocError) => return finish(sink, Err(Stop::Memory)),
    };
    let reply = reply(rt, alloc, asked, source, cuts, gate, Keep::Record);
    finish(sink, reply)
}

/// Does what the words say: the top call, which serves all commands, with the statuses of `goldi_run`.
#[tactic(auto, using(crate::proofs::Finished::causes_of, crate::proofs::Finished::written_of))]
pub fn goldi<S: Source, K: Sink, G: Gate, R: Threads + Wait + Sync>(
    rt: &R,
    alloc: Global,
    words: &[String],
    source: &mut S,
    sink: &mut K,
    cuts: &Cuts,
    gate: &G,
) -> Answer
    ensures causes { HasCauses (command_of (map string_bytes words.now)) (S.faults source.old) (S.faults source.new) (K.faults sink.old) (K.faults sink.new) result.status }
    ensures left { HasLeft (command_of (map string_bytes words.now)) (S.left source.old) (S.left source.new) result.status }
    ensures written { Serves Keep.Record (command_of (map string_bytes words.now)) (S.left source.old) result.status result.kept (K.written sink.old) (K.written sink.new) }
{
    let asked = match command_of(alloc, words) {
        Ok(asked) => asked,
        Err(AllocError) => return finish(sink, Err(Stop::Memory)),
    };
    let reply = reply(rt, alloc, asked, source, cuts, gate, Keep::Record);
    finish(sink, reply)
}

/// Does what `goldi` does, for a caller that asks for no record of a trace: none is made. What is kept of a run is kept as ever.
#[tactic(auto, using(crate::proofs::Finished::causes_of, crate::proofs::Finished::written_of))]
pub fn goldi_without_trace<S: Source, K: Sink, G: Gate, R: Threads + Wait + Sync>(
    rt: &R,
    alloc: Global,
    words: &[String],
    source: &mut S,
    sink: &mut K,
    cuts: &Cuts,
    gate: &G,
) -> Answer
    ensures causes { HasCauses (command_of (map string_bytes words.now)) (S.faults source.old) (S.faults source.new) (K.faults sink.old) (K.faults sink.new) result.status }
    ensures left { HasLeft (command_of (map string_bytes words.now)) (S.left source.old) (S.left source.new) result.status }
    ensures written { Serves Keep.Nothing (command_of (map string_bytes words.now)) (S.left source.old) result.status result.kept (K.written sink.old) (K.written sink.new) }
{
    let asked = match command_of(alloc, words) {
        Ok(asked) => asked,
        Err(AllocError) => return finish(sink, Err(Stop::Memory)),
    };
    let reply = reply(rt, alloc, asked, source, cuts, gate, Keep::Nothing);
    finish(sink, reply)
}
