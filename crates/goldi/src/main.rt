// The program: the words of the command line, standard input and standard output.
#![tactic(auto)]

use gl_io::{ReaderSource, WriterSink};
use gl_run::goldi_without_trace;
use gl_shortcut::{Cuts, ShortCut, Sure, both_commits, same_thread, shared_monitor, two_threads};
use gl_threads::Open;
use std::alloc::AllocError;
use std::env::FillError;
use std::process::ExitCode;
use std::rt::Env;

// Room for a word of the command line. A longer one is no word of a command.
const WORD_BYTES: usize = 256;

// The words of the command line; none where one of them is no text, or longer than a word of a command. The program's name, which comes
// first, is not looked at. What they need of memory may be wanting.
fn words_given(rt: &(impl Env + AllocGlobal)) -> Result<Vec<String>, AllocError> {
    let mut words = Vec::new(rt.alloc());
    words.push(String::new(rt.alloc()))?;
    for place in 1..usize::MAX {
        let mut bytes = [0u8; WORD_BYTES];
        match rt.arg(place, &mut bytes) {
            Ok(count) => match str::from_utf8(&bytes[..count]) {
                Ok(word) => words.push(String::from_str(rt.alloc(), word)?)?,
                Err(_) => return Ok(Vec::new(rt.alloc())),
            },
            Err(FillError::TooLong) => return Ok(Vec::new(rt.alloc())),
            Err(FillError::NotPresent) => return Ok(words),
        }
    }
    Ok(words)
}

fn main(rt: HostRuntime) -> ExitCode {
    let (Ok(cuts) | Err(cuts)) = Cuts::none().with(ShortCut::early(same_thread, Sure::SameThread));
    let (Ok(cuts) | Err(cuts)) = cuts.with(ShortCut::early(both_commits, Sure::BothCommits));
    let (Ok(cuts) | Err(cuts)) = cuts.with(ShortCut::early(shared_monitor, Sure::SharedMonitor));
    let (Ok(cuts) | Err(cuts)) = cuts.with(ShortCut::late(two_threads));
    match words_given(&rt) {
        Ok(words) => {
            let mut source = ReaderSource::new(rt.stdin());
            let mut sink = WriterSink::new(rt.stdout());
            let answer = goldi_without_trace(
                &rt,
                rt.alloc(),
                &words,
                &mut source,
                &mut sink,
                &cuts,
                &Open {},
            );
            ExitCode::from(answer.status)
        }
        Err(_) => ExitCode::from(5),
    }
}
