// A line in the words of the trace language.
use gl_model::{Act, Item};
use std::io;

fn print_act(rt: &impl Print, thread: u8, act: Act) -> io::Result<()> {
    match act {
        Act::Acq(monitor) => println!(rt; "{thread} acq {monitor}"),
        Act::Rel(monitor) => println!(rt; "{thread} rel {monitor}"),
        Act::VRead(volatile) => println!(rt; "{thread} vr {volatile}"),
        Act::VWrite(volatile) => println!(rt; "{thread} vw {volatile}"),
        Act::Fork { child, .. } => println!(rt; "{thread} fork {child}"),
        Act::Join(other) => println!(rt; "{thread} join {other}"),
        _ => println!(rt; "{thread}"),
    }
}

pub fn print_line(rt: &impl Print, thread: u8, item: &Item) -> io::Result<()> {
    match item {
        Item::Act(act) => print_act(rt, thread, *act),
        Item::Access { var, write: false } => println!(rt; "{thread} rd {var}"),
        Item::Access { var, write: true } => println!(rt; "{thread} wr {var}"),
        Item::Commit { reads, writes } => {
            println!(rt; "{thread} commit r {:?} w {:?}", reads.ids(), writes.ids())
        }
    }
}
