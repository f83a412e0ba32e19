// What a try of an ask is given: the run, one of its threads, and what the worker that runs the thread lends it.
use gl_bytecode::Program;
use gl_cache::WordCache;
use gl_rows::Window;
use gl_table::{Pass, Shared};
use gl_txn::Txn;
use gl_vm::Machine;
use std::alloc::Global;

/// What all threads of a run share: the table, the program, and how many instructions each thread has.
#[derive(Drop)]
pub struct Run<'a> {
    pub table: &'a Shared,
    pub program: &'a Program,
    pub steps: u32,
}

/// A thread over the table: its machine, its pass, its attempt and its private words.
#[derive(Drop)]
pub struct Thread {
    pub machine: Machine,
    pub pass: Pass,
    pub txn: Option<Txn>,
    pub words: WordCache,
}

/// What a worker lends the thread that it runs: its allocator, and room for the events of a walk.
#[derive(Drop)]
pub struct Lent {
    pub alloc: Global,
    pub window: Window,
}
