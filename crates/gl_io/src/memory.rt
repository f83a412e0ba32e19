// A source and a sink in memory, which fail at the calls that they are told.
ghost use Rattle.std.specs.Prelude.{◌≡◌, ◌≤◌, ◌<◌, ◌↔◌, ◌⊎◌, ◌-◌, ◌+◌, ◌^◌, length, min, take, drop, ◌++◌, [], vec_len, vec_capacity, IsErr, IfOk, IfErr, Contains, Some};
ghost use Rattle.std.specs.Io.{ReadsAtMost};
ghost use Rattle.std.specs.Io.KnownBytes.{ReadConsumes, WriteAppends};
ghost use Rattle.gl_io.specs.Faults.{HasCause};
ghost use Rattle.gl_io.specs.Sink.{TakesSome};

use crate::{Failed, Sink, Source};
use std::alloc::{AllocError, Global};

// Copies the first bytes of `from` to the front of `into`.
fn copy_front(into: &mut [u8], from: &[u8], count: usize)
    requires there { count ≤ length from.now }
    requires room { count ≤ length into.old }
    ensures { into.new ≡ take count from.now ++ drop count into.old }
{
    into[..count].copy_from_slice(&from[..count]);
}

/// Bytes in memory. A call moves at most `most` of them, and fails where its number, from 1, is in `fails`.
#[derive(Drop)]
pub struct MemorySource {
    bytes: Vec<u8>,
    taken: usize,
    fails: Vec<u64>,
    most: usize,
    calls: u64,
    faults: u64,
    ghost within: { taken ≤ vec_len bytes },
    ghost moves: { 1 ≤ most },
}

impl MemorySource {
    ghost use Rattle.gl_io.specs.Memory.{source_left, source_fails, source_most, source_call};

    /// A source of these bytes, of which no call was made.
    pub fn new(bytes: Vec<u8>, fails: Vec<u64>, most: usize) -> Self
        requires { 1 ≤ most }
        ensures left { source_left result ≡ bytes.items }
        ensures fails { source_fails result ≡ fails.items }
        ensures most { source_most result ≡ most }
        ensures first { source_call result ≡ 1 }
    {
        MemorySource {
            bytes,
            taken: 0,
            fails,
            most,
            calls: 0,
            faults: 0,
        }
    }
}

impl Source for MemorySource {
    ghost use Rattle.gl_io.specs.Memory.{source_left, source_fails, source_most, source_call};

    ghost left = { λ s. Some (source_left s) };

    ghost faults = { λ s. s.faults };

    fn read(&mut self, buf: &mut [u8]) -> Result<usize, Failed>
        requires { 0 < length buf.old }
        ensures bound { ReadsAtMost result buf.new }
        ensures bytes { ReadConsumes (Some (source_left self.old)) (Some (source_left self.new)) result buf.new }
        ensures cause { HasCause self.old.faults self.new.faults result }
        ensures fails { IsErr result ↔ Contains (source_fails self.old) (source_call self.old) }
        ensures moved { IfOk result (λ n. n ≡ min (length buf.old) (min (source_most self.old) (length (source_left self.old)))) }
        ensures same { (source_fails self.new ≡ source_fails self.old) × (source_most self.new ≡ source_most self.old) }
        ensures next { source_call self.new ≡ min (source_call self.old + 1) (2 ^ 64 - 1) }
    {
        self.calls = self.calls.saturating_add(1);
        if self.fails.contains(&self.calls) {
            self.faults = self.faults.saturating_add(1);
            return Err(Failed);
        }
        let left = &self.bytes[self.taken..];
        let count = buf.len().min(self.most).min(left.len());
        copy_front(buf, left, count);
        self.taken += count;
        Ok(count)
    }
}

/// Room in memory. A call moves at most `most` bytes, and fails where its number, from 1, is in `fails`
/// or where the room is used up.
#[derive(Drop)]
pub struct MemorySink {
    bytes: Vec<u8>,
    room: usize,
    fails: Vec<u64>,
    most: usize,
    calls: u64,
    faults: u64,
    ghost within: { vec_len bytes ≤ room },
    ghost reserved: { room ≤ vec_capacity bytes },
    ghost moves: { 1 ≤ most },
}

impl MemorySink {
    ghost use Rattle.gl_io.specs.Memory.{sink_written, sink_fails, sink_most, sink_call, sink_room};

    /// An empty sink with room for `room` bytes, of which no call was made. Where memory is wanting it hands
    /// `fails` back.
    pub fn new(
        alloc: Global,
        room: usize,
        fails: Vec<u64>,
        most: usize,
    ) -> Result<Self, (Vec<u64>, AllocError)>
        requires { 1 ≤ most }
        ensures empty { IfOk result (λ k. sink_written k ≡ []) }
        ensures fails { IfOk result (λ k. sink_fails k ≡ fails.items) }
        ensures most { IfOk result (λ k. sink_most k ≡ most) }
        ensures room { IfOk result (λ k. sink_room k ≡ room) }
        ensures first { IfOk result (λ k. sink_call k ≡ 1) }
        ensures back { IfErr result (λ e. e.0.items ≡ fails.items) }
    {
        match Vec::with_capacity(alloc, room) {
            Ok(bytes) => Ok(MemorySink {
                bytes,
                room,
                fails,
                most,
                calls: 0,
                faults: 0,
            }),
            Err(refused) => Err((fails, refused)),
        }
    }

    /// The bytes that were written.
    pub fn written(&self) -> &[u8]
        ensures { result.now ≡ sink_written self.now }
    {
        &self.bytes
    }
}

impl Sink for MemorySink {
    ghost use Rattle.gl_io.specs.Memory.{sink_written, sink_fails, sink_most, sink_call, sink_room};

    ghost written = { λ k. Some (sink_written k) };

    ghost faults = { λ k. k.faults };

    fn write(&mut self, piece: &[u8]) -> Result<usize, Failed>
        requires { 0 < length piece.now }
        ensures some { TakesSome result piece.now }
        ensures bytes { WriteAppends (Some (sink_written self.old)) (Some (sink_written self.new)) result piece.now }
        ensures cause { HasCause self.old.faults self.new.faults result }
        ensures fails { IsErr result ↔ (Contains (sink_fails self.old) (sink_call self.old) ⊎ (length (sink_written self.old) ≡ sink_room self.old)) }
        ensures moved { IfOk result (λ n. n ≡ min (length piece.now) (min (sink_most self.old) (sink_room self.old - length (sink_written self.old)))) }
        ensures same { (sink_fails self.new ≡ sink_fails self.old) × (sink_most self.new ≡ sink_most self.old) × (sink_room self.new ≡ sink_room self.old) }
        ensures next { sink_call self.new ≡ min (sink_call self.old + 1) (2 ^ 64 - 1) }
    {
        self.calls = self.calls.saturating_add(1);
        let left = self.room - self.bytes.len();
        if self.fails.contains(&self.calls) || left == 0 {
            self.faults = self.faults.saturating_add(1);
            return Err(Failed);
        }
        let count = piece.len().min(self.most).min(left);
        self.bytes.extend_from_slice(&piece[..count]).unwrap();
        Ok(count)
    }
}
