ghost use Rattle.std.specs.Prelude.{◌≡◌, ℕ, ◌+◌, ◌<◌, ◌≤◌, List, [], ◌++◌, length, vec_capacity, take, drop, Option, None, Some, IsOk, IfOk, OnOk, OnErr};
ghost use Rattle.m17_io.specs.Faults.{HasCause};
ghost use Rattle.m17_io.specs.Sink.{AppendsPrefix};
ghost use Rattle.m17_io.specs.Outlet.{followed_by};

use crate::BUFFER_BYTES;
use crate::send_all::send_all;
use m17_io::{Outlet, Sink};
use m17_values::{Failed, NoMemory};
use std::alloc::Global;
use std::marker::Model;

/// A sink that gathers what is written, and sends it on by the outlet below where its buffer is full, or at a `flush`.
#[derive(Drop)]
pub struct BufferedSink<O: Outlet + Drop> {
    outlet: O,
    buffer: Vec<u8>,
}

impl<O: Outlet + Drop> Model for BufferedSink<O> {
    ghost use Rattle.std.specs.Prelude.{◌≤◌, length, vec_capacity};
    ghost use Rattle.m17_streams.specs.Buffered.{Buffered};

    ghost Value = { Buffered O };

    ghost view = { λ s. record { held = s.buffer.items; device = s.outlet } };

    ghost invariant = { λ s. (length s.buffer.items ≤ 65536) × (65536 ≤ vec_capacity s.buffer) };
}

impl<O: Outlet + Drop> BufferedSink<O> {
    ghost use Rattle.m17_streams.specs.Buffered.{Buffered};

    /// A sink over `outlet` that holds nothing. `NoMemory` where there is none for its buffer of `BUFFER_BYTES` bytes.
    pub fn make(alloc: Global, outlet: O) -> Result<BufferedSink<O>, NoMemory>
        ensures { IfOk result (λ made. made ≡ record { held = []; device = outlet }) }
    {
        let buffer = Vec::with_capacity(alloc, BUFFER_BYTES)?;
        Ok(BufferedSink { outlet, buffer })
    }

    /// The outlet below.
    pub fn outlet(&self) -> &O
        ensures { result.now ≡ self.now.device }
    {
        &self.outlet
    }
}

impl<O: Outlet + Drop> Sink for BufferedSink<O> {
    ghost told = { λ b. record {
      written = followed_by (O.told b.device).sent b.held;
      held_back = length b.held;
      faults = (O.told b.device).faults;
    } };

    ghost faults_fit = { λ b. O.faults_fit b.device };

    fn write(&mut self, bytes: &[u8]) -> Result<(), Failed>
        ensures cause { HasCause (O.told self.old.device).faults (O.told self.new.device).faults result }
        ensures ok { OnOk result ((before : List ℕ)
            → followed_by (O.told self.old.device).sent self.old.held ≡ Some before
            → followed_by (O.told self.new.device).sent self.new.held ≡ Some (before ++ bytes.now)) }
        ensures err { OnErr result ((before : List ℕ)
            → followed_by (O.told self.old.device).sent self.old.held ≡ Some before
            → AppendsPrefix before bytes.now (followed_by (O.told self.new.device).sent self.new.held)) }

        // What there is room for is held, and the outlet below is asked to send nothing.
        ensures gathers { length self.old.held + length bytes.now ≤ 65536
            → IsOk result × (self.new.device ≡ self.old.device) }
    {
        if bytes.len() > BUFFER_BYTES - self.buffer.len() {
            self.flush()?;
        }
        if bytes.len() > BUFFER_BYTES {
            if send_all(&mut self.outlet, bytes) < bytes.len() {
                return Err(Failed);
            }
            return Ok(());
        }
        match self.buffer.extend_from_slice(bytes) {
            Ok(()) => Ok(()),
            Err(_) => Err(Failed),
        }
    }

    fn flush(&mut self) -> Result<(), Failed> {
        let sent = send_all(&mut self.outlet, &self.buffer);
        if sent < self.buffer.len() {
            drop_front(&mut self.buffer, sent);
            return Err(Failed);
        }
        self.buffer.clear();
        Ok(())
    }
}

// Takes `count` bytes away from the front.
fn drop_front(bytes: &mut Vec<u8>, count: usize)
    requires { count ≤ length bytes.old.items }
    ensures items { bytes.new.items ≡ drop count bytes.old.items }
    ensures capacity { vec_capacity bytes.new ≡ vec_capacity bytes.old }
{
    let rest = bytes.len() - count;
    bytes.copy_within(count.., 0);
    bytes.truncate(rest);
}
