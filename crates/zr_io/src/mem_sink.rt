ghost use Rattle.std.specs.Prelude.{◌≡◌, ◌≢◌, ◌<◌, ◌≤◌, ◌⊎◌, [], Ok, Err, Some, IfOk, OnErr, length, take};
ghost use Rattle.zr_io.specs.Faults.{next_count};
ghost use Rattle.zr_io.specs.Memory.{IsListed, Starts, CountsCall, bytes_of, sink_calls, sink_faults};
ghost use Rattle.zr_io.specs.Written.{Appends, AppendsPrefix};

use crate::calls::Calls;
use crate::sink::{Sink, SinkError};
use std::alloc::Global;

/// A sink in memory, which tells what was written. For tests, chosen calls fail.
#[derive(Drop)]
pub struct MemSink {
    bytes: Vec<u8>,
    calls: Calls,
}

impl MemSink {
    /// An empty sink. The calls of `put`, numbered from 0, whose numbers stand in `fails` fail.
    pub fn new(alloc: Global, fails: Vec<u64>) -> MemSink
        ensures written { ⟦<MemSink as Sink>⟧.written result ≡ Some [] }
        ensures faults { ⟦<MemSink as Sink>⟧.faults_of result ≡ 0 }
        ensures fails { Starts (sink_calls result) fails.items }
    {
        MemSink {
            bytes: Vec::new(alloc),
            calls: Calls::new(fails),
        }
    }

    /// All that was written so far.
    pub fn bytes(&self) -> &[u8]
        ensures { ⟦<MemSink as Sink>⟧.written self.now ≡ Some result.now }
    {
        self.bytes.as_slice()
    }
}

impl Sink for MemSink {
    ghost written = { λ sink. Some (bytes_of sink) };

    ghost faults_of = { sink_faults };

    /// Writes the whole piece; after an error nothing was written.
    fn put(&mut self, bytes: &[u8]) -> Result<usize, SinkError>
        ensures within { IfOk result (λ n. n ≤ length bytes.now) }
        ensures some { IfOk result (λ n. 0 < length bytes.now → 0 < n) }
        ensures ok { IfOk result (λ n. Appends (Some (bytes_of self.old)) (take n bytes.now) (Some (bytes_of self.new))) }
        ensures err { OnErr result (AppendsPrefix (Some (bytes_of self.old)) bytes.now (Some (bytes_of self.new))) }
        ensures failed { result ≡ Err SinkError.Failed
            → sink_faults self.new ≡ next_count (sink_faults self.old) }
        ensures grows { sink_faults self.old ≤ sink_faults self.new }

        // When each answer comes, and what it counts.
        ensures all { IfOk result (λ n. n ≡ length bytes.now) }
        ensures nothing { OnErr result (bytes_of self.new ≡ bytes_of self.old) }
        ensures listed { IsListed (sink_calls self.old) → result ≡ Err SinkError.Failed }
        ensures others { ¬ IsListed (sink_calls self.old)
            → (result ≡ Ok (length bytes.now)) ⊎ (result ≡ Err SinkError.NoMemory) }
        ensures quiet { result ≢ Err SinkError.Failed → sink_faults self.new ≡ sink_faults self.old }
        ensures calls { CountsCall (sink_calls self.old) (sink_calls self.new) }
    {
        if self.calls.begin() {
            return Err(SinkError::Failed);
        }
        match self.bytes.extend_from_slice(bytes) {
            Ok(()) => Ok(bytes.len()),
            Err(_) => Err(SinkError::NoMemory),
        }
    }

    fn faults(&self) -> u64 {
        self.calls.faults()
    }
}
