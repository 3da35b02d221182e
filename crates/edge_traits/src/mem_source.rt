//! A source in memory, which fails at planned reads.
ghost use Rattle.std.specs.Prelude.{◌≡◌, ◌≤◌, ◌<◌, ◌↔◌, ◌++◌, [], All, Contains, Some, length, take, drop, min, IfOk, OnOk, OnErr, IsErrOf};
ghost use Rattle.edge_traits.specs.Faults.{counted_once_more, CountsFailed};
ghost use Rattle.edge_traits.specs.Reads.{max_read_len};

use crate::copy::copy_front;
use crate::fault_plan::FaultPlan;
use crate::{EdgeFault, Source};
use std::alloc::Global;

/// A source in memory. It is observable.
#[derive(Drop)]
pub struct MemSource {
    bytes: Vec<u8>,
    at: usize,
    sizes: Vec<u32>,
    read_count: usize,
    plan: FaultPlan,
    ghost in_bytes: { at ≤ length bytes.items },
    ghost in_sizes: { read_count ≤ length sizes.items },
    ghost positive: { All (λ size. 1 ≤ size) sizes.items },
}

impl MemSource {
    ghost use Rattle.edge_traits.specs.MemSource.{left_of, sizes_of, failing_reads, read_calls, read_faults, IsFaultlessSource};

    /// A source of these bytes. The k-th successful read takes at most as many bytes as the k-th
    /// size says; once the sizes are used up, a read takes as many as fit. The reads whose numbers,
    /// counted from 0, are in `failing` return `Failed`, and no other read is refused.
    pub fn new(_alloc: Global, bytes: Vec<u8>, sizes: Vec<u32>, failing: Vec<u32>) -> Self
        requires { All (λ size. 1 ≤ size) sizes.items }

        ensures left { left_of result ≡ bytes.items }
        ensures sizes { sizes_of result ≡ sizes.items }

        ensures failing { failing_reads result ≡ failing.items }
        ensures calls { read_calls result ≡ 0 }
        ensures faults { read_faults result ≡ 0 }
        ensures faultless { failing.items ≡ [] → IsFaultlessSource result }
    {
        MemSource {
            bytes,
            at: 0,
            sizes,
            read_count: 0,
            plan: FaultPlan::new(failing),
        }
    }
}

impl Source for MemSource {
    ghost use Rattle.edge_traits.specs.MemSource.{left_of, sizes_of, failing_reads, read_calls, read_faults, IsFaultlessSource};

    ghost left = { λ source. Some (left_of source) };

    ghost faults = { read_faults };

    ghost faultless = { IsFaultlessSource };

    fn read(&mut self, into: &mut [u8]) -> Result<usize, EdgeFault>
        ensures bound { IfOk result (λ k. k ≤ length into.new) }
        ensures given { IfOk result (λ k. left_of self.old ≡ take k into.new ++ left_of self.new) }
        ensures at_end { result ≡ Ok 0 → 0 < length into.new → left_of self.old ≡ [] }
        ensures unchanged { OnErr result (left_of self.new ≡ left_of self.old) }

        // Each read takes as many bytes as there are, as fit, and as its size allows.
        ensures count { IfOk result (λ k.
            k ≡ min (length (left_of self.old)) (max_read_len (sizes_of self.old) (length into.new))) }
        ensures used_size { OnOk result (sizes_of self.new ≡ drop 1 (sizes_of self.old)) }
        ensures kept_size { OnErr result (sizes_of self.new ≡ sizes_of self.old) }

        // Exactly the planned calls fail, and nothing else is refused.
        ensures fails { IsErrOf result EdgeFault.Failed ↔
            Contains (failing_reads self.old) (read_calls self.old) }
        ensures only_error { OnErr result (IsErrOf result EdgeFault.Failed) }
        ensures faults { CountsFailed result (read_faults self.old) (read_faults self.new) }
        ensures calls { read_calls self.new ≡ counted_once_more (read_calls self.old) }
        ensures failing { failing_reads self.new ≡ failing_reads self.old }
        ensures stays_faultless { IsFaultlessSource self.old → IsFaultlessSource self.new }
    {
        if self.plan.count_call() {
            return Err(EdgeFault::Failed);
        }
        let room = count_read(&self.sizes, &mut self.read_count, into.len());
        let count = copy_front(&self.bytes[self.at..], into, room);
        self.at += count;
        Ok(count)
    }
}

/// Counts a read, and returns how many bytes it takes at most.
fn count_read(sizes: &[u32], read_count: &mut usize, room: usize) -> usize
    requires in_sizes { read_count.old ≤ length sizes.now }
    requires positive { All (λ size. 1 ≤ size) sizes.now }

    ensures most { result ≡ max_read_len (drop read_count.old sizes.now) room }
    ensures fits { result ≤ room }
    ensures not_empty { 0 < room → 0 < result }
    ensures used { drop read_count.new sizes.now ≡ drop 1 (drop read_count.old sizes.now) }
    ensures in_sizes { read_count.new ≤ length sizes.now }
{
    if *read_count == sizes.len() {
        return room;
    }
    let size = sizes[*read_count] as usize;
    *read_count += 1;
    size.min(room)
}
