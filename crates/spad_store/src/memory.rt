//! The memory of the vector machine.

ghost use Rattle.std.specs.Prelude.{◌≡◌, ◌+◌, ◌<◌, ◌≤◌, ◌++◌, IfOk, length, replicate, take, drop, slice_index, slice_set};
ghost use Rattle.ven_base.specs.Limits.{memory_limit};

use std::alloc::{AllocError, Global};
use std::marker::Model;

/// The memory: bytes by their place from 0 on, none to 134,217,728 of them (docs/MACHINE.md, "Cells and memory"). It is
/// seen as the list of its bytes.
#[derive(Drop)]
pub struct MainMem {
    bytes: Vec<u8>,
}

impl Model for MainMem {
    ghost use Rattle.std.specs.Prelude.{ℕ, List, length, ◌≤◌};
    ghost use Rattle.ven_base.specs.Limits.{memory_limit};

    ghost Value = { List ℕ };

    ghost view = { λ memory. memory.bytes.items };

    ghost invariant = { λ memory. length memory.bytes.items ≤ memory_limit };
}

impl MainMem {
    /// A memory of so many bytes, all 0. Condition: `bytes` is at most 134,217,728. Err is want of memory.
    pub fn new(alloc: Global, bytes: u32) -> Result<MainMem, AllocError>
        requires { bytes ≤ memory_limit }
        ensures { IfOk result (λ memory. memory ≡ replicate bytes 0) }
    {
        let bytes = vec![in alloc; 0; bytes as usize]?;
        Ok(MainMem { bytes })
    }

    /// The number of bytes, at most 134,217,728.
    pub fn len(&self) -> u32
        ensures count { result ≡ length self.now }
        ensures few { result ≤ memory_limit }
    {
        self.bytes.len() as u32
    }

    /// The byte at a place. Condition: `at` is below `len`.
    pub fn byte(&self, at: u32) -> u8
        requires { at < length self.now }
        ensures { result ≡ slice_index self.now at }
    {
        self.bytes[at as usize]
    }

    /// Puts a byte at a place, and changes no other. Condition: `at` is below `len`.
    pub fn put(&mut self, at: u32, byte: u8)
        requires { at < length self.old }
        ensures { self.new ≡ slice_set self.old at byte }
    {
        self.bytes[at as usize] = byte;
    }

    /// Reads the bytes from `at` on, as many as `out` takes. Condition: they lie in the memory.
    pub fn get_bytes(&self, at: u32, out: &mut [u8])
        requires { at + length out.old ≤ length self.now }
        ensures { out.new ≡ take (length out.old) (drop at self.now) }
    {
        let at = at as usize;
        out.copy_from_slice(&self.bytes[at..at + out.len()]);
    }

    /// The bytes from `at` on, so many, as they stand. Condition: they lie in the memory.
    pub fn part(&self, at: u32, count: u32) -> &[u8]
        requires { at + count ≤ length self.now }
        ensures { result.now ≡ take count (drop at self.now) }
    {
        let at = at as usize;
        &self.bytes[at..at + count as usize]
    }

    /// Puts bytes at the places from `at` on, and changes no other. Condition: they lie in the memory.
    pub fn put_bytes(&mut self, at: u32, bytes: &[u8])
        requires { at + length bytes.now ≤ length self.old }
        ensures bytes { self.new ≡ take at self.old ++ (bytes.now ++ drop (at + length bytes.now) self.old) }
        ensures same_length { length self.new ≡ length self.old }
    {
        let at = at as usize;
        self.bytes[at..at + bytes.len()].copy_from_slice(bytes);
    }
}
