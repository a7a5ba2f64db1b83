//! The scratchpad of the vector machine.

ghost use Rattle.std.specs.Prelude.{◌≡◌, ◌+◌, ◌<◌, ◌≤◌, ◌^◌, false, IfOk, length, replicate, slice_set};
ghost use Rattle.spad_store.specs.Cells.{byte_at, flag_at, bytes_from, flags_from, with_bytes, with_flags, flags_of};
ghost use Rattle.ven_base.specs.Limits.{cell_limit};

use crate::flags;
use std::alloc::{AllocError, Global};
use std::marker::Model;

/// The scratchpad: cells by their place from 0 on, 1 to 1,048,576 of them, each a byte and the flag beside it
/// (docs/MACHINE.md, "Cells and memory"). It is seen as the list of its cells. The bytes stand in one vector and the
/// flags in words of 64 bits, so that a part of them is copied as a whole.
#[derive(Drop)]
pub struct Spad {
    bytes: Vec<u8>,
    flags: Vec<u64>,
}

impl Model for Spad {
    ghost use Rattle.std.specs.Prelude.{List};
    ghost use Rattle.ven_base.specs.Cell.{Cell};

    ghost Value = { List Cell };

    ghost use Rattle.spad_store.specs.Packed.{cells_of, IsPacked};

    ghost view = { cells_of };

    ghost invariant = { IsPacked };
}

impl Spad {
    /// A scratchpad of so many cells, whose bytes are 0 and whose flags are clear. Condition: `bytes`, the number of
    /// its cells, is from 1 to 1,048,576. Err is want of memory.
    pub fn new(alloc: Global, bytes: u32) -> Result<Spad, AllocError>
        requires some { 0 < bytes }
        requires few { bytes ≤ cell_limit }
        ensures { IfOk result (λ spad. spad ≡ replicate bytes (0, false)) }
    {
        let flags = vec![in alloc; 0; (bytes / 64 + 1) as usize]?;
        let bytes = vec![in alloc; 0; bytes as usize]?;
        Ok(Spad { bytes, flags })
    }

    /// The number of cells, 1 to 1,048,576.
    pub fn len(&self) -> u32
        ensures count { result ≡ length self.now }
        ensures some { 0 < result }
        ensures few { result ≤ cell_limit }
    {
        self.bytes.len() as u32
    }

    /// The byte of a cell. Condition: `at` is below `len`.
    pub fn byte(&self, at: u32) -> u8
        requires { at < length self.now }
        ensures { result ≡ byte_at self.now at }
    {
        let at = at as usize;
        self.bytes[at]
    }

    /// The flag of a cell. Condition: `at` is below `len`.
    pub fn flag(&self, at: u32) -> bool
        requires { at < length self.now }
        ensures { result ≡ flag_at self.now at }
    {
        flags::flag(&self.flags, at)
    }

    /// Puts a byte and a flag into a cell, and changes no other. Condition: `at` is below `len`.
    pub fn put(&mut self, at: u32, byte: u8, flag: bool)
        requires { at < length self.old }
        ensures { self.new ≡ slice_set self.old at (byte, flag) }
    {
        self.bytes[at as usize] = byte;
        flags::put_bits(&mut self.flags, at, 1, u64::from(flag));
    }

    /// Reads the bytes of the cells from `at` on, as many as `out` takes. Condition: they lie in the scratchpad.
    pub fn get_bytes(&self, at: u32, out: &mut [u8])
        requires { at + length out.old ≤ length self.now }
        ensures { out.new ≡ bytes_from self.now at (length out.old) }
    {
        let at = at as usize;
        out.copy_from_slice(&self.bytes[at..at + out.len()]);
    }

    /// The bytes of the cells from `at` on, so many, as they stand. Condition: they lie in the scratchpad.
    pub fn part(&self, at: u32, count: u32) -> &[u8]
        requires { at + count ≤ length self.now }
        ensures { result.now ≡ bytes_from self.now at count }
    {
        let at = at as usize;
        &self.bytes[at..at + count as usize]
    }

    /// Puts bytes into the cells from `at` on, whose flags are then clear, and changes no other. Condition: they lie in
    /// the scratchpad.
    pub fn put_bytes(&mut self, at: u32, bytes: &[u8])
        requires { at + length bytes.now ≤ length self.old }
        ensures cells { self.new ≡ with_bytes self.old at bytes.now }
        ensures same_length { length self.new ≡ length self.old }
    {
        let count = bytes.len();
        let from = at as usize;
        self.bytes[from..from + count].copy_from_slice(bytes);
        flags::fill(&mut self.flags, at, count as u32, false);
    }

    /// Gives so many cells from `at` on this flag; their bytes and all other cells stay. Condition: they lie in the
    /// scratchpad.
    pub fn set_flags(&mut self, at: u32, count: u32, flag: bool)
        requires { at + count ≤ length self.old }
        ensures cells { self.new ≡ with_flags self.old at (replicate count flag) }
        ensures same_length { length self.new ≡ length self.old }
    {
        flags::fill(&mut self.flags, at, count, flag);
    }

    /// The flags of up to 64 cells from `at` on as bits, that of the first cell lowest. Condition: they lie in the
    /// scratchpad.
    pub fn get_flags(&self, at: u32, count: u32) -> u64
        requires inside { at + count ≤ length self.now }
        requires few { count ≤ 64 }
        ensures below { result < 2 ^ count }
        ensures flags { flags_of count result ≡ flags_from self.now at count }
    {
        flags::bits(&self.flags, at, count)
    }

    /// Gives up to 64 cells from `at` on the flags of these bits, the first cell that of the lowest; their bytes and
    /// all other cells stay. Condition: they lie in the scratchpad.
    pub fn put_flags(&mut self, at: u32, count: u32, bits: u64)
        requires inside { at + count ≤ length self.old }
        requires few { count ≤ 64 }
        ensures cells { self.new ≡ with_flags self.old at (flags_of count bits) }
        ensures same_length { length self.new ≡ length self.old }
    {
        flags::put_bits(&mut self.flags, at, count, bits);
    }
}
