ghost use Rattle.std.specs.Prelude.{◌≡◌, ℕ, ◌+◌, ◌<◌, ◌≤◌, ◌^◌, ◌++◌, length, map, take, drop, replicate, Some, None};
ghost use Rattle.std.specs.Prelude.{IfSome, IfOk, OnOk, IfErr, Ok, Err};
ghost use Rattle.byteorder.specs.Endian.{little_bytes, little_number};
ghost use Rattle.interpreter.specs.Running.{Memory as MemoryValue};
ghost use Rattle.span_context.specs.Context.{span_bytes};
ghost use Rattle.semantics.specs.Memory.{load as load_of, store as store_of, bytes_in, lies_in, stack_number, stored};

use alu::bytes::{STACK, number};
use semantics::FaultKind;
use semantics::sizes::count;
use span_context::context::{CONTEXT, LINK, STACK_BYTES, TEXT};
use span_context::size::Size;
use std::marker::Model;

pub fn is_in(base: u64, long: usize, address: u64, count: usize) -> bool
    requires few { base + long < 2 ^ 63 }
    requires short { count ≤ 8 }
    ensures { result ≡ lies_in base long address count }
{
    let end = base + long as u64;
    address >= base && address <= end && end - address >= count as u64
}

#[tactic(auto, using(crate::proofs::Joined::joins))]
fn number_on_stack(stack: &[Option<u8>; STACK_BYTES], offset: usize, count: usize) -> Option<u64>
    requires short { count ≤ 8 }
    requires within { offset + count ≤ 512 }
    ensures value { result ≡ stack_number stack.now offset count }
    ensures small { IfSome result (λ number. number < 256 ^ count) }
{
    if count == 0 {
        return Some(0);
    }
    let high = number_on_stack(stack, offset + 1, count - 1)?;
    match &stack[offset] {
        Some(low) => Some(u64::from(*low) + 256 * high),
        None => None,
    }
}

/// A number's bytes, the lowest first, all of them set.
fn set_bytes(value: u64) -> [Option<u8>; 8]
    ensures { result ≡ map Some (little_bytes 8 value) }
{
    let bytes = value.to_le_bytes();
    [
        Some(bytes[0]),
        Some(bytes[1]),
        Some(bytes[2]),
        Some(bytes[3]),
        Some(bytes[4]),
        Some(bytes[5]),
        Some(bytes[6]),
        Some(bytes[7]),
    ]
}

/// Writes as many of a number's low bytes as the size says, the lowest first.
fn store_on_stack(stack: &mut [Option<u8>; STACK_BYTES], offset: usize, size: Size, value: u64)
    requires { offset + bytes_in size ≤ 512 }
    ensures { stack.new ≡ stored stack.old offset (bytes_in size) value }
{
    let count = count(size);
    let bytes = set_bytes(value);
    stack[offset..offset + count].copy_from_slice(&bytes[..count]);
}

/// What addresses lead to: the context, the text and the link's text of a span, and the run's stack.
#[derive(Drop)]
pub struct Memory<'a> {
    context: &'a [u8],
    text: &'a [u8],
    link: &'a [u8],
    stack: [Option<u8>; STACK_BYTES],
}

impl<'a> Model for Memory<'a> {
    ghost Value = { MemoryValue };

    ghost view = { λ m. record { bytes = span_bytes m.context.now m.text.now m.link.now; stack = m.stack } };

    ghost invariant = { λ m. (length m.context.now < 2 ^ 32) × (length m.text.now < 2 ^ 32)
        × (length m.link.now < 2 ^ 32) };
}

impl<'a> Memory<'a> {
    /// The memory of a run that begins: no byte of the stack is set.
    pub fn new(context: &'a [u8], text: &'a [u8], link: &'a [u8]) -> Self
        requires context_short { length context.now < 2 ^ 32 }
        requires text_short { length text.now < 2 ^ 32 }
        requires link_short { length link.now < 2 ^ 32 }
        ensures bytes { result.bytes ≡ span_bytes context.now text.now link.now }
        ensures unset { result.stack ≡ replicate 512 None }
    {
        Memory {
            context,
            text,
            link,
            stack: [None; STACK_BYTES],
        }
    }

    /// The number in the bytes at an address.
    pub fn load(&self, address: u64, size: Size) -> Result<u64, FaultKind>
        ensures value { result ≡ load_of self.now.bytes self.now.stack address (bytes_in size) }
        ensures small { IfOk result (λ number. number < 256 ^ bytes_in size) }
    {
        let count = count(size);
        if is_in(CONTEXT, self.context.len(), address, count) {
            Ok(number(self.context, (address - CONTEXT) as usize, size))
        } else if is_in(TEXT, self.text.len(), address, count) {
            Ok(number(self.text, (address - TEXT) as usize, size))
        } else if is_in(LINK, self.link.len(), address, count) {
            Ok(number(self.link, (address - LINK) as usize, size))
        } else if is_in(STACK, STACK_BYTES, address, count) {
            number_on_stack(&self.stack, (address - STACK) as usize, count).ok_or(
                FaultKind::UnsetStack,
            )
        } else {
            Err(FaultKind::BadAddress)
        }
    }

    /// Writes a number's low bytes at an address.
    pub fn store(&mut self, address: u64, size: Size, value: u64) -> Result<(), FaultKind>
        ensures ok { OnOk result (store_of self.old.bytes self.old.stack address (bytes_in size) value
            ≡ Ok self.new.stack) }
        ensures err { IfErr result (λ kind. store_of self.old.bytes self.old.stack address (bytes_in size) value
            ≡ Err kind) }
        ensures bytes { self.new.bytes ≡ self.old.bytes }
    {
        let count = count(size);
        if is_in(STACK, STACK_BYTES, address, count) {
            store_on_stack(&mut self.stack, (address - STACK) as usize, size, value);
            Ok(())
        } else if is_in(CONTEXT, self.context.len(), address, count)
            || is_in(TEXT, self.text.len(), address, count)
            || is_in(LINK, self.link.len(), address, count)
        {
            Err(FaultKind::ReadOnly)
        } else {
            Err(FaultKind::BadAddress)
        }
    }
}
