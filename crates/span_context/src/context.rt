ghost use Rattle.std.specs.Prelude.{◌≡◌, ℕ, ◌≤◌, ◌+◌, ◌<◌, ◌^◌, ◌++◌, List, length, take, drop};
ghost use Rattle.byteorder.specs.Endian.{little_bytes};
ghost use Rattle.span_context.specs.Context.{context_base, frame_end, text_base, text_limit, link_base, link_limit};
ghost use Rattle.span_context.specs.ContextField.{offset_of, bytes_of};

use crate::context_field::ContextField;
use byteorder::{ByteOrder, LittleEndian};
use std::marker::Model;

/// The address at which the context begins.
pub const CONTEXT: u64 = 0x1_0000_0000;

/// The address at which the stack ends.
pub const FRAME: u64 = 0x2_0000_0000;

/// The address at which the text begins.
pub const TEXT: u64 = 0x4_0000_0000;

/// The address at which the text of a link begins.
pub const LINK: u64 = 0x8_0000_0000;

/// How many bytes the stack has.
pub const STACK_BYTES: usize = 512;

/// How many bytes a text may have.
pub const TEXT_LIMIT: usize = 131_072;

/// How many bytes the text of a link may have.
pub const LINK_LIMIT: usize = 1_024;

/// The addresses and the limits are those that the meaning and `Fits` name.
pub fn regions()
    ensures context { CONTEXT ≡ context_base }
    ensures frame { FRAME ≡ frame_end }
    ensures text { TEXT ≡ text_base }
    ensures link { LINK ≡ link_base }
    ensures limit { TEXT_LIMIT ≡ text_limit }
    ensures link_limit { LINK_LIMIT ≡ link_limit }
{}

/// What a program may learn of a span beside its text and the text of its link.
#[derive(Clone, Copy)]
pub struct Facts {
    /// In bytes.
    pub text_len: u32,
    pub characters: u32,
    /// The sum of 1 for strong, 2 for em, 4 for a link, 8 for a color, 16 for at least one comment, 32 for code.
    pub flags: u32,
    /// 0 where there is none.
    pub color: u32,
    /// In bytes, 0 where there is no link.
    pub link_len: u32,
    pub comments: u32,
    /// The span's index among those of its version, from 0.
    pub index: u32,
    /// How many spans the version has.
    pub count: u32,
    pub version: u64,
}

/// The 72 bytes that a program reads of a span.
#[derive(Drop)]
pub struct Context {
    bytes: [u8; 72],
}

impl Model for Context {
    ghost Value = { List ℕ };

    ghost view = { λ c. c.bytes };
}

/// The address behind the last byte of the text.
fn text_end(facts: &Facts) -> u64
    ensures { result ≡ text_base + facts.now.text_len }
{
    TEXT + u64::from(facts.text_len)
}

/// The address behind the last byte of the link's text.
fn link_end(facts: &Facts) -> u64
    ensures { result ≡ link_base + facts.now.link_len }
{
    LINK + u64::from(facts.link_len)
}

/// Writes a field of 4 bytes.
fn put_word(bytes: &mut [u8; 72], field: ContextField, value: u32)
    requires { bytes_of field ≡ 4 }
    ensures { bytes.new ≡ take (offset_of field) bytes.old ++ little_bytes 4 value
        ++ drop (offset_of field + 4) bytes.old }
{
    let start = field.offset() as usize;
    LittleEndian::write_u32(&mut bytes[start..start + 4], value);
}

/// Writes a field of 8 bytes.
fn put_double(bytes: &mut [u8; 72], field: ContextField, value: u64)
    requires { bytes_of field ≡ 8 }
    ensures { bytes.new ≡ take (offset_of field) bytes.old ++ little_bytes 8 value
        ++ drop (offset_of field + 8) bytes.old }
{
    let start = field.offset() as usize;
    LittleEndian::write_u64(&mut bytes[start..start + 8], value);
}

impl Context {
    ghost use Rattle.span_context.specs.Context.{context_bytes, span_bytes, Fits};

    /// The context of a span with those facts; it fits each text and each link's text of those lengths.
    #[tactic(auto, using(crate::proofs::ContextFits::fitting))]
    pub fn new(facts: &Facts) -> Self
        requires text_short { facts.now.text_len ≤ 131072 }
        requires link_short { facts.now.link_len ≤ 1024 }
        ensures value { result ≡ context_bytes facts.now }
        ensures fits { (text link : List ℕ) → length text ≡ facts.now.text_len → length link ≡ facts.now.link_len
            → Fits (span_bytes result text link) }
    {
        let mut bytes = [0; 72];
        put_double(&mut bytes, ContextField::Text, TEXT);
        put_double(&mut bytes, ContextField::End, text_end(facts));
        put_word(&mut bytes, ContextField::Length, facts.text_len);
        put_word(&mut bytes, ContextField::Characters, facts.characters);
        put_word(&mut bytes, ContextField::Flags, facts.flags);
        put_word(&mut bytes, ContextField::Color, facts.color);
        put_word(&mut bytes, ContextField::LinkLength, facts.link_len);
        put_word(&mut bytes, ContextField::Comments, facts.comments);
        put_word(&mut bytes, ContextField::Index, facts.index);
        put_word(&mut bytes, ContextField::Count, facts.count);
        put_double(&mut bytes, ContextField::Version, facts.version);
        put_double(&mut bytes, ContextField::Link, LINK);
        put_double(&mut bytes, ContextField::LinkEnd, link_end(facts));
        Context { bytes }
    }

    /// The bytes, each number's lowest first.
    pub fn bytes(&self) -> &[u8]
        ensures value { result.now ≡ self.now }
        ensures long { length result.now ≡ 72 }
    {
        &self.bytes
    }
}
