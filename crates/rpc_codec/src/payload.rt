//! Payloads: integers big endian in their width, one behind the other.

ghost use Rattle.std.specs.Prelude.{◌≡◌, ◌+◌, ◌≤◌, ◌<◌, ◌++◌, ◌^◌, ◌↔◌, ℤ, List, pos, true, IsTrue, length, if◌then◌else◌, drop};
ghost use Rattle.byteorder.specs.Endian.{big_bytes, big_number};
ghost use Rattle.cl_tree.specs.Arithmetic.{fits, residue, value};
ghost use Rattle.cl_mean.specs.Journal.{payload_bytes, payload_numbers};
ghost use Rattle.cl_mean.specs.LocalRun.{is_fitting};
ghost use Rattle.cl_mean.specs.Shape.{size_of, total_size};

use crate::frame::FrameBuf;
use crate::layout::Layout;
use crate::sizes::size_of;
use byteorder::{BigEndian, ByteOrder};
use cl_base::limits::FRAME_BYTES;
use cl_tree::arithmetic::convert;
use cl_tree::kinds::IntKind;

/// What is left of a number in the bits of a kind.
#[tactic(auto, unfolding(cl_tree::specs::Arithmetic::residue, cl_tree::specs::Arithmetic::width))]
fn residue(kind: IntKind, n: i128) -> u64
    ensures value { result ≡ residue kind n }
    ensures few { result < 256 ^ size_of kind }
{
    let modulus = match kind {
        IntKind::I8 | IntKind::U8 => 0x100,
        IntKind::I16 | IntKind::U16 => 0x1_0000,
        IntKind::I32 | IntKind::U32 => 0x1_0000_0000,
        IntKind::Long | IntKind::ULong | IntKind::LLong | IntKind::ULLong =>
            0x1_0000_0000_0000_0000,
    };
    n.rem_euclid(modulus) as u64
}

/// Puts the bytes of a number of a kind behind what is held.
fn put_number(kind: IntKind, n: i128, buf: &mut FrameBuf)
    requires { length buf.old + size_of kind ≤ FRAME_BYTES }
    ensures { buf.new ≡ buf.old ++ big_bytes (size_of kind) (residue kind n) }
{
    let mut bytes = [0; 8];
    let size = size_of(kind);
    BigEndian::write_uint(&mut bytes, residue(kind, n), size);
    buf.push_bytes(&bytes[..size]);
}

/// Puts the payload of these values behind what is held: each in the width of its kind, most significant byte first.
pub fn encode_into(layout: &Layout, values: &[i128], buf: &mut FrameBuf)
    requires count { length values.now ≡ length layout.now }
    requires room { length buf.old + total_size layout.now ≤ FRAME_BYTES }
    ensures bytes { buf.new ≡ buf.old ++ payload_bytes layout.now values.now }
    ensures long { length buf.new ≡ length buf.old + total_size layout.now }
{
    for (place, kind) in layout.kinds().iter().enumerate() {
        put_number(*kind, values[place], buf);
    }
}

/// The number of a kind whose bytes stand at a place.
fn number_at(kind: IntKind, bytes: &[u8], at: usize) -> i128
    requires { at + size_of kind ≤ length bytes.now }
    ensures { result ≡ value kind (pos (big_number (size_of kind) (drop at bytes.now))) }
{
    let number = BigEndian::read_uint(&bytes[at..], size_of(kind));
    convert(kind, i128::from(number))
}

/// Puts the numbers whose payload these bytes are over the values. It is false where the bytes are not so many as a
/// payload has, and then the values stay.
pub fn decode(layout: &Layout, bytes: &[u8], values: &mut [i128]) -> bool
    requires { length values.old ≡ length layout.now }
    ensures long { IsTrue result ↔ (length bytes.now ≡ total_size layout.now) }
    ensures numbers { values.new ≡ (if result then payload_numbers layout.now bytes.now else values.old) }
    ensures bytes { IsTrue result → payload_bytes layout.now values.new ≡ bytes.now }
    ensures fits { IsTrue result → is_fitting layout.now values.new ≡ true }
    ensures only { IsTrue result → (ns : List ℤ) → is_fitting layout.now ns ≡ true → payload_bytes layout.now ns ≡ bytes.now → ns ≡ values.new }
{
    if bytes.len() != layout.length() {
        return false;
    }
    let mut at = 0;
    for (place, kind) in layout.kinds().iter().enumerate() {
        values[place] = number_at(*kind, bytes, at);
        at += size_of(*kind);
    }
    true
}
