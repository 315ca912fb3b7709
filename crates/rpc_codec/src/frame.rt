//! Frames: their headers, and the buffer that holds one.

ghost use Rattle.std.specs.Prelude.{◌≡◌, ◌+◌, ◌<◌, ◌≤◌, List, ℕ, [], ◌++◌, length, IfOk, MatchOption};
ghost use Rattle.rpc_codec.specs.Frames.{header_bytes, IsInRange, IsHeader};
ghost use Rattle.rpc_codec.specs.declared.frame.Header.{Header};

use byteorder::{BigEndian, ByteOrder};
use cl_base::limits::FRAME_BYTES;
use cl_base::name::NoMemory;
use std::alloc::Global;
use std::marker::Model;

/// The kind of a frame with values. No other kind has a payload.
pub const VALUES: u8 = 0;

/// The kind of a message whose values were not let through.
pub const BLOCKED: u8 = 1;

/// The kind of a reply to a call that a trap broke off.
pub const BROKEN: u8 = 2;

/// The kind of the frame that ends a run.
pub const STOP: u8 = 3;

/// Bytes of a header.
pub const HEADER_BYTES: usize = 25;

// Contracts cite these constants by their names, so the numbers stand here once more.
const _: () = prove!(VALUES == 0);

const _: () = prove!(BLOCKED == 1);

const _: () = prove!(BROKEN == 2);

const _: () = prove!(STOP == 3);

const _: () = prove!(HEADER_BYTES == 25);

/// What stands before the payload of a frame. `mux`, `sec` and `typ` are the tag by which the frame finds its way. A
/// header that was read may have any numbers: a kind that there is none of, or a length that is not the payload's.
#[derive(Clone, Copy, Debug, PartialEq, Eq)]
pub struct Header {
    /// The pair of the caller's level and the callee's.
    pub mux: u32,
    pub sec: u32,
    /// The message: the request of a call, or its reply.
    pub typ: u32,
    /// The place among the frames of a run, from 1.
    pub turn: u64,
    pub kind: u8,
    /// Bytes of the payload.
    pub length: u32,
}

impl Header {
    /// The header whose bytes come first.
    fn read(bytes: &[u8]) -> Header
        requires { HEADER_BYTES ≤ length bytes.now }
        ensures { IsHeader bytes.now result }
    {
        Header {
            mux: BigEndian::read_u32(bytes),
            sec: BigEndian::read_u32(&bytes[4..]),
            typ: BigEndian::read_u32(&bytes[8..]),
            turn: BigEndian::read_u64(&bytes[12..]),
            kind: bytes[20],
            length: BigEndian::read_u32(&bytes[21..]),
        }
    }

    fn to_bytes(self) -> [u8; HEADER_BYTES]
        ensures { result ≡ header_bytes self }
    {
        let mut bytes = [0; HEADER_BYTES];
        BigEndian::write_u32(&mut bytes, self.mux);
        BigEndian::write_u32(&mut bytes[4..], self.sec);
        BigEndian::write_u32(&mut bytes[8..], self.typ);
        BigEndian::write_u64(&mut bytes[12..], self.turn);
        bytes[20] = self.kind;
        BigEndian::write_u32(&mut bytes[21..], self.length);
        bytes
    }
}

/// The bytes of one frame, or of any part of one. `open` takes the room for them, and no later call asks for memory.
/// Contracts see the list of the bytes that it holds.
#[derive(Drop)]
pub struct FrameBuf {
    bytes: Vec<u8>,
}

impl Model for FrameBuf {
    ghost use Rattle.std.specs.Prelude.{◌≤◌, ℕ, List, vec_len, vec_capacity};
    ghost use Rattle.std.specs.Coded.{coded_list, coded_ℕ};
    ghost use Rattle.cl_base.specs.declared.limits.TheConstants.{FRAME_BYTES};

    ghost Value = { List ℕ };

    ghost coded = { coded_list coded_ℕ };

    ghost view = { λ b. b.bytes.items };

    ghost invariant = { λ b. (vec_len b.bytes ≤ FRAME_BYTES) × (FRAME_BYTES ≤ vec_capacity b.bytes) };
}

impl FrameBuf {
    /// An empty buffer.
    pub fn open(alloc: Global) -> Result<FrameBuf, NoMemory>
        ensures { IfOk result (λ buf. buf ≡ []) }
    {
        Ok(FrameBuf {
            bytes: Vec::with_capacity(alloc, FRAME_BYTES)?,
        })
    }

    /// Puts the header, and drops what was held.
    pub fn set_header(&mut self, header: Header)
        ensures bytes { self.new ≡ header_bytes header }
        ensures read { IsHeader self.new header }
        ensures only { (other : Header) → IsHeader self.new other → other ≡ header }
        ensures long { length self.new ≡ HEADER_BYTES }
    {
        self.set_bytes(&header.to_bytes());
    }

    /// The header at the front.
    pub fn header(&self) -> Option<Header>
        ensures { MatchOption result (length self.now < HEADER_BYTES) (IsHeader self.now) }
    {
        if self.bytes.len() < HEADER_BYTES {
            return None;
        }
        Some(Header::read(&self.bytes))
    }

    /// Puts these bytes, and drops what was held.
    pub fn set_bytes(&mut self, bytes: &[u8])
        requires { length bytes.now ≤ FRAME_BYTES }
        ensures { self.new ≡ bytes.now }
    {
        self.bytes.clear();
        self.push_bytes(bytes);
    }

    /// Puts these bytes behind what is held.
    pub fn push_bytes(&mut self, bytes: &[u8])
        requires { length self.old + length bytes.now ≤ FRAME_BYTES }
        ensures { self.new ≡ self.old ++ bytes.now }
    {
        // The room for a whole frame was taken at the start.
        if self.bytes.extend_from_slice(bytes).is_err() {
            unreachable!()
        }
    }

    /// What is held.
    pub fn bytes(&self) -> &[u8]
        ensures bytes { result.now ≡ self.now }
        ensures within { length result.now ≤ FRAME_BYTES }
    {
        self.bytes.as_slice()
    }
}

/// A law: bytes have one header at most.
pub fn one_header()
    ensures { (bytes : List ℕ) (one other : Header) → IsHeader bytes one → IsHeader bytes other → one ≡ other }
{}

/// A law: whatever follows the bytes of a header, they are read as that header.
pub fn header_returns()
    ensures { (header : Header) (rest : List ℕ) → IsInRange header → IsHeader (header_bytes header ++ rest) header }
{}
