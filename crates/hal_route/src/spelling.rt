//! Bytes that are a frame.

ghost use Rattle.std.specs.Prelude.{◌≡◌, Some, IfSome};
ghost use Rattle.rpc_codec.specs.declared.frame.Header.{Header as HeaderValue};
ghost use Rattle.hal_route.specs.Take.{IsSpelled, has_stop_tag, is_sent};

use crate::way::has_mux;
use rpc_codec::frame::{BROKEN, FrameBuf, HEADER_BYTES, Header, STOP, VALUES, one_header};

fn is_sent(kind: u8) -> bool
    ensures { result ≡ is_sent kind }
{
    kind == VALUES || kind == BROKEN || kind == STOP
}

fn has_stop_tag(header: &Header) -> bool
    ensures { result ≡ has_stop_tag header.now }
{
    has_mux(header, 0) && header.typ == 0
}

/// The header of bytes that are a frame.
pub(crate) fn frame_header(frame: &FrameBuf) -> Option<Header>
    ensures found { IfSome result (IsSpelled frame.now) }
    ensures only { (h : HeaderValue) → IsSpelled frame.now h → result ≡ Some h }
{
    one_header();
    let header = frame.header()?;
    if frame.bytes().len() != HEADER_BYTES + header.length as usize {
        return None;
    }
    if !is_sent(header.kind) {
        return None;
    }
    if (header.kind == STOP) != has_stop_tag(&header) {
        return None;
    }
    Some(header)
}
