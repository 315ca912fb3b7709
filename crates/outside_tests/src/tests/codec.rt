use cl_base::limits::FRAME_BYTES;
use cl_tree::kinds::IntKind;
use rpc_codec::frame::{FrameBuf, HEADER_BYTES, Header};
use rpc_codec::layout::Layout;
use rpc_codec::payload::{decode, encode_into};
use std::test::Fail;

/// The request of a call without arguments.
const REQUEST: Header = Header {
    mux: 1,
    sec: 1,
    typ: 1,
    turn: 1,
    kind: 0,
    length: 0,
};

/// Its reply, with one number.
const REPLY: Header = Header {
    mux: 1,
    sec: 1,
    typ: 2,
    turn: 2,
    kind: 0,
    length: 4,
};

#[test]
fn headers_and_numbers_have_these_bytes(rt: HostRuntime) -> Result<(), Fail> {
    let mut buf = FrameBuf::open(rt.alloc())?;
    assert_eq!(rt; buf.bytes(), b"".as_slice());
    let headers: [(Header, &[u8]); 2] = [
        (
            REQUEST,
            b"\0\0\0\x01\0\0\0\x01\0\0\0\x01\0\0\0\0\0\0\0\x01\0\0\0\0\0",
        ),
        (
            REPLY,
            b"\0\0\0\x01\0\0\0\x01\0\0\0\x02\0\0\0\0\0\0\0\x02\0\0\0\0\x04",
        ),
    ];
    for (header, bytes) in headers {
        buf.set_header(header);
        assert_eq!(rt; buf.bytes(), bytes);
        assert_eq!(rt; buf.header(), Some(header));
    }
    let layout = Layout::from_kinds(vec![in rt.alloc(); IntKind::I32]?)?;
    let numbers: [(i128, &[u8]); 3] = [
        (1, b"\0\0\0\x01"),
        (-1, b"\xff\xff\xff\xff"),
        (-2147483648, b"\x80\0\0\0"),
    ];
    for (number, bytes) in numbers {
        buf.set_header(REPLY);
        encode_into(&layout, &[number], &mut buf);
        assert_eq!(rt; &buf.bytes()[HEADER_BYTES..], bytes);
        assert_eq!(rt; buf.header(), Some(REPLY));
        let mut values = [7];
        assert!(rt; decode(&layout, bytes, &mut values));
        assert_eq!(rt; values, [number]);
    }
    Ok(())
}

#[test]
fn lengths_are_bounds(rt: HostRuntime) -> Result<(), Fail> {
    let mut buf = FrameBuf::open(rt.alloc())?;
    let ones = vec![in rt.alloc(); 0xffu8; FRAME_BYTES]?;
    buf.set_bytes(&ones);
    assert_eq!(rt; buf.bytes(), ones.as_slice());
    buf.set_bytes(&ones[..24]);
    assert_eq!(rt; buf.header(), None);
    buf.push_bytes(&ones[24..25]);
    let all_ones = Header {
        mux: 4294967295,
        sec: 4294967295,
        typ: 4294967295,
        turn: 18446744073709551615,
        kind: 255,
        length: 4294967295,
    };
    assert_eq!(rt; buf.header(), Some(all_ones));
    let layout = Layout::from_kinds(vec![in rt.alloc(); IntKind::I32]?)?;
    let mut values = [7];
    assert!(rt; !decode(&layout, &ones[..3], &mut values));
    assert!(rt; !decode(&layout, &ones[..5], &mut values));
    assert_eq!(rt; values, [7]);
    Ok(())
}
