use cl_tree::kinds::IntKind;
use rpc_codec::frame::FrameBuf;
use rpc_codec::layout::Layout;
use rpc_codec::payload::{decode, encode_into};
use std::test::Fail;

/// The integers of `struct r { unsigned char c; long n; short h[2]; }`.
const KINDS: [IntKind; 4] = [IntKind::U8, IntKind::Long, IntKind::I16, IntKind::I16];

const VALUES: [i128; 4] = [255, -1, -2, 258];

const BYTES: [u8; 13] = [
    0xff, 0xff, 0xff, 0xff, 0xff, 0xff, 0xff, 0xff, 0xff, 0xff, 0xfe, 0x01, 0x02,
];

/// Each kind with its least number and its greatest, and the bytes of these.
const ENDS: [(IntKind, i128, i128, usize); 10] = [
    (IntKind::I8, -0x80, 0x7f, 1),
    (IntKind::U8, 0, 0xff, 1),
    (IntKind::I16, -0x8000, 0x7fff, 2),
    (IntKind::U16, 0, 0xffff, 2),
    (IntKind::I32, -0x8000_0000, 0x7fff_ffff, 4),
    (IntKind::U32, 0, 0xffff_ffff, 4),
    (
        IntKind::Long,
        -0x8000_0000_0000_0000,
        0x7fff_ffff_ffff_ffff,
        8,
    ),
    (IntKind::ULong, 0, 0xffff_ffff_ffff_ffff, 8),
    (
        IntKind::LLong,
        -0x8000_0000_0000_0000,
        0x7fff_ffff_ffff_ffff,
        8,
    ),
    (IntKind::ULLong, 0, 0xffff_ffff_ffff_ffff, 8),
];

#[test]
fn a_struct_has_thirteen_bytes(rt: HostRuntime) -> Result<(), Fail> {
    let layout = Layout::from_kinds(Vec::from_slice(rt.alloc(), &KINDS)?)?;
    assert_eq!(rt; layout.length(), 13);
    assert_eq!(rt; layout.count(), 4);
    let mut buf = FrameBuf::open(rt.alloc())?;
    encode_into(&layout, &VALUES, &mut buf);
    assert_eq!(rt; buf.bytes(), BYTES.as_slice());
    let mut values = [0; 4];
    assert!(rt; decode(&layout, &BYTES, &mut values));
    assert_eq!(rt; values, VALUES);
    let mut kept = [7; 4];
    assert!(rt; !decode(&layout, &BYTES[..12], &mut kept));
    assert_eq!(rt; kept, [7; 4]);
    Ok(())
}

#[test]
fn ends_of_kinds_come_back(rt: HostRuntime) -> Result<(), Fail> {
    let mut buf = FrameBuf::open(rt.alloc())?;
    for (kind, least, greatest, bytes) in ENDS {
        let layout = Layout::from_kinds(vec![in rt.alloc(); kind, kind]?)?;
        assert_eq!(rt; layout.length() / 2, bytes);
        buf.set_bytes(b"");
        encode_into(&layout, &[least, greatest], &mut buf);
        let mut values = [7, 7];
        assert!(rt; decode(&layout, buf.bytes(), &mut values));
        assert_eq!(rt; values, [least, greatest]);
    }
    Ok(())
}
