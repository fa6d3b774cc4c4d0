//! Worked texts.
use super::*;
use std::test::Fail;

#[test]
fn prints(rt: HostRuntime) -> Result<(), Fail> {
    for (bytes, text) in [
        (b"".as_slice(), "-"),
        (b"\x0a\xff".as_slice(), "0aff"),
        ([0x11; 15].as_slice(), "111111111111111111111111111111"),
        ([0x11; 16].as_slice(), "16*11"),
        ([0; 88].as_slice(), "88*00"),
    ] {
        let mut line = Text::new(rt.alloc());
        line.push_bytes(bytes)?;
        assert_eq!(rt; line.as_bytes(), text.as_bytes());
    }
    let mut line = Text::new(rt.alloc());
    line.push(b"0x")?;
    line.push_hex(0x0010_0060, 4)?;
    line.push(b" ")?;
    line.push_hex(0x0123_4567, 2)?;
    line.push(b" ")?;
    line.push_decimal(18_446_744_073_709_551_615)?;
    line.push_decimal(0)?;
    line.push(b" ")?;
    line.push_digits(b"Az")?;
    assert_eq!(rt;
        line.as_bytes(),
        b"0x00100060 4567 184467440737095516150 417a".as_slice()
    );
    Ok(())
}

#[test]
fn reads_digits_or_refuses(rt: HostRuntime) -> Result<(), Fail> {
    for (text, bytes) in [
        (" 0a\tB\r\nc \n", Some(b"\x0a\xbc".as_slice())),
        ("", Some(b"".as_slice())),
        ("0", None),
        ("0x00", None),
        ("0g", None),
        ("\u{c}00", None),
    ] {
        match parse_hex(rt.alloc(), text.as_bytes()) {
            Ok(read) => assert_eq!(rt; Some(read.as_slice()), bytes, "{text}"),
            Err(fault) => {
                assert_eq!(rt; fault, HexFault::Form, "{text}");
                assert!(rt; bytes.is_none(), "{text}");
            }
        }
    }
    Ok(())
}
