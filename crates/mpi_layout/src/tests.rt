//! A small layout with every rule: worked bytes read, refused, tested and written.
ghost use Rattle.std.specs.Prelude.{◌≡◌};

use super::*;

static ROWS: [Row; 6] = [
    number!(0x00, 1, "Kind", Rule::Is(0x0a)),
    number!(0x01, 1, "Reserved", Rule::Zero),
    number!(0x02, 2, "Length", Rule::Between(1, 0x0200)),
    number!(0x04, 3, "Address", Rule::Any),
    number!(0x07, 1, "Flags", Rule::Mask(0x1f)),
    bytes!(0x08, 8, "Tag", one_of!(0, 1, 0x0807_0605_0403_0201)),
];

fn layout() -> Layout<6>
    ensures { result.length ≡ 16 }
{
    Layout::new(&ROWS, 16)
}

const GOOD: [u8; 16] = [0x0a, 0, 0, 2, 3, 2, 1, 0x1f, 1, 2, 3, 4, 5, 6, 7, 8];

const VALUES: [u64; 6] = [0x0a, 0, 0x0200, 0x0001_0203, 0x1f, 0x0807_0605_0403_0201];

#[test]
fn reads_and_writes(rt: HostRuntime) {
    assert_eq!(rt; read(&layout(), &GOOD), Ok(VALUES));
    // A byte at an offset, and the first fault with it.
    for (at, byte, fault) in [
        (0x00, 0x0b, 0x00),
        (0x01, 1, 0x01),
        (0x03, 3, 0x02),
        (0x07, 0x20, 0x07),
        (0x0f, 9, 0x08),
    ] {
        let mut bytes = GOOD;
        if at < bytes.len() {
            bytes[at] = byte;
        }
        assert_eq!(rt; read(&layout(), &bytes), Err(Fault::Field { at: fault }));
    }
    let short = Fault::Short { need: 16, have: 15 };
    assert_eq!(rt; read(&layout(), &GOOD[..15]), Err(short));

    assert!(rt; fits(&layout(), &VALUES));
    for (row, value) in [
        (0, 0x0b),
        (1, 1),
        (2, 0),
        (3, 0x0100_0000),
        (4, 0x20),
        (5, 2),
    ] {
        let mut values = VALUES;
        if row < values.len() {
            values[row] = value;
        }
        assert!(rt; !fits(&layout(), &values), "row {row}");
    }

    let layout = layout();
    let mut out = [0xee; 18];
    if fits(&layout, &VALUES) {
        write(&layout, &VALUES, &mut out);
    }
    assert_eq!(rt; &out[..16], GOOD.as_slice());
    assert_eq!(rt; &out[16..], [0xee, 0xee].as_slice());
}
