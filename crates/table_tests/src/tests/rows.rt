//! The bytes of a row of the chip.
use br_model::change::Kind;
use br_model::numbers::{Mac, Port, Vid};
use chip_tables::rows::{AddressRow, pack_address, pack_key};

/// VLAN 1, 02:00:00:00:00:0b, port 2, static, pinned, used.
const ROW: [u8; 9] = [0x01, 0xb0, 0, 0, 0, 0, 0x20, 0x20, 0xd0];

#[test]
fn address_row_bytes(rt: HostRuntime) {
    let mac = Mac::from_number(0x0200_0000_000b).expect(&rt, "an address");
    let row = AddressRow {
        port: Port::new(2).expect(&rt, "a port"),
        kind: Kind::Static,
        pinned: true,
    };
    let packed = pack_address(pack_key(Vid::DEFAULT, mac), &row);
    assert_eq!(rt; packed.bytes(), ROW.as_slice());
}
