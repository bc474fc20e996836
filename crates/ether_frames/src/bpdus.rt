//! Reading and writing the frames that carry spanning tree messages (BPDUs).
ghost use Rattle.std.specs.Prelude.{◌≡◌, ◌≤◌, [], ◌∷◌, ◌++◌, IfOk, length};
ghost use Rattle.std.specs.declared.option.Option.TheVariants.{Some};
ghost use Rattle.br_model.specs.Wire.Bpdus.{bpdu, written, carries_bpdu, config_at, llc_and_protocol, padded};
ghost use Rattle.br_model.specs.Forward.Targets.{bridge_group_address};
ghost use Rattle.std.specs.Int.{bytes_high_first};

use crate::NoMemory;
use crate::frames::{PLAIN_HEADER, TYPE_AT, address};
use br_model::bpdu::BpduMsg;
use br_model::bytes::Bytes;
use br_model::numbers::Mac;
use byteorder::{BigEndian, ByteOrder};
use std::alloc::Global;

/// The service access points and the control field of the spanning tree (IEEE 802.2), and its protocol identifier.
const LLC_AND_PROTOCOL: [u8; 5] = [0x42, 0x42, 0x03, 0x00, 0x00];

/// The bytes of a configuration message, LLC included.
const CONFIG_LENGTH: u16 = 38;

/// The bytes of a notification, LLC included.
const TCN_LENGTH: u16 = 7;

/// The largest length; above it the field is a type.
const LARGEST_LENGTH: u16 = 1500;

/// Where the version of a message stands, and its type.
const VERSION_AT: usize = 19;

const MESSAGE_TYPE_AT: usize = 20;

/// Where the fields of a configuration message stand (IEEE 802.1D-1998 section 9.3.1): its flags, 1 byte.
const FLAGS_AT: usize = 21;

/// The identifier of the root, 8 bytes, and the cost of the path to it, 4 bytes.
const ROOT_AT: usize = 22;

const COST_AT: usize = 30;

/// The identifier of the bridge that sends it, 8 bytes, and that of its port, 2 bytes.
const BRIDGE_AT: usize = 34;

const PORT_AT: usize = 42;

/// Times of 2 bytes each: the message's age, then the max age, hello time and forward delay of the root.
const AGE_AT: usize = 44;

const MAX_AGE_AT: usize = 46;

const HELLO_TIME_AT: usize = 48;

const FORWARD_DELAY_AT: usize = 50;

/// The type of a configuration message.
const CONFIG_TYPE: u8 = 0x00;

/// The type of a notification.
const TCN_TYPE: u8 = 0x80;

/// The bytes of a frame that carries a message: the least length of a frame, without its check sequence.
pub const BPDU_LENGTH: usize = 60;

/// Reads a spanning tree message: an untagged frame to 01-80-C2-00-00-00 whose type field is the length of what
/// follows, then 42 42 03, protocol 2 bytes, version 1, type 1 (IEEE 802.1D-1998 section 9.3). Any version is taken.
/// A configuration message goes on with flags 1, root 8, cost 4, bridge 8, port 2, age 2, max age 2, hello time 2
/// and forward delay 2, the highest byte first. What follows is padding.
pub fn bpdu_read(b: &[u8]) -> Option<BpduMsg>
    ensures { result ≡ bpdu b.now }
{
    if !carries_bpdu(b) {
        return None;
    }
    let length = BigEndian::read_u16(&b[TYPE_AT..]);
    match b[MESSAGE_TYPE_AT] {
        TCN_TYPE => Some(BpduMsg::Tcn),
        CONFIG_TYPE if length >= CONFIG_LENGTH => Some(config_at(b)),
        _ => None,
    }
}

// Whether the frame is for the spanning tree, untagged, as long as its length says, and of the protocol.
fn carries_bpdu(b: &[u8]) -> bool
    ensures value { result ≡ carries_bpdu b.now }
{
    if b.len() < PLAIN_HEADER + usize::from(TCN_LENGTH) {
        return false;
    }
    let length = BigEndian::read_u16(&b[TYPE_AT..]);
    address(b).number() == Mac::BRIDGE_GROUP_ADDRESS
        && TCN_LENGTH <= length
        && length <= LARGEST_LENGTH
        && PLAIN_HEADER + usize::from(length) <= b.len()
        && &b[PLAIN_HEADER..VERSION_AT] == LLC_AND_PROTOCOL.as_slice()
}

// The fields of a configuration message.
fn config_at(b: &[u8]) -> BpduMsg
    requires { 52 ≤ length b.now }
    ensures { result ≡ config_at b.now }
{
    BpduMsg::Config {
        flags: b[FLAGS_AT],
        root: BigEndian::read_u64(&b[ROOT_AT..]),
        cost: BigEndian::read_u32(&b[COST_AT..]),
        bridge: BigEndian::read_u64(&b[BRIDGE_AT..]),
        port: BigEndian::read_u16(&b[PORT_AT..]),
        age: BigEndian::read_u16(&b[AGE_AT..]),
        max: BigEndian::read_u16(&b[MAX_AGE_AT..]),
        hello: BigEndian::read_u16(&b[HELLO_TIME_AT..]),
        delay: BigEndian::read_u16(&b[FORWARD_DELAY_AT..]),
    }
}

/// The frame that carries the message, in the form that `bpdu_read` takes: version 0, `own` as its source, and zeros up
/// to 60 bytes.
pub fn bpdu_frame(own: Mac, message: &BpduMsg) -> [u8; BPDU_LENGTH]
    ensures value { result ≡ written own message.now }
    ensures read_back { bpdu result ≡ Some message.now }
{
    match *message {
        BpduMsg::Config {
            flags,
            root,
            cost,
            bridge,
            port,
            age,
            max,
            hello,
            delay,
        } => {
            let mut frame = frame_from(own, CONFIG_LENGTH, CONFIG_TYPE);
            frame[FLAGS_AT] = flags;
            BigEndian::write_u64(&mut frame[ROOT_AT..], root);
            BigEndian::write_u32(&mut frame[COST_AT..], cost);
            BigEndian::write_u64(&mut frame[BRIDGE_AT..], bridge);
            BigEndian::write_u16(&mut frame[PORT_AT..], port);
            BigEndian::write_u16(&mut frame[AGE_AT..], age);
            BigEndian::write_u16(&mut frame[MAX_AGE_AT..], max);
            BigEndian::write_u16(&mut frame[HELLO_TIME_AT..], hello);
            BigEndian::write_u16(&mut frame[FORWARD_DELAY_AT..], delay);
            frame
        }
        BpduMsg::Tcn => frame_from(own, TCN_LENGTH, TCN_TYPE),
    }
}

/// The same, in memory of its own.
pub fn bpdu_write(alloc: Global, own: Mac, m: &BpduMsg) -> Result<Bytes, NoMemory>
    ensures value { IfOk result (λ out. out ≡ written own m.now) }
    ensures read_back { IfOk result (λ out. bpdu out ≡ Some m.now) }
{
    Bytes::copy_of(alloc, &bpdu_frame(own, m))
}

// A frame of this type, with zeros behind the type.
fn frame_from(own: Mac, length: u16, kind: u8) -> [u8; BPDU_LENGTH]
    ensures { result
        ≡ padded (bytes_high_first 6 bridge_group_address ++ (bytes_high_first 6 own ++ (bytes_high_first 2 length ++ (llc_and_protocol ++ 0 ∷ kind ∷ [])))) }
{
    let mut frame = [0; BPDU_LENGTH];
    BigEndian::write_u48(&mut frame, Mac::BRIDGE_GROUP_ADDRESS);
    BigEndian::write_u48(&mut frame[6..], own.number());
    BigEndian::write_u16(&mut frame[TYPE_AT..], length);
    frame[PLAIN_HEADER..VERSION_AT].copy_from_slice(&LLC_AND_PROTOCOL);
    frame[MESSAGE_TYPE_AT] = kind;
    frame
}
