// The packets of a Coyote XL radio, as they are laid out and as they are read: document 003 and document 02, Ask 10. What a packet holds is
// an enum over structs of numbers. Targets and data are places in the block that was read, and no slices of it, since the C struct has them
// so. The laws of this crate say that a packet of the layout is read as what it holds, and that a block that is read is a packet of the
// layout.
#![tactic(auto)]

ghost use Rattle.std.specs.Prelude.{◌≡◌};
ghost use Rattle.coyote_packet.specs.Layout.{targets_before, fit_targets, data_most, fit_data, fit_memory};

// The first and the last byte of every packet.
pub const START: u8 = 0xAA;

pub const END: u8 = 0x55;

// The types that are served. Of the first three the low four bits are a sequence number. They are numbers, as writers and C take them: a
// writer refuses any other number. What was read has its type as a case of `Packet`.
pub const ACK_DATA: u8 = 0x00;

pub const NO_ACK_DATA: u8 = 0x10;

pub const ACK: u8 = 0x20;

pub const READ_MEM: u8 = 0x80;

pub const SUCCESS: u8 = 0x86;

pub const FAILURE: u8 = 0x87;
// From this type on a packet has no addresses.
pub const ADDRESSED_END: u8 = 0x30;
// How many sequence numbers there are.
pub const SEQUENCES: u8 = 16;

// Where the payload begins, and how many bytes of a packet are not payload.
pub const PAYLOAD_START: usize = 4;

pub const OVERHEAD: usize = 6;
// Where the sum begins: the first byte is not added.
pub const SUM_START: usize = 1;

// Where the targets begin in a payload, after SrcLoc.
pub const SOURCE_LENGTH: usize = 2;
// EOA and DataLen, which are between the targets and the data.
pub const TARGETS_TAIL: usize = 3;
// What is before the data in the payload of a Success.
pub const SUCCESS_HEAD: usize = 3;

// 003's EOA: what ends the targets, where a target's group would be.
pub const TARGETS_END: u8 = 0x80;
// The most targets (house).
pub const TARGETS_MAX: u8 = 16;
// The most bytes of data, and the fewest and the most that a ReadMem asks for.
pub const DATA_MAX: usize = 1023;

pub const MEMORY_LENGTH_MIN: u16 = 2;

pub const MEMORY_LENGTH_MAX: u16 = 1023;
// The largest memory space (RAM) and the largest failure code. Both are numbers, as writers and C take them.
pub const MEMORY_SPACE_MAX: u8 = 1;

pub const FAILURE_CODE_MAX: u8 = 5;

// What AckData, NoAckData and Ack hold. SrcLoc is `source_group` and `source_address`. Of DestLoc, target i has its group at byte
// 6 + 2 * i of the block and its address after it. Data lies at `data_start`; an Ack's one byte is its Retries.
#[derive(Clone, Copy)]
pub struct Addressed {
    pub sequence: u8,
    pub source_group: u8,
    pub source_address: u8,
    pub target_count: usize,
    pub data_start: usize,
    pub data_length: usize,
}

// What ReadMem asks for: MemSpace, Addr and Len.
#[derive(Clone, Copy)]
pub struct MemoryRead {
    pub space: u8,
    pub address: u16,
    pub length: u16,
}

// What Success holds: ReqType, and where Data lies.
#[derive(Clone, Copy)]
pub struct Succeeded {
    pub request_type: u8,
    pub data_start: usize,
    pub data_length: usize,
}

// What Failure holds: ReqType and FailCode.
#[derive(Clone, Copy)]
pub struct Failed {
    pub request_type: u8,
    pub code: u8,
}

// A packet that was read, by 003's names.
#[derive(Clone, Copy)]
pub enum Packet {
    AckData(Addressed),
    NoAckData(Addressed),
    Ack(Addressed),
    ReadMem(MemoryRead),
    Success(Succeeded),
    Failure(Failed),
}

// How many targets, a group and an address each, are there before the first 80 in a group's place, counted up to the limit.
pub fn count_targets(limit: u8, bytes: &[u8]) -> usize
    ensures { result ≡ targets_before limit bytes.now }
{
    let groups = bytes.iter().step_by(2).take(limit as usize);
    groups.take_while(|group| **group != TARGETS_END).count()
}

// Whether bytes are 1 to 16 whole targets, none of which has the group 80.
#[inline(always)]
#[tactic(auto, using(crate::proofs::Targets::most))]
pub fn fits_targets(targets: &[u8]) -> bool
    ensures { result ≡ fit_targets targets.now }
{
    let count = count_targets(TARGETS_MAX, targets);
    1 <= count && 2 * count == targets.len()
}

// The most bytes of data that AckData, NoAckData or Ack has, by the type.
fn data_most(kind: u8) -> usize
    ensures { result ≡ data_most kind }
{
    if kind < ACK { DATA_MAX } else { 1 }
}

// Whether AckData, NoAckData or Ack, by the type, may have so many bytes of data.
pub fn fits_data(kind: u8, size: usize) -> bool
    ensures { result ≡ fit_data kind size }
{
    (1..=data_most(kind)).contains(&size)
}

// Whether ReadMem may ask for so many bytes of this memory space.
pub fn fits_memory(space: u8, size: u16) -> bool
    ensures { result ≡ fit_memory space size }
{
    space <= MEMORY_SPACE_MAX && (MEMORY_LENGTH_MIN..=MEMORY_LENGTH_MAX).contains(&size)
}
