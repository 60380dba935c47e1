// What guards a packet: document 02, Asks 10 and 11. The radios differ in the first and the last byte and in the byte at which the sum
// begins, so these are arguments. What a writer puts at the end passes the reader's test, and a change of one summed byte does not.
#![tactic(auto)]

ghost use Rattle.std.specs.Prelude.{◌≡◌};
ghost use Rattle.checksum.specs.Checksum.{sum_from, sum_holds, ends_hold};

// The sum of the bytes from place `start` on, the carry out of eight bits dropped; 0 if there is none.
#[tactic(auto, using(crate::proofs::Sums::sum_is_byte), unfolding(crate::specs::Checksum::byte_sum))]
pub fn sum_from(start: usize, bytes: &[u8]) -> u8
    ensures { result ≡ sum_from start bytes.now }
{
    let first = start.min(bytes.len());
    let mut sum: u8 = 0;
    for byte in &bytes[first..] {
        sum = sum.wrapping_add(*byte);
    }
    sum
}

// Whether the last byte but one of a packet is the sum of those before it from place `start` on.
pub fn sum_holds(start: usize, packet: &[u8]) -> bool
    ensures { result ≡ sum_holds start packet.now }
{
    let [summed @ .., sum, _] = packet else {
        return false;
    };
    sum_from(start, summed) == *sum
}

// Whether a block has these bytes at its ends. An empty block has none. It is tested first, as the papers name it, and so that there is a byte to
// read.
pub fn ends_hold(first: u8, last: u8, block: &[u8]) -> bool
    ensures { result ≡ ends_hold first last block.now }
{
    if block.is_empty() {
        return false;
    }
    if block[0] != first {
        return false;
    }
    block[block.len() - 1] == last
}
