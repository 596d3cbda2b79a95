//! A hash of numbers.

/// Mixes a number into a hash that depends on the numbers and their order.
pub fn mixed(digest: u64, number: u64) -> u64 {
    (digest ^ number).wrapping_mul(0x0000_0100_0000_01b3)
}
