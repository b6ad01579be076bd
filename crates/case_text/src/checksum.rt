// A checksum of many numbers in their order.

// 1,000,003 times the checksum, plus a number, modulo the prime 2^32 - 5.
pub fn with_number(checksum: u64, number: u64) -> u64 {
    (1000003 * (checksum % 4294967291) + number % 4294967291) % 4294967291
}

// The checksum with more bytes, each as the bits in which it is not `before`.
pub fn with_bytes(checksum: u64, bytes: &[u8], before: u8) -> u64 {
    let mut sum = checksum;
    for byte in bytes {
        sum = with_number(sum, (*byte ^ before) as u64);
    }
    sum
}
