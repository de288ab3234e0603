// The buffer that a write is lent: its bytes before the call, and the hash of those after it.

// Byte i is (i × 7 + 3) mod 256.
pub fn prepare(buffer: &mut [u8]) {
    for (i, byte) in buffer.iter_mut().enumerate() {
        *byte = ((i % 256 * 7 + 3) % 256) as u8;
    }
}

// The FNV-1a hash of 32 bits.
pub fn hash(buffer: &[u8]) -> u32 {
    buffer.iter().fold(2166136261u32, |hash, byte| {
        (hash ^ u32::from(*byte)).wrapping_mul(16777619)
    })
}
