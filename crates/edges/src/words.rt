// The words of a line, one space apart and counted from 0.

// All from the k-th word on.
pub(crate) fn rest(line: &[u8], k: usize) -> &[u8] {
    line.splitn(k.saturating_add(1), |b| *b == b' ')
        .nth(k)
        .unwrap_or(b"")
}

pub(crate) fn word(line: &[u8], k: usize) -> &[u8] {
    line.split(|b| *b == b' ').nth(k).unwrap_or(b"")
}

pub(crate) fn letter(line: &[u8], k: usize) -> u8 {
    wire::u8_at(rest(line, k), 0)
}

fn digit(b: u8) -> u64 {
    (b % 16) as u64
}

// The number that the k-th word writes, where it fits 64 bits.
pub(crate) fn number(line: &[u8], k: usize) -> u64 {
    let mut v: u64 = 0;
    for b in word(line, k) {
        v = (v % 1844674407370955162 * 10).wrapping_add(digit(*b));
    }
    v
}

pub(crate) fn count(line: &[u8], k: usize) -> u32 {
    (number(line, k) % 4294967296) as u32
}
