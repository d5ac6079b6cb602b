// What is written: each content tells its sector and the version of the write.
use sector::{Sector, zeros};
use std::alloc::{AllocError, Global};

// Other contents than the main program and the tests write, so that no formula hides a mistake in each of them.
pub fn pattern(sector: u64, version: u64) -> Sector {
    let mut out = zeros();
    let seed = sector
        .wrapping_mul(59)
        .wrapping_add(version.wrapping_mul(83));
    for (i, byte) in out.iter_mut().enumerate() {
        *byte = (seed.wrapping_mul(i as u64 | 1) & 0xff) as u8;
    }
    let [s0, s1, ..] = sector.to_le_bytes();
    let [v0, v1, ..] = version.to_le_bytes();
    out[..4].copy_from_slice(&[s0, s1, v0, v1]);
    out
}

// a version that no write comes to
const RUBBISH: u64 = 0xffff;

// What a shelf holds before a volume is created on it: so many sectors, no two of them alike and none of zeros.
pub fn rubbish(heap: Global, sectors: u64) -> Result<Vec<u8>, AllocError> {
    let mut bytes = Vec::new(heap);
    for sector in 0..sectors {
        bytes.extend_from_slice(&pattern(sector, RUBBISH))?;
    }
    Ok(bytes)
}
