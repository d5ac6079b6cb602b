// What the tour writes: each sector's content tells its number and the version of the write.
use sector::{Sector, zeros};

// Version 0 is what a new volume holds. The tests have a formula of their own, and what both write is fixed.
pub fn pattern(sector: u64, version: u64) -> Sector {
    let mut out = zeros();
    if version == 0 {
        return out;
    }
    let seed = sector
        .wrapping_mul(37)
        .wrapping_add(version.wrapping_mul(101));
    for (i, byte) in out.iter_mut().enumerate() {
        *byte = (seed.wrapping_add(i as u64) & 0xff) as u8;
    }
    let [s0, s1, ..] = sector.to_le_bytes();
    let [v0, v1, ..] = version.to_le_bytes();
    out[..4].copy_from_slice(&[s0, s1, v0, v1]);
    out
}
