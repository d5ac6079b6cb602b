// The sector: the 512 bytes that a shelf reads and writes at once.
#![tactic(auto)]

ghost use Rattle.std.specs.Prelude.{◌≡◌, replicate, bit_xor};
ghost use Rattle.sector.specs.Folds.{folded};
ghost use Rattle.sector.specs.declared.TheConstants.{SECTOR};

pub mod field;
pub mod limits;

// bytes in a sector
pub const SECTOR: usize = 512;

// what one sector holds
pub type Sector = [u8; SECTOR];

// A sector of zeros.
pub fn zeros() -> Sector
    ensures { result ≡ replicate SECTOR 0 }
{
    [0; SECTOR]
}

// Folds the sector that was read into the one that is written, by exclusive-or, byte for byte.
// Parity is the fold of a group's data, and a lost datum the fold of all the others and the parity.
pub fn fold(written: &mut Sector, read: &Sector)
    ensures { written.new ≡ folded written.old read.now }
{
    // By index: over `iter_mut().zip(read)` no invariant can close the proof, since after an adapter of `iter_mut` nothing is known
    // of what was written.
    for (i, byte) in read.iter().enumerate() {
        written[i] = fold_byte(written[i], *byte);
    }
}

// One byte of a fold.
fn fold_byte(written: u8, read: u8) -> u8
    ensures { result ≡ bit_xor written read }
{
    written ^ read
}
