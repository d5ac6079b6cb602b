// Fields at their places in a sector.
ghost use Rattle.std.specs.Prelude.{◌≡◌, ◌+◌, ◌≤◌, length};
ghost use Rattle.std.specs.List.{between, splice};
ghost use Rattle.head.specs.Fields.{Decided, clear};
ghost use Rattle.sector.specs.declared.TheConstants.{SECTOR};

use sector::Sector;
use sector::field::Field;

// Reads the field at a place.
pub(crate) fn field_at<const WIDTH: usize, F: Field<WIDTH>>(bytes: &Sector, at: usize) -> F
    requires { at + WIDTH ≤ SECTOR }
    ensures value { result ≡ F.of_bytes (between at (at + WIDTH) bytes.now) }
    ensures back { F.bytes_of result ≡ between at (at + WIDTH) bytes.now }
    ensures fits { F.of_bytes (F.bytes_of result) ≡ result }
{
    F::from_bytes(bytes[at..].first_chunk().unwrap())
}

// Writes a field at a place.
pub(crate) fn put_field<const WIDTH: usize, F: Field<WIDTH>>(
    bytes: &mut Sector,
    at: usize,
    value: F,
)
    requires { at + WIDTH ≤ SECTOR }
    ensures bytes { bytes.new ≡ splice bytes.old at (at + WIDTH) (F.bytes_of value) }
    ensures fits { F.of_bytes (F.bytes_of value) ≡ value }
{
    bytes[at..at + WIDTH].copy_from_slice(&value.to_bytes());
}

// Whether all the bytes are zero.
pub(crate) fn is_clear(bytes: &[u8]) -> bool
    ensures { Decided result (bytes.now ≡ clear (length bytes.now)) }
{
    bytes.iter().all(|byte| *byte == 0)
}
