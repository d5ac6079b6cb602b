// Fields of fixed width: values and their bytes, of which each gives the other.
ghost use Rattle.std.specs.Prelude.{◌≡◌, ℕ, List};
ghost use Rattle.sector.specs.Bytes.{le, from_le};

// A value that is kept in so many bytes. Reading undoes writing, and writing undoes reading. Each method says so of the
// values there are: a law beside them would be of every number, and a `u32` has not all of them.
pub trait Field<const WIDTH: usize>: Copy {
    // what its bytes are, and which value bytes are
    ghost bytes_of: { Self → List ℕ };

    ghost of_bytes: { List ℕ → Self };

    fn to_bytes(&self) -> [u8; WIDTH]
        ensures bytes { result ≡ bytes_of self.now }
        ensures back { of_bytes result ≡ self.now };

    fn from_bytes(bytes: &[u8; WIDTH]) -> Self
        ensures value { result ≡ of_bytes bytes.now }
        ensures back { bytes_of result ≡ bytes.now };
}

// Numbers have the lowest byte first.
impl Field<4> for u32 {
    ghost bytes_of = { le 4 };

    ghost of_bytes = { from_le };

    fn to_bytes(&self) -> [u8; 4] {
        u32::to_le_bytes(*self)
    }

    fn from_bytes(bytes: &[u8; 4]) -> u32 {
        u32::from_le_bytes(*bytes)
    }
}

impl Field<8> for u64 {
    ghost bytes_of = { le 8 };

    ghost of_bytes = { from_le };

    fn to_bytes(&self) -> [u8; 8] {
        u64::to_le_bytes(*self)
    }

    fn from_bytes(bytes: &[u8; 8]) -> u64 {
        u64::from_le_bytes(*bytes)
    }
}
