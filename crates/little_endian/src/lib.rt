// Numbers of 2, 4 and 8 bytes at a place of a slice, the lowest byte first. Only crates of this repository call these, at places that
// the slice has.
#![tactic(auto)]

ghost use Rattle.std.specs.Prelude.{◌≡◌, ℕ, ◌+◌, ◌≤◌, ◌++◌, length, take, drop};
ghost use Rattle.definitions.specs.Bytes.{loaded};
ghost use Rattle.little_endian.specs.Stored.{stored};

pub trait Number: Copy {
    // How many bytes it has, and what it is.
    ghost size: { ℕ };

    ghost value: { Self → ℕ };

    fn store(self, bytes: &mut [u8], at: usize)
        requires { at + size ≤ length bytes.old }
        ensures { bytes.new ≡ stored size at (value self) bytes.old };

    fn load(bytes: &[u8], at: usize) -> Self
        requires { at + size ≤ length bytes.now }
        ensures { value result ≡ loaded size at bytes.now };
}

impl Number for u16 {
    ghost size = { 2 };

    ghost value = { λ n. n };

    fn store(self, bytes: &mut [u8], at: usize) {
        bytes[at..at + 2].copy_from_slice(&self.to_le_bytes());
    }

    fn load(bytes: &[u8], at: usize) -> u16 {
        u16::from_le_bytes(get(bytes, at))
    }
}

impl Number for u32 {
    ghost size = { 4 };

    ghost value = { λ n. n };

    fn store(self, bytes: &mut [u8], at: usize) {
        bytes[at..at + 4].copy_from_slice(&self.to_le_bytes());
    }

    fn load(bytes: &[u8], at: usize) -> u32 {
        u32::from_le_bytes(get(bytes, at))
    }
}

impl Number for u64 {
    ghost size = { 8 };

    ghost value = { λ n. n };

    fn store(self, bytes: &mut [u8], at: usize) {
        bytes[at..at + 8].copy_from_slice(&self.to_le_bytes());
    }

    fn load(bytes: &[u8], at: usize) -> u64 {
        u64::from_le_bytes(get(bytes, at))
    }
}

fn get<const N: usize>(bytes: &[u8], at: usize) -> [u8; N]
    requires { at + N ≤ length bytes.now }
    ensures { result ≡ take N (drop at bytes.now) }
{
    <[u8; N]>::try_from(&bytes[at..at + N]).unwrap()
}
