// Whether a pattern is a denormal's, for each format: 1 if it is, else 0.
ghost use Rattle.std.specs.Prelude.{◌≡◌};
ghost use Rattle.definitions.specs.Format.{binary16, binary32, binary64, x87, words};
ghost use Rattle.definitions.specs.Facts.{denormal};
ghost use Rattle.definitions.specs.Exports.{flag_number};

use facts::denormal::is_denormal;
use formats::{Binary16, Binary32, Binary64, X87};

#[unsafe(no_mangle)]
pub extern "C" fn zk_denormal16(x: u16) -> u8
    ensures { result ≡ flag_number (denormal binary16 x) }
{
    is_denormal(Binary16(x)) as u8
}

#[unsafe(no_mangle)]
pub extern "C" fn zk_denormal32(x: u32) -> u8
    ensures { result ≡ flag_number (denormal binary32 x) }
{
    is_denormal(Binary32(x)) as u8
}

#[unsafe(no_mangle)]
pub extern "C" fn zk_denormal64(x: u64) -> u8
    ensures { result ≡ flag_number (denormal binary64 x) }
{
    is_denormal(Binary64(x)) as u8
}

#[unsafe(no_mangle)]
pub extern "C" fn zk_denormal80(x: u64, xw: u16) -> u8
    ensures { result ≡ flag_number (denormal x87 (words xw x)) }
{
    let pattern = X87 {
        significand: x,
        word: xw,
    };
    is_denormal(pattern) as u8
}
