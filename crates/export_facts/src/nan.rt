// The NaN that the refusal 3 of two operands speaks of, made quiet, for each format; the house NaN where neither is one.
ghost use Rattle.std.specs.Prelude.{◌≡◌};
ghost use Rattle.definitions.specs.Format.{binary16, binary32, binary64, x87, class_of, words};
ghost use Rattle.definitions.specs.Facts.{nan_of};
ghost use Rattle.definitions.specs.Exports.{significand_in, word_in};

use facts::patterns::pattern_nan;
use formats::{Binary16, Binary32, Binary64, X87};

#[unsafe(no_mangle)]
pub extern "C" fn zk_nan16(x: u16, y: u16) -> u16
    ensures { result ≡ nan_of binary16 (class_of binary16 x) (class_of binary16 y) }
{
    pattern_nan(Binary16(x), Binary16(y)).low as u16
}

#[unsafe(no_mangle)]
pub extern "C" fn zk_nan32(x: u32, y: u32) -> u32
    ensures { result ≡ nan_of binary32 (class_of binary32 x) (class_of binary32 y) }
{
    pattern_nan(Binary32(x), Binary32(y)).low as u32
}

#[unsafe(no_mangle)]
pub extern "C" fn zk_nan64(x: u64, y: u64) -> u64
    ensures { result ≡ nan_of binary64 (class_of binary64 x) (class_of binary64 y) }
{
    pattern_nan(Binary64(x), Binary64(y)).low
}

#[unsafe(no_mangle)]
pub extern "C" fn zk_nan80(x: u64, xw: u16, y: u64, yw: u16, value: &mut u64, valuew: &mut u16)
    ensures value { value.new ≡ significand_in (nan_of x87 (class_of x87 (words xw x)) (class_of x87 (words yw y))) }
    ensures valuew { valuew.new ≡ word_in (nan_of x87 (class_of x87 (words xw x)) (class_of x87 (words yw y))) }
{
    let dividend = X87 {
        significand: x,
        word: xw,
    };
    let divisor = X87 {
        significand: y,
        word: yw,
    };
    let nan = pattern_nan(dividend, divisor);
    *value = nan.low;
    *valuew = nan.high as u16;
}
