// Scaling by a power of two, for each format.
ghost use Rattle.std.specs.Prelude.{◌≡◌};
ghost use Rattle.definitions.specs.Format.{binary16, binary32, binary64, x87, words};
ghost use Rattle.definitions.specs.Scale.{scale_report};
ghost use Rattle.definitions.specs.Exports.{after, says_number, significand_in, word_in};

use formats::{Binary16, Binary32, Binary64, X87};
use scaling::scale::scale;

#[unsafe(no_mangle)]
pub extern "C" fn zk_scale16(x: u16, power: i32, value: &mut u16, says: &mut u8) -> u8
    ensures number { result ≡ (scale_report binary16 x power).number }
    ensures value { value.new ≡ after result (scale_report binary16 x power).value value.old }
    ensures says { says.new ≡ after result (says_number (scale_report binary16 x power).says) says.old }
{
    match scale(Binary16(x), power).answer {
        Ok(scaled) => {
            *value = scaled.value.low as u16;
            *says = scaled.says.into();
            0
        }
        Err(refused) => refused.why.into(),
    }
}

#[unsafe(no_mangle)]
pub extern "C" fn zk_scale32(x: u32, power: i32, value: &mut u32, says: &mut u8) -> u8
    ensures number { result ≡ (scale_report binary32 x power).number }
    ensures value { value.new ≡ after result (scale_report binary32 x power).value value.old }
    ensures says { says.new ≡ after result (says_number (scale_report binary32 x power).says) says.old }
{
    match scale(Binary32(x), power).answer {
        Ok(scaled) => {
            *value = scaled.value.low as u32;
            *says = scaled.says.into();
            0
        }
        Err(refused) => refused.why.into(),
    }
}

#[unsafe(no_mangle)]
pub extern "C" fn zk_scale64(x: u64, power: i32, value: &mut u64, says: &mut u8) -> u8
    ensures number { result ≡ (scale_report binary64 x power).number }
    ensures value { value.new ≡ after result (scale_report binary64 x power).value value.old }
    ensures says { says.new ≡ after result (says_number (scale_report binary64 x power).says) says.old }
{
    match scale(Binary64(x), power).answer {
        Ok(scaled) => {
            *value = scaled.value.low;
            *says = scaled.says.into();
            0
        }
        Err(refused) => refused.why.into(),
    }
}

#[unsafe(no_mangle)]
pub extern "C" fn zk_scale80(
    x: u64,
    xw: u16,
    power: i32,
    value: &mut u64,
    valuew: &mut u16,
    says: &mut u8,
) -> u8
    ensures number { result ≡ (scale_report x87 (words xw x) power).number }
    ensures value { value.new ≡ after result (significand_in (scale_report x87 (words xw x) power).value) value.old }
    ensures valuew { valuew.new ≡ after result (word_in (scale_report x87 (words xw x) power).value) valuew.old }
    ensures says { says.new ≡ after result (says_number (scale_report x87 (words xw x) power).says) says.old }
{
    let pattern = X87 {
        significand: x,
        word: xw,
    };
    match scale(pattern, power).answer {
        Ok(scaled) => {
            *value = scaled.value.low;
            *valuew = scaled.value.high as u16;
            *says = scaled.says.into();
            0
        }
        Err(refused) => refused.why.into(),
    }
}
