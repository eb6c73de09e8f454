// The exports of the remainder with the sign of its quotient, a function a format.
#![tactic(auto)]

ghost use Rattle.std.specs.Prelude.{◌≡◌};
ghost use Rattle.definitions.specs.Format.{binary16, binary32, binary64, x87, words};
ghost use Rattle.definitions.specs.Signed.{signed_remainder};
ghost use Rattle.definitions.specs.Block.{kind_of};
ghost use Rattle.definitions.specs.Exports.{after, significand_in, word_in};

use formats::{Binary16, Binary32, Binary64, X87};
use remquo::patterns::remquo;

#[unsafe(no_mangle)]
pub extern "C" fn zk_remquo16(x: u16, y: u16, kind: u32, value: &mut u16, quotient: &mut i32) -> u8
    ensures number { result ≡ (signed_remainder binary16 (kind_of kind) x y).number }
    ensures value { value.new ≡ after result (signed_remainder binary16 (kind_of kind) x y).value value.old }
    ensures quotient { quotient.new ≡ after result (signed_remainder binary16 (kind_of kind) x y).quotient quotient.old }
{
    let told = remquo(Binary16(x), Binary16(y), kind.into());
    match told.answer {
        Ok(residue) => {
            *value = residue.value.low as u16;
            *quotient = residue.quotient;
            0
        }
        Err(refused) => refused.why.into(),
    }
}

#[unsafe(no_mangle)]
pub extern "C" fn zk_remquo32(x: u32, y: u32, kind: u32, value: &mut u32, quotient: &mut i32) -> u8
    ensures number { result ≡ (signed_remainder binary32 (kind_of kind) x y).number }
    ensures value { value.new ≡ after result (signed_remainder binary32 (kind_of kind) x y).value value.old }
    ensures quotient { quotient.new ≡ after result (signed_remainder binary32 (kind_of kind) x y).quotient quotient.old }
{
    let told = remquo(Binary32(x), Binary32(y), kind.into());
    match told.answer {
        Ok(residue) => {
            *value = residue.value.low as u32;
            *quotient = residue.quotient;
            0
        }
        Err(refused) => refused.why.into(),
    }
}

#[unsafe(no_mangle)]
pub extern "C" fn zk_remquo64(x: u64, y: u64, kind: u32, value: &mut u64, quotient: &mut i32) -> u8
    ensures number { result ≡ (signed_remainder binary64 (kind_of kind) x y).number }
    ensures value { value.new ≡ after result (signed_remainder binary64 (kind_of kind) x y).value value.old }
    ensures quotient { quotient.new ≡ after result (signed_remainder binary64 (kind_of kind) x y).quotient quotient.old }
{
    let told = remquo(Binary64(x), Binary64(y), kind.into());
    match told.answer {
        Ok(residue) => {
            *value = residue.value.low;
            *quotient = residue.quotient;
            0
        }
        Err(refused) => refused.why.into(),
    }
}

#[unsafe(no_mangle)]
pub extern "C" fn zk_remquo80(
    x: u64,
    xw: u16,
    y: u64,
    yw: u16,
    kind: u32,
    value: &mut u64,
    valuew: &mut u16,
    quotient: &mut i32,
) -> u8
    ensures number { result ≡ (signed_remainder x87 (kind_of kind) (words xw x) (words yw y)).number }
    ensures value { value.new ≡ after result (significand_in (signed_remainder x87 (kind_of kind) (words xw x) (words yw y)).value) value.old }
    ensures valuew { valuew.new ≡ after result (word_in (signed_remainder x87 (kind_of kind) (words xw x) (words yw y)).value) valuew.old }
    ensures quotient { quotient.new ≡ after result (signed_remainder x87 (kind_of kind) (words xw x) (words yw y)).quotient quotient.old }
{
    let dividend = X87 {
        significand: x,
        word: xw,
    };
    let divisor = X87 {
        significand: y,
        word: yw,
    };
    let told = remquo(dividend, divisor, kind.into());
    match told.answer {
        Ok(residue) => {
            *value = residue.value.low;
            *valuew = residue.value.high as u16;
            *quotient = residue.quotient;
            0
        }
        Err(refused) => refused.why.into(),
    }
}
