// The exports of the remainder in one call, a function a format.
#![tactic(auto)]

ghost use Rattle.std.specs.Prelude.{◌≡◌};
ghost use Rattle.definitions.specs.Format.{binary16, binary32, binary64, x87, words};
ghost use Rattle.definitions.specs.Remainder.{remainder};
ghost use Rattle.definitions.specs.Block.{kind_of};
ghost use Rattle.definitions.specs.Exports.{after, significand_in, word_in};

use formats::{Binary16, Binary32, Binary64, X87};
use remainder::patterns::Remainder;

#[unsafe(no_mangle)]
pub extern "C" fn zk_rem16(x: u16, y: u16, kind: u32, value: &mut u16, quotient: &mut u32) -> u8
    ensures number { result ≡ (remainder binary16 (kind_of kind) x y).number }
    ensures value { value.new ≡ after result (remainder binary16 (kind_of kind) x y).value value.old }
    ensures quotient { quotient.new ≡ after result (remainder binary16 (kind_of kind) x y).quotient quotient.old }
{
    let told = Binary16(x).remainder(Binary16(y), kind.into());
    match told.answer {
        Ok(residue) => {
            *value = residue.value.low as u16;
            *quotient = residue.quotient;
            0
        }
        Err(refused) => refused.why.into(),
    }
}

#[unsafe(no_mangle)]
pub extern "C" fn zk_rem32(x: u32, y: u32, kind: u32, value: &mut u32, quotient: &mut u32) -> u8
    ensures number { result ≡ (remainder binary32 (kind_of kind) x y).number }
    ensures value { value.new ≡ after result (remainder binary32 (kind_of kind) x y).value value.old }
    ensures quotient { quotient.new ≡ after result (remainder binary32 (kind_of kind) x y).quotient quotient.old }
{
    let told = Binary32(x).remainder(Binary32(y), kind.into());
    match told.answer {
        Ok(residue) => {
            *value = residue.value.low as u32;
            *quotient = residue.quotient;
            0
        }
        Err(refused) => refused.why.into(),
    }
}

#[unsafe(no_mangle)]
pub extern "C" fn zk_rem64(x: u64, y: u64, kind: u32, value: &mut u64, quotient: &mut u32) -> u8
    ensures number { result ≡ (remainder binary64 (kind_of kind) x y).number }
    ensures value { value.new ≡ after result (remainder binary64 (kind_of kind) x y).value value.old }
    ensures quotient { quotient.new ≡ after result (remainder binary64 (kind_of kind) x y).quotient quotient.old }
{
    let told = Binary64(x).remainder(Binary64(y), kind.into());
    match told.answer {
        Ok(residue) => {
            *value = residue.value.low;
            *quotient = residue.quotient;
            0
        }
        Err(refused) => refused.why.into(),
    }
}

#[unsafe(no_mangle)]
pub extern "C" fn zk_rem80(
    x: u64,
    xw: u16,
    y: u64,
    yw: u16,
    kind: u32,
    value: &mut u64,
    valuew: &mut u16,
    quotient: &mut u32,
) -> u8
    ensures number { result ≡ (remainder x87 (kind_of kind) (words xw x) (words yw y)).number }
    ensures value { value.new ≡ after result (significand_in (remainder x87 (kind_of kind) (words xw x) (words yw y)).value) value.old }
    ensures valuew { valuew.new ≡ after result (word_in (remainder x87 (kind_of kind) (words xw x) (words yw y)).value) valuew.old }
    ensures quotient { quotient.new ≡ after result (remainder x87 (kind_of kind) (words xw x) (words yw y)).quotient quotient.old }
{
    let dividend = X87 {
        significand: x,
        word: xw,
    };
    let divisor = X87 {
        significand: y,
        word: yw,
    };
    let told = dividend.remainder(divisor, kind.into());
    match told.answer {
        Ok(residue) => {
            *value = residue.value.low;
            *valuew = residue.value.high as u16;
            *quotient = residue.quotient;
            0
        }
        Err(refused) => refused.why.into(),
    }
}
