// Splitting into a significand and an exponent, for each format.
ghost use Rattle.std.specs.Prelude.{◌≡◌};
ghost use Rattle.definitions.specs.Format.{binary16, binary32, binary64, x87, words};
ghost use Rattle.definitions.specs.Scale.{split_report};
ghost use Rattle.definitions.specs.Exports.{after, significand_in, word_in};

use formats::{Binary16, Binary32, Binary64, X87};
use scaling::split::split;

#[unsafe(no_mangle)]
pub extern "C" fn zk_split16(x: u16, significand: &mut u16, exponent: &mut i32) -> u8
    ensures number { result ≡ (split_report binary16 x).number }
    ensures significand { significand.new ≡ after result (split_report binary16 x).significand significand.old }
    ensures exponent { exponent.new ≡ after result (split_report binary16 x).exponent exponent.old }
{
    match split(Binary16(x)).answer {
        Ok(parts) => {
            *significand = parts.significand.low as u16;
            *exponent = parts.exponent;
            0
        }
        Err(refused) => refused.why.into(),
    }
}

#[unsafe(no_mangle)]
pub extern "C" fn zk_split32(x: u32, significand: &mut u32, exponent: &mut i32) -> u8
    ensures number { result ≡ (split_report binary32 x).number }
    ensures significand { significand.new ≡ after result (split_report binary32 x).significand significand.old }
    ensures exponent { exponent.new ≡ after result (split_report binary32 x).exponent exponent.old }
{
    match split(Binary32(x)).answer {
        Ok(parts) => {
            *significand = parts.significand.low as u32;
            *exponent = parts.exponent;
            0
        }
        Err(refused) => refused.why.into(),
    }
}

#[unsafe(no_mangle)]
pub extern "C" fn zk_split64(x: u64, significand: &mut u64, exponent: &mut i32) -> u8
    ensures number { result ≡ (split_report binary64 x).number }
    ensures significand { significand.new ≡ after result (split_report binary64 x).significand significand.old }
    ensures exponent { exponent.new ≡ after result (split_report binary64 x).exponent exponent.old }
{
    match split(Binary64(x)).answer {
        Ok(parts) => {
            *significand = parts.significand.low;
            *exponent = parts.exponent;
            0
        }
        Err(refused) => refused.why.into(),
    }
}

#[unsafe(no_mangle)]
pub extern "C" fn zk_split80(
    x: u64,
    xw: u16,
    significand: &mut u64,
    significandw: &mut u16,
    exponent: &mut i32,
) -> u8
    ensures number { result ≡ (split_report x87 (words xw x)).number }
    ensures significand { significand.new ≡ after result (significand_in (split_report x87 (words xw x)).significand) significand.old }
    ensures significandw { significandw.new ≡ after result (word_in (split_report x87 (words xw x)).significand) significandw.old }
    ensures exponent { exponent.new ≡ after result (split_report x87 (words xw x)).exponent exponent.old }
{
    let pattern = X87 {
        significand: x,
        word: xw,
    };
    match split(pattern).answer {
        Ok(parts) => {
            *significand = parts.significand.low;
            *significandw = parts.significand.high as u16;
            *exponent = parts.exponent;
            0
        }
        Err(refused) => refused.why.into(),
    }
}
