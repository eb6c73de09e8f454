// Folding of a list of binary64 patterns by one divisor, into lists that the caller lends. A list that is long enough prepares its divisor
// once, and its elements share the powers of two that they want. By a divisor that is not normal each element goes by a call of its own.
#![tactic(auto)]

ghost use Rattle.std.specs.Prelude.{◌≡◌, length, IfOk, IfErr};
ghost use Rattle.definitions.specs.Format.{binary64, class_of};
ghost use Rattle.definitions.specs.Numbers.{first};
ghost use Rattle.definitions.specs.Answers.{refusal_number};
ghost use Rattle.definitions.specs.Fold.{dividing_list, fold_list};
ghost use Rattle.fold.specs.Filled.{fold_meaning, Filled};

use checks::list::judge_divisor;
use definitions::{Kind, Refusal};
use formats::Binary64;
use packing::unpack::unpack;
use places::{Alone, Divisor, Places, Shared};
use prepared::WithPowers;
use quick::{field_of, spread};

// From so many elements on, preparing pays.
const LONG: usize = 8;

// Every place, and how many were marked.
fn fill<P: Places + Drop>(
    mut places: P,
    x: &[u64],
    results: &mut [u64],
    quotients: &mut [u8],
) -> usize
    requires { (length results.old ≡ length x.now) × (length quotients.old ≡ length x.now) }
    ensures { Filled (P.kind places) (P.divisor places) x.now results.new quotients.new result }
{
    let mut marked: usize = 0;
    for (i, dividend) in x.iter().enumerate() {
        let place = places.place(*dividend);
        results[i] = place.value;
        quotients[i] = place.byte;
        if place.is_marked() {
            marked += 1;
        }
    }
    marked
}

// Each list in the way that pays.
fn fold_places(
    x: &[u64],
    results: &mut [u64],
    quotients: &mut [u8],
    divisor: Divisor,
    kind: Kind,
) -> usize
    requires { (length results.old ≡ length x.now) × (length quotients.old ≡ length x.now) }
    ensures { Filled kind divisor.pattern x.now results.new quotients.new result }
{
    let alone = Alone { divisor, kind };
    if x.len() < LONG {
        return fill(alone, x, results, quotients);
    }
    let mut prepared = WithPowers::new(spread(divisor.pattern));
    let shared = Shared {
        alone,
        prepared: &mut prepared,
    };
    fill(shared, x, results, quotients)
}

// The divisor, or what it is refused for: 3 or 5. A normal number is neither NaN nor zero.
fn judge(y: u64) -> Result<Divisor, Refusal>
    ensures ok { IfOk result (λ d. d.pattern ≡ y) }
    ensures err { IfErr result (λ why. refusal_number why ≡ first (dividing_list (class_of binary64 y))) }
{
    let field = field_of(y);
    if 0 < field && field < 2047 {
        return Ok(Divisor { pattern: y });
    }
    judge_divisor(unpack(Binary64(y)).operand())?;
    Ok(Divisor { pattern: y })
}

// How many places have a NaN or infinite dividend. The lengths, 9, and the divisor, 3 and 5, are judged once, before anything is written.
pub fn fold64(
    x: &[u64],
    results: &mut [u64],
    quotients: &mut [u8],
    y: u64,
    kind: Kind,
) -> Result<usize, Refusal>
    ensures { fold_meaning result results.new quotients.new ≡ fold_list kind y x.now results.old quotients.old }
{
    if results.len() != x.len() || quotients.len() != x.len() {
        return Err(Refusal::BadLength);
    }
    let divisor = judge(y)?;
    Ok(fold_places(x, results, quotients, divisor, kind))
}
