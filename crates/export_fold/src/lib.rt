// The export of the fold of a list of binary64 patterns.
#![tactic(auto)]

ghost use Rattle.std.specs.Prelude.{◌≡◌};
ghost use Rattle.definitions.specs.Fold.{fold_list};
ghost use Rattle.definitions.specs.Block.{kind_of};
ghost use Rattle.definitions.specs.Exports.{after};

use fold::fold64;

#[unsafe(no_mangle)]
pub extern "C" fn zk_fold64(
    x: &[u64],
    results: &mut [u64],
    quotients: &mut [u8],
    y: u64,
    kind: u32,
    marked: &mut usize,
) -> u8
    ensures number { result ≡ (fold_list (kind_of kind) y x.now results.old quotients.old).number }
    ensures results { results.new ≡ (fold_list (kind_of kind) y x.now results.old quotients.old).results }
    ensures quotients { quotients.new ≡ (fold_list (kind_of kind) y x.now results.old quotients.old).quotients }
    ensures marked { marked.new ≡ after result (fold_list (kind_of kind) y x.now results.old quotients.old).marked marked.old }
{
    match fold64(x, results, quotients, y, kind.into()) {
        Ok(count) => {
            *marked = count;
            0
        }
        Err(why) => why.into(),
    }
}
