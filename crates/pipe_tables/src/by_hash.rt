//! Keys that are marked by hashes of their codes.

ghost use Rattle.std.specs.Prelude.{◌≡◌};
ghost use Rattle.pipe_chains.specs.Hash.{hash_of};
ghost use Rattle.pipe_tables.specs.Hashes.{hash_once};

use pipe_columns::DataType;
use pipe_keyed::Marking;

/// The mark of a key is the hash of its code. Of any types keys can be found that have one hash.
pub(crate) struct ByHash;

impl Marking for ByHash {
    ghost marks = { λ types code mark. mark ≡ hash_of code };

    ghost once = { hash_once };

    ghost can_hide = { λ types. Unit {0} };

    fn can_hide(_types: &[DataType]) -> bool {
        true
    }
}
