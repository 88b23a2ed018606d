//! Whole numbers.
ghost use Rattle.std.specs.Prelude.{◌≡◌, option_map};
ghost use Rattle.liquid_model.specs.Front.{integer_at};

use crate::scan::{number_goes_on, number_len};
use crate::whole_of;

/// A number: an optional sign and digits, within 64 bits. It isn't one where a letter or a fraction
/// follows.
#[tactic(auto, unfolding(crate::specs::Front::integer_at), using(crate::proofs::Cuts::number_cut))]
pub fn number(text: &str) -> Option<(i64, &str)>
    ensures { option_map (λ x. (x.0, x.1.now)) result ≡ integer_at text.now }
{
    let (spelling, rest) = text.split_at(number_len(text.as_bytes()));
    if number_goes_on(rest.as_bytes()) {
        return None;
    }
    Some((whole_of(spelling)?, rest))
}
