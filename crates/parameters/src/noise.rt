// The noise bound B, compared up to 2^31, and the headroom.
ghost use Rattle.std.specs.Prelude.{◌≡◌, true, min};
ghost use Rattle.definitions.specs.Parameters.{range_fits, ring_fits, degree_fits, bound, limits_of};
ghost use Rattle.parameters.specs.Answers.{set_from, numbers_from, limits_from};

use super::{Parameters, SetLimits, SetNumbers};

// What stands for B where B is more: no q that a set may have is larger.
const CAP: u64 = 2147483648;

// B, or 2^31 where B is more. The terms are added one by one, and the sum stops once it reaches 2^31, so every step fits 64 bits:
// a term is at most 122,880 times the term before it, which is part of the sum.
pub fn capped_bound(set: SetNumbers) -> u32
    requires range { range_fits (numbers_from set) ≡ true }
    requires ring { ring_fits (numbers_from set) ≡ true }
    requires degrees { degree_fits (numbers_from set) ≡ true }
    ensures { result ≡ min (bound (numbers_from set)) 2147483648 }
{
    let l = set.l as u64;
    let n = set.n as u64;
    let last = (set.dx + set.dr) as u64;
    let mut sum = l - 1;
    let mut power = l - 1;
    for k in 0..last + 1 {
        sum += l * ((k + 1) * power);
        if CAP <= sum {
            return CAP as u32;
        }
        power *= n * (l - 1);
    }
    sum as u32
}

// The noise bound and the headroom.
pub fn limits(p: Parameters) -> SetLimits
    ensures { limits_from result ≡ limits_of (set_from p) }
{
    let bound = capped_bound(p.set);
    SetLimits {
        bound,
        headroom: (p.set.q - 1) / bound,
    }
}
