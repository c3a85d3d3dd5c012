ghost use Rattle.amounts.specs.Rounding.{Rounds, RoundsDown, nearest as nearest_of, rounded as rounded_of, rounded_down as rounded_down_of};
ghost use Rattle.std.specs.NonZero.{non_zero_u64_get};
ghost use Rattle.std.specs.Prelude.{◌≡◌};

use std::num::NonZeroU64;

/// A size `m ÷ d`: the whole quotient, and one more where the rest is at least half of `d`.
fn nearest(m: u64, d: NonZeroU64) -> u64
    ensures { result ≡ nearest_of m (non_zero_u64_get d) }
{
    let d = d.get();
    let rest = m % d;
    if rest >= d - rest { m / d + 1 } else { m / d }
}

/// `n ÷ d` to the nearest whole number; a half goes away from zero.
pub fn rounded(n: i64, d: NonZeroU64) -> i64
    ensures value { result ≡ rounded_of n (non_zero_u64_get d) }
    ensures nearest_half_away_from_zero { Rounds n (non_zero_u64_get d) result }
{
    let size = i128::from(nearest(n.unsigned_abs(), d));
    let signed = if n < 0 { -size } else { size };
    signed as i64
}

/// The largest whole number that is not above `n ÷ d`.
pub fn rounded_down(n: i64, d: NonZeroU64) -> i64
    ensures value { result ≡ rounded_down_of n (non_zero_u64_get d) }
    ensures largest_not_above { RoundsDown n (non_zero_u64_get d) result }
{
    i128::from(n).div_euclid(i128::from(d.get())) as i64
}

#[cfg(test)]
mod tests {
    use super::*;

    #[test]
    fn halves_go_away_from_zero(rt: HostRuntime) {
        let two = NonZeroU64::new(2).unwrap();
        assert_eq!(rt; rounded(5, two), 3);
        assert_eq!(rt; rounded(-5, two), -3);
        assert_eq!(rt; rounded(1, two), 1);
        assert_eq!(rt; rounded(-1, two), -1);
        assert_eq!(rt; rounded(4, two), 2);
    }

    #[test]
    fn other_quotients_go_to_the_nearest(rt: HostRuntime) {
        let three = NonZeroU64::new(3).unwrap();
        assert_eq!(rt; rounded(4, three), 1);
        assert_eq!(rt; rounded(-5, three), -2);
    }

    #[test]
    fn rounding_down_goes_below(rt: HostRuntime) {
        let two = NonZeroU64::new(2).unwrap();
        assert_eq!(rt; rounded_down(5, two), 2);
        assert_eq!(rt; rounded_down(-5, two), -3);
        assert_eq!(rt; rounded_down(-4, two), -2);
    }

    #[test]
    fn both_take_every_amount_and_divisor(rt: HostRuntime) {
        assert_eq!(rt; rounded(i64::MIN, NonZeroU64::MIN), i64::MIN);
        assert_eq!(rt; rounded(i64::MAX, NonZeroU64::MIN), i64::MAX);
        assert_eq!(rt; rounded(i64::MIN, NonZeroU64::MAX), -1);
        assert_eq!(rt; rounded(i64::MAX, NonZeroU64::MAX), 0);
        assert_eq!(rt; rounded_down(i64::MIN, NonZeroU64::MIN), i64::MIN);
        assert_eq!(rt; rounded_down(i64::MIN, NonZeroU64::MAX), -1);
    }
}
