//! `Ratio`, a part of a whole that prints with four decimals.
ghost use Rattle.std.specs.Prelude.{◌≡◌};
ghost use Rattle.bp_charts.specs.Ratio.{ten_thousandths};

use std::fmt;

/// A part of a whole, in ten-thousandths, rounded down: only a part that is the whole, or is more, is shown as `1.0000`
/// or above. A part of a whole of 0 is `0.0000`.
#[derive(Clone, Copy, Drop)]
pub struct Ratio {
    ten_thousandths: u128,
}

impl Ratio {
    pub fn of(part: u64, whole: u64) -> Ratio
        ensures { result.ten_thousandths ≡ ten_thousandths part whole }
    {
        let ten_thousandths = if whole == 0 {
            0
        } else {
            u128::from(part) * 10_000 / u128::from(whole)
        };
        Ratio { ten_thousandths }
    }
}

impl fmt::Display for Ratio {
    ghost use Rattle.std.specs.Prelude.{Some};
    ghost use Rattle.bp_charts.specs.Ratio.{decimals_text};

    ghost output = { λ ratio. Some (decimals_text ratio.ten_thousandths) };

    fn fmt<W: fmt::Write>(&self, f: &mut fmt::Formatter<W>) -> fmt::Result {
        let n = self.ten_thousandths;
        write!(
            f,
            "{}.{}{}{}{}",
            n / 10_000,
            n / 1_000 % 10,
            n / 100 % 10,
            n / 10 % 10,
            n % 10
        )
    }
}
