//! `PartPass`: a pass of a page in its part.
ghost use Rattle.std.specs.Prelude.{◌≡◌};

use bp_core::Pass;

/// A pass of a page of a pool in parts: the number of the part, and the pass that this part's pool gave. It has to be
/// spent, as a pass has.
pub struct PartPass {
    pub(crate) part: u8,
    pub(crate) pass: Pass,
}

impl PartPass {
    ghost use Rattle.std.specs.Prelude.{◌≡◌};

    /// Returns the number of the part.
    pub fn part(&self) -> u8
        ensures { result ≡ self.now.part }
    {
        self.part
    }

    /// Lends the pass of the part's pool.
    pub fn pass(&self) -> &Pass
        ensures { result.now ≡ self.now.pass }
    {
        &self.pass
    }

    /// Returns the number of the part and the pass of its pool, which is to be spent there.
    pub fn into_pass(self) -> (u8, Pass)
        ensures { result ≡ (self.part, self.pass) }
    {
        let PartPass { part, pass } = self;
        (part, pass)
    }
}
