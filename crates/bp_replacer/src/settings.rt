//! `Settings`: K of LRU-K, and its correlated and retained periods, within limits.
ghost use Rattle.std.specs.Prelude.{◌≡◌, ◌↔◌, IsOk, IfOk, OnErr};
ghost use Rattle.bp_replacer.specs.Limits.{IsWithinLimits};

use bp_page::Refusal;

/// The greatest K.
pub const MAX_STAMPS: usize = 16;

/// The longest correlated or retained period, in ticks.
pub const MAX_PERIOD: u64 = 1 << 62;

/// The K of LRU-K, with its correlated and its retained period in ticks. References of a page that come no more than
/// the correlated period after one another count as one, and a purge forgets what is known of a page that is away, once
/// its newest reference is more than the retained period back.
#[derive(Clone, Copy, Debug)]
pub struct Settings {
    /// The number of stamps that are kept of a page: K, 1 to 16.
    pub k: usize,
    /// The correlated period, 0 to 2^62 ticks of the clock.
    pub correlated: u64,
    /// The retained period, 0 to 2^62 ticks of the clock.
    pub retained: u64,
    /// All three are within these limits.
    pub ghost in_limits: { IsWithinLimits k correlated retained },
}

impl Settings {
    /// Takes K from 1 to 16, and periods from 0 to 2^62 ticks. Anything else is `BadSettings`.
    pub fn new(k: usize, correlated: u64, retained: u64) -> Result<Settings, Refusal>
        ensures accepted { IsOk result ↔ IsWithinLimits k correlated retained }
        ensures refused { OnErr result (result ≡ Err Refusal.BadSettings) }
        ensures k { IfOk result (λ settings. settings.k ≡ k) }
        ensures correlated { IfOk result (λ settings. settings.correlated ≡ correlated) }
        ensures retained { IfOk result (λ settings. settings.retained ≡ retained) }
    {
        if k < 1 || k > MAX_STAMPS || correlated > MAX_PERIOD || retained > MAX_PERIOD {
            return Err(Refusal::BadSettings);
        }
        Ok(Settings {
            k,
            correlated,
            retained,
        })
    }
}
