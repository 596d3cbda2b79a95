//! `Failures`: a port's count of the failures of its device.
ghost use Rattle.std.specs.Prelude.{◌≡◌, ℕ};
ghost use Rattle.bp_ports.specs.Ports.{Counts, IsCounted};

use bp_page::PortFault;
use std::marker::Model;

/// The number of failures, up to 2^64 − 1, where it stays.
#[derive(Drop)]
pub struct Failures {
    count: u64,
}

impl Model for Failures {
    ghost Value = { ℕ };

    ghost view = { λ failures. failures.count };
}

impl Failures {
    /// Nothing has failed yet.
    pub fn none() -> Failures
        ensures { result ≡ 0 }
    {
        Failures { count: 0 }
    }

    /// The number of failures.
    pub fn count(&self) -> u64
        ensures { result ≡ self.now }
    {
        self.count
    }

    /// Counts one more failure, and returns its fault, `Device`.
    pub fn add(&mut self) -> PortFault
        ensures fault { result ≡ PortFault.Device }
        ensures counted { IsCounted self.old self.new }
    {
        if self.count < u64::MAX {
            self.count += 1;
        }
        PortFault::Device
    }

    /// Passes on the outcome of a call on another port, and counts a `Device` fault as one of this port.
    pub fn count_failure<T>(&mut self, outcome: Result<T, PortFault>) -> Result<T, PortFault>
        ensures same { result ≡ outcome }
        ensures counts { Counts result self.old self.new }
    {
        match outcome {
            Ok(done) => Ok(done),
            Err(PortFault::Memory) => Err(PortFault::Memory),
            Err(PortFault::WrongPage) => Err(PortFault::WrongPage),
            Err(PortFault::Device) => Err(self.add()),
        }
    }
}
