//! `PageNo` and `Lsn`, the numbers of pages and of log records.
ghost use Rattle.std.specs.Prelude.{◌≡◌, ℕ, max};

use std::fmt;
use std::marker::Model;

/// The number of a page in its file, from 0.
#[derive(Clone, Copy, PartialEq, Eq, PartialOrd, Ord, Debug, Drop)]
pub struct PageNo {
    number: u64,
}

impl Model for PageNo {
    ghost Value = { ℕ };

    ghost view = { λ page. page.number };

    ghost inverse = { λ n. record { number = n } };
}

impl PageNo {
    /// Takes any number: `Geometry::page` tells whether a file has the page.
    pub fn new(number: u64) -> PageNo
        ensures { result ≡ number }
    {
        PageNo { number }
    }

    pub fn number(self) -> u64
        ensures { result ≡ self }
    {
        self.number
    }
}

impl fmt::Display for PageNo {
    fn fmt<W: fmt::Write>(&self, f: &mut fmt::Formatter<W>) -> fmt::Result {
        let number = self.number;
        write!(f, "{number}")
    }
}

/// A log sequence number: the place of a record in the log (Gray and Reuter, chapter 13). The page LSN is that of the
/// record that the log must hold before the page may go out.
#[derive(Clone, Copy, PartialEq, Eq, PartialOrd, Ord, Debug, Drop)]
pub struct Lsn {
    number: u64,
}

impl Model for Lsn {
    ghost Value = { ℕ };

    ghost view = { λ lsn. lsn.number };

    ghost inverse = { λ n. record { number = n } };
}

impl Lsn {
    pub fn new(number: u64) -> Lsn
        ensures { result ≡ number }
    {
        Lsn { number }
    }

    pub fn number(self) -> u64
        ensures { result ≡ self }
    {
        self.number
    }

    pub fn max(self, other: Lsn) -> Lsn
        ensures { result ≡ max self other }
    {
        if self < other { other } else { self }
    }
}

impl fmt::Display for Lsn {
    fn fmt<W: fmt::Write>(&self, f: &mut fmt::Formatter<W>) -> fmt::Result {
        let number = self.number;
        write!(f, "{number}")
    }
}
