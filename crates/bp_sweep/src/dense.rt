//! `References`, a list of references whose pages are numbered from 0 without gaps.
ghost use Rattle.std.specs.Prelude.{◌≡◌, ◌<◌, ◌≤◌, [], ℕ, List, All};
ghost use Rattle.bp_sweep.specs.Dense.{IsIndex, PlacesNumber};
ghost use Rattle.bp_sweep.specs.Gathering.{Gathers, Holds, IsGathered, pages_gathered};

use crate::faults::ReferenceFault;
use bp_trace::InputFault;
use std::alloc::Global;
use std::collections::HashMap;
use std::marker::Model;

/// The most references that a list may have.
pub const MAX_REFERENCES: usize = 268_435_456;

/// The most different numbers that a list may have.
pub const MAX_NUMBERS: usize = 1_048_576;

/// A list of references to pages. The pages are numbered from 0 in the order of their first references, so two
/// references have the same page exactly where the list had the same number. It takes four bytes a reference.
#[derive(Drop)]
pub struct References {
    pages: Vec<u32>,
    different: usize,
}

impl Model for References {
    ghost use Rattle.bp_sweep.specs.Dense.{ArePages, Pages};

    ghost Value = { Pages };

    ghost view = { λ r. record { pages = r.pages.items; different = r.different } };

    ghost invariant = { λ r. ArePages r.pages.items r.different };
}

impl References {
    pub fn pages(&self) -> &[u32]
        ensures pages { result.now ≡ self.now.pages }
        ensures in_range { All (λ page. page < self.now.different) result.now }
    {
        self.pages.as_slice()
    }

    /// Returns the number of different pages, at most 1,048,576.
    pub fn different(&self) -> usize
        ensures count { result ≡ self.now.different }
        ensures few { result ≤ MAX_NUMBERS }
    {
        self.different
    }
}

/// Returns the page of a number. A new number gets the next page.
fn place_number(places: &mut HashMap<u64, u32>, number: u64) -> Result<u32, InputFault>
    ensures { (seen : List ℕ) → IsIndex places.old seen →
        PlacesNumber number seen result places.new }
{
    if let Some(page) = places.get(&number).copied() {
        return Ok(page);
    }
    let page = places.len();
    if page >= MAX_NUMBERS {
        return Err(InputFault::TooManyPages);
    }
    match places.insert(number, page as u32) {
        Ok(_) => Ok(page as u32),
        Err(_) => Err(InputFault::OutOfMemory),
    }
}

/// References that are still being read: the pages so far, and the page of each number.
#[derive(Drop)]
pub struct Gathered {
    pages: Vec<u32>,
    places: HashMap<u64, u32>,
}

impl Gathered {
    pub(crate) fn new(alloc: Global) -> Gathered
        ensures { Holds result [] [] }
    {
        Gathered {
            pages: Vec::new(alloc),
            places: HashMap::new(alloc),
        }
    }

    /// Adds the reference of a line, which says a number or why it says none. At a fault no reference is added.
    pub(crate) fn add(
        &mut self,
        line: u64,
        said: Result<u64, InputFault>,
    ) -> Result<(), ReferenceFault>
        ensures { (numbers seen : List ℕ) → Holds self.old numbers seen →
            Gathers numbers seen line said result self.new }
    {
        if self.pages.len() >= MAX_REFERENCES {
            return Err(ReferenceFault::new(line, InputFault::TooLong));
        }
        let number = match said {
            Ok(number) => number,
            Err(why) => return Err(ReferenceFault::new(line, why)),
        };
        let page = match place_number(&mut self.places, number) {
            Ok(page) => page,
            Err(why) => return Err(ReferenceFault::new(line, why)),
        };
        match self.pages.push(page) {
            Ok(()) => Ok(()),
            Err(_) => Err(ReferenceFault::new(line, InputFault::OutOfMemory)),
        }
    }

    pub(crate) fn into_references(self) -> References
        requires { IsGathered self }
        ensures { result ≡ pages_gathered self }
    {
        let Gathered { pages, places } = self;
        References {
            pages,
            different: places.len(),
        }
    }
}
