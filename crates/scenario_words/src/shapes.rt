//! Lines that make something, and the numbers that it is made with.

use std::alloc::Global;

/// The way in which a scenario is played: how its cores keep their trails.
#[derive(Clone, Copy)]
pub enum Way {
    /// The trail is kept whole, and cut where a line says so.
    Whole,
    /// The trail is cut after each call.
    Pieces,
    /// Entries are only counted.
    Counted,
}

/// The ways in which a core of a line is made.
#[derive(Clone, Copy)]
pub enum Keeps {
    /// In each way.
    Each,
    /// Only in the first way, with its trail whole.
    Whole,
    /// Only in the first way, where it counts its entries.
    Counted,
}

#[derive(Clone, Copy)]
pub enum Thing {
    Core,
    /// A core with a device of its own, whose fixes and flushes are done by drivers.
    Driven,
    /// A pool with one owner, and a device of its own.
    Owned,
    /// A pool that sessions use in turn.
    Pool,
    /// A pool that client threads use by rows of a trace.
    Run,
    Histories,
    Candidates,
    /// A list of entries for the judge of trails.
    Judged,
}

/// The numbers of a line that makes something.
#[derive(Clone, Copy)]
pub struct Shape {
    pub keeps: Keeps,
    pub frames: usize,
    pub clients: u8,
    pub pages: u64,
    pub size: usize,
    pub k: usize,
    pub correlated: u64,
    pub retained: u64,
    pub room: usize,
    /// The number of the device's call that fails, from 1, or 0 for none; and whether a failing write spoils its page.
    pub fuse: u64,
    pub spoils: bool,
    /// How often a port's call looks for a call of the other port before it gives up; 0 where ports do not wait.
    pub turns: u64,
}

/// The numbers of a line that names none: one frame over sixteen pages of sixteen bytes, two clients and LRU-2.
const USUAL: Shape = Shape {
    keeps: Keeps::Each,
    frames: 1,
    clients: 2,
    pages: 16,
    size: 16,
    k: 2,
    correlated: 0,
    retained: 1000,
    room: 10_000,
    fuse: 0,
    spoils: false,
    turns: 0,
};

impl Shape {
    /// Sets one of the numbers. It returns false where there is none of this name, or the word is no number or no
    /// client's.
    fn set(&mut self, name: &str, word: &str) -> bool {
        let Ok(number) = word.parse::<u64>() else {
            return false;
        };
        match name {
            "frames" => self.frames = number as usize,
            "clients" => match u8::try_from(number) {
                Ok(clients) => self.clients = clients,
                Err(_) => return false,
            },
            "pages" => self.pages = number,
            "size" => self.size = number as usize,
            "k" => self.k = number as usize,
            "correlated" => self.correlated = number,
            "retained" => self.retained = number,
            "room" => {
                self.keeps = Keeps::Whole;
                self.room = number as usize;
            }
            "counted" => {
                self.keeps = Keeps::Counted;
                self.room = number as usize;
            }
            "turns" => self.turns = number,
            "fuse" => self.fuse = number,
            "spoiling_fuse" => {
                self.fuse = number;
                self.spoils = true;
            }
            _ => return false,
        }
        true
    }
}

/// Parses names of numbers, each before its number. It returns None where that is wrong, or memory is refused.
fn shape_of(alloc: Global, text: &str) -> Option<Shape> {
    let words: Vec<&str> = text.split_whitespace().collect(alloc).ok()?;
    let mut shape = USUAL;
    let mut fits = true;
    for pair in words.chunks(2) {
        fits = match *pair {
            [name, number] => fits && shape.set(name, number),
            _ => false,
        };
    }
    if fits { Some(shape) } else { None }
}

fn thing_of(word: &str) -> Option<Thing> {
    match word {
        "core" => Some(Thing::Core),
        "driven" => Some(Thing::Driven),
        "owned" => Some(Thing::Owned),
        "pool" => Some(Thing::Pool),
        "run" => Some(Thing::Run),
        "histories" => Some(Thing::Histories),
        "candidates" => Some(Thing::Candidates),
        "judged" => Some(Thing::Judged),
        _ => None,
    }
}

/// Parses a line that makes something. It returns None where it makes nothing, or memory is refused.
pub fn maker_of(alloc: Global, line: &str) -> Option<(Thing, Shape)> {
    let (word, numbers) = line.split_once(' ').unwrap_or((line, ""));
    let thing = thing_of(word)?;
    let shape = shape_of(alloc, numbers)?;
    Some((thing, shape))
}
