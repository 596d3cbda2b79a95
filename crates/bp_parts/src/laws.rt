//! A law that follows from the clauses of a pool's calls. The function does nothing: its contract is the law.
ghost use Rattle.std.specs.Prelude.{ℕ, ◌<◌, ◌*◌};
ghost use Rattle.bp_ports.specs.Stripes.{StripedView};
ghost use Rattle.bp_parts.specs.Flushes.{FlushesParts, ReachesInPart};
ghost use Rattle.bp_parts.specs.Parts.{PartedValue};

use crate::pool::PartCount;
use bp_keeper::ListKeeper;
use bp_ports::Store;
use bp_shared::PartNames;

/// A `flush_all` of all parts that ended well left out no page of the file: the client's list in the page's part has a
/// flush of the page that was answered, or the call looked at that part's trail, in which the page was not unsaved then.
pub fn flush_all_of_parts_reaches_each_page<N: PartNames + PartCount, S: Store, K: ListKeeper>()
    ensures { (old new : PartedValue) (port after : StripedView S) (page : ℕ)
        → FlushesParts (record {
          refuses = K.REFUSES;
          parameters = N.parameters;
          start = N.past;
          reads = S.reads;
          writes = S.writes;
        }) old port N.parts new after
        → page < N.parts * N.parameters.pages
        → ReachesInPart (record { parameters = N.parameters; start = N.past }) N.parts page old new }
{}
