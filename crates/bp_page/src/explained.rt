//! The text of each refusal number. Faults of traces and of lists of references have numbers of the same series.
ghost use Rattle.std.specs.Prelude.{◌≡◌, option_map};
ghost use Rattle.bp_page.specs.Explained.{explanation_of};

/// Returns the text of the refusal or fault with this number: one line without its end. `None` where none has it.
pub fn explanation_of(number: u64) -> Option<&'static str>
    ensures { option_map (λ text. text.now) result ≡ explanation_of number }
{
    match number {
        1 => Some(
            "the number of pages, as of different references, or the page size is out of its limits",
        ),
        2 => Some("a setting of the pool is out of its limits"),
        3 => Some("the page file is no positive number of whole pages, or has too many"),
        11 => Some("no page may leave its frame"),
        12 => Some("the log must first be durable as far as the page was changed"),
        13 => Some("a device operation on the page is under way"),
        14 => Some("no such pass is out"),
        16 => Some("no such ticket is out"),
        17 => Some("the page could not be read"),
        18 => Some("the page could not be written"),
        19 => Some("the page's place in its file has another page"),
        20 => Some("the trail has no room for the call"),
        21 => Some("the clock would pass its end"),
        22 => Some("out of memory"),
        23 => Some("the ring of passes to give back is full"),
        24 => Some("a mark came before the log rows of client 0 allow it"),
        25 => Some("the page is pinned"),
        40 => Some(
            "a record does not have the fields of its operation, or lacks the column of a sweep",
        ),
        41 => Some("no client has this number here"),
        42 => Some("no operation has this name"),
        43 => Some("a field is not a number within the limits"),
        44 => Some("the bytes are not pairs of hexadecimal digits"),
        45 => Some("the page is not of the file, or the bytes are not within the page"),
        46 => Some("the trace or the list of references is too long"),
        47 => Some("the trace or the list of references could not be read"),
        _ => None,
    }
}
