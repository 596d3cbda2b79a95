//! For each reference, the time of the next reference of the same page.
ghost use Rattle.std.specs.Prelude.{◌≡◌, ◌+◌, ◌<◌, ◌≤◌, ℕ, All, IfOk, length, slice_index, vec_len};
ghost use Rattle.bp_charts.specs.Due.{AreDue, BeginsDue};

use std::alloc::{AllocError, Global};

/// Returns one more than the greatest page number, or 0 where there are no references.
pub(crate) fn page_bound(references: &[u32]) -> usize
    ensures pages { All (λ page. page < result) references.now }
    ensures few { result ≤ 4294967296 }
{
    let mut bound = 0;
    for page in references {
        bound = bound.max(*page as usize + 1);
    }
    bound
}

/// Returns for each page a time after all of the `count` references, no two the same: `count` plus the page's number.
fn after_all(alloc: Global, pages: usize, count: usize) -> Result<Vec<u64>, AllocError>
    requires pages { pages ≤ 4294967296 }
    requires count { count ≤ 2305843009213693952 }
    ensures { IfOk result (λ latest. BeginsDue pages count latest.items) }
{
    let mut latest = Vec::with_capacity(alloc, pages)?;
    for page in 0..pages {
        latest.push((count + page) as u64)?;
    }
    Ok(latest)
}

/// Returns for each reference when its page is referenced next: the index of that reference, or, where there is none,
/// the number of references plus the page's number.
pub(crate) fn next_due(
    alloc: Global,
    references: &[u32],
    pages: usize,
) -> Result<Vec<u64>, AllocError>
    requires pages { All (λ page. page < pages) references.now }
    requires few { pages ≤ 4294967296 }
    requires count { length references.now ≤ 2305843009213693952 }
    ensures { IfOk result (λ next. AreDue references.now next.items) }
{
    let count = references.len();
    let mut latest = after_all(alloc, pages, count)?;
    let mut next = vec![in alloc; 0; count]?;
    for step in 0..count {
        let i = count - 1 - step;
        let page = references[i] as usize;
        next[i] = latest[page];
        latest[page] = i as u64;
    }
    Ok(next)
}
