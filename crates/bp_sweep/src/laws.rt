//! What the numbers of a list's pages say of the list: one page for each different number.
ghost use Rattle.std.specs.Prelude.{◌≡◌, ◌<◌, ◌↔◌, ℕ, List, All, length, slice_index};
ghost use Rattle.bp_sweep.specs.Dense.{AreDense};

/// Two references have the same page exactly where their numbers are equal. Each page is below the number of different
/// pages, and each page below that occurs: so there are as many pages as different numbers.
pub fn one_page_a_number()
    ensures same { (numbers pages seen : List ℕ) (i j : ℕ) → AreDense numbers pages seen →
        i < length numbers → j < length numbers →
        (slice_index pages i ≡ slice_index pages j) ↔
        (slice_index numbers i ≡ slice_index numbers j) }
    ensures count { (numbers pages seen : List ℕ) → AreDense numbers pages seen →
        length pages ≡ length numbers }
    ensures below { (numbers pages seen : List ℕ) → AreDense numbers pages seen →
        All (λ page. page < length seen) pages }
    ensures each { (numbers pages seen : List ℕ) (page : ℕ) → AreDense numbers pages seen →
        page < length seen → (i : ℕ) × (i < length numbers) × (slice_index pages i ≡ page) }
{}
