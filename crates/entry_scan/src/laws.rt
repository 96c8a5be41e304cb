//! Laws of pages.
ghost use Rattle.std.specs.Prelude.{◌≡◌, ◌<◌, ◌++◌, ◌↔◌, ℕ, List, Option, None, Some, All, Contains, take, true};
ghost use Rattle.std.specs.Prelude.{reverse};
ghost use Rattle.std.specs.FinMap as map;
ghost use Rattle.std.specs.List.Sorted.{IsStrictlySortedBy};
ghost use Rattle.record_values.specs.Orders.{pair_cmp};
ghost use Rattle.record_values.specs.declared.pair.Mark.TheVariants.{Live};
ghost use Rattle.record_values.specs.declared.pair.Pair.{Pair};
ghost use Rattle.record_values.specs.Entries.{Index};
ghost use Rattle.record_values.specs.Orders.{is_above};
ghost use Rattle.entry_scan.specs.Backward.{ReadingBack, is_before, left_before};
ghost use Rattle.entry_scan.specs.Ranges.{is_within};
ghost use Rattle.entry_scan.specs.Readings.{Reading};
ghost use Rattle.entry_scan.specs.Visible.{left_of, next_after, visible};
ghost use Rattle.entry_scan.specs.declared.range.KeyRange.{KeyRange};

/// A law: the visible pairs of a range are those of its live entries, in the order of pairs, each once.
pub fn each_visible()
    ensures ascending { (entries : Index) (range : KeyRange) → IsStrictlySortedBy pair_cmp (visible entries range) }
    ensures each { (entries : Index) (range : KeyRange) (p : Pair) → Contains (visible entries range) p
        ↔ ((map.get entries p ≡ Some Live) × (is_within range p.key ≡ true)) }
{}

/// A law: as long as a page leaves any, its pairs and what is left after the last of them are what was left before it;
/// and a page with a limit above 0 that leaves none has all that was left.
pub fn each_page()
    ensures more { (entries : Index) (range : KeyRange) (after : Option Pair) (limit : ℕ) (next : Pair)
        → next_after after limit (left_of entries range after) ≡ Some next
        → left_of entries range after ≡ take limit (left_of entries range after) ++ left_of entries range (Some next) }
    ensures last { (entries : Index) (range : KeyRange) (after : Option Pair) (limit : ℕ) → 0 < limit
        → next_after after limit (left_of entries range after) ≡ None
        → left_of entries range after ≡ take limit (left_of entries range after) }
{}

/// A law: pages are read one after another until nothing is left, and the index may change from page to page. The
/// pairs ascend, so that none comes twice, and each was visible at one of the pages. Each pair after the start that
/// was visible at every page has come. Where the index did not change, the pairs are all that was left at the start.
pub fn each_reading()
    ensures ascending { (range : KeyRange) (after : Option Pair) (seen : List Index) (pairs : List Pair)
        → Reading range after seen pairs → IsStrictlySortedBy pair_cmp pairs }
    ensures shown { (range : KeyRange) (after : Option Pair) (seen : List Index) (pairs : List Pair) (p : Pair)
        → Reading range after seen pairs → Contains pairs p
        → (entries : Index) × Contains seen entries × Contains (visible entries range) p }
    ensures steady { (range : KeyRange) (after : Option Pair) (seen : List Index) (pairs : List Pair) (p : Pair)
        → Reading range after seen pairs → is_above after p ≡ true
        → ((entries : Index) → Contains seen entries → Contains (visible entries range) p) → Contains pairs p }
    ensures unchanged { (range : KeyRange) (after : Option Pair) (seen : List Index) (pairs : List Pair)
        (entries : Index) → Reading range after seen pairs → All (λ other. other ≡ entries) seen
        → pairs ≡ left_of entries range after }
{}

/// A law: as long as a page backward leaves any, its pairs and what is left before the last of them are what was left
/// before it; and a page with a limit above 0 that leaves none has all that was left.
pub fn each_page_back()
    ensures more { (entries : Index) (range : KeyRange) (before : Option Pair) (limit : ℕ) (next : Pair)
        → next_after before limit (left_before entries range before) ≡ Some next
        → left_before entries range before
        ≡ take limit (left_before entries range before) ++ left_before entries range (Some next) }
    ensures last { (entries : Index) (range : KeyRange) (before : Option Pair) (limit : ℕ) → 0 < limit
        → next_after before limit (left_before entries range before) ≡ None
        → left_before entries range before ≡ take limit (left_before entries range before) }
{}

/// A law: pages are read backward until nothing is left, and the index may change from page to page. The pairs descend,
/// so that none comes twice, and each was visible at one of the pages. Each pair before the start that was visible at
/// every page has come. Where the index did not change, the pairs are all that was left at the start.
pub fn each_reading_back()
    ensures descending { (range : KeyRange) (before : Option Pair) (seen : List Index) (pairs : List Pair)
        → ReadingBack range before seen pairs → IsStrictlySortedBy pair_cmp (reverse pairs) }
    ensures shown { (range : KeyRange) (before : Option Pair) (seen : List Index) (pairs : List Pair) (p : Pair)
        → ReadingBack range before seen pairs → Contains pairs p
        → (entries : Index) × Contains seen entries × Contains (visible entries range) p }
    ensures steady { (range : KeyRange) (before : Option Pair) (seen : List Index) (pairs : List Pair) (p : Pair)
        → ReadingBack range before seen pairs → is_before before p ≡ true
        → ((entries : Index) → Contains seen entries → Contains (visible entries range) p) → Contains pairs p }
    ensures unchanged { (range : KeyRange) (before : Option Pair) (seen : List Index) (pairs : List Pair)
        (entries : Index) → ReadingBack range before seen pairs → All (λ other. other ≡ entries) seen
        → pairs ≡ left_before entries range before }
{}
