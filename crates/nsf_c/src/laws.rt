//! Laws of what C asks for.
ghost use Rattle.std.specs.Prelude.{◌≡◌, ◌≤◌, ℕ, List, Option};
ghost use Rattle.record_values.specs.declared.pair.Pair.{Pair};
ghost use Rattle.core_scan.specs.declared.range.KeyRange.{KeyRange};
ghost use Rattle.restart.specs.declared.event.Event.{Event};
ghost use Rattle.nsf_c.specs.Asked.{Asks, IsBad};
ghost use Rattle.nsf_c.specs.Scans.{IsBound, IsGivenPair, IsNoScan, IsNoScanBack};
ghost use Rattle.nsf_c.specs.declared.asked.Asked.{Asked};
ghost use Rattle.nsf_c.specs.declared.bounds.Bounds.{Bounds};

/// A law: what is asked for is one event at most (`event`), and it is no event for one reason at most (`bad`). So
/// `nsf_serve` serves no other event, and refuses by no other number.
pub fn one_event()
    ensures event { (asked : Asked) (key body : List ℕ) (d e : Event) → Asks asked key body d → Asks asked key body e
        → d ≡ e }
    ensures bad { (asked : Asked) (key body : List ℕ) (m n : ℕ) → IsBad asked key body m → IsBad asked key body n
        → m ≡ n }
{}

/// A law: a scan is refused for one reason at most (`bad`, `bad_back`), and for none where what is asked for is a range
/// of an index that is read so, and perhaps a pair (`fine`, `fine_back`). So `nsf_next` and `nsf_previous` answer no
/// other number than that of the first reason.
pub fn one_scan()
    ensures bad { (b : Bounds) (from to behind : List ℕ) (m n : ℕ) → IsNoScan b from to behind m
        → IsNoScan b from to behind n → m ≡ n }
    ensures bad_back { (b : Bounds) (from to ahead : List ℕ) (m n : ℕ) → IsNoScanBack b from to ahead m
        → IsNoScanBack b from to ahead n → m ≡ n }
    ensures fine { (b : Bounds) (from to behind : List ℕ) (range : KeyRange) (after : Option Pair) (n : ℕ)
        → IsBound b.from from range.from → IsBound b.to to range.to → IsGivenPair b behind after → b.committed ≤ 1
        → ¬ IsNoScan b from to behind n }
    ensures fine_back { (b : Bounds) (from to ahead : List ℕ) (range : KeyRange) (before : Option Pair) (n : ℕ)
        → IsBound b.from from range.from → IsBound b.to to range.to → IsGivenPair b ahead before → b.committed ≡ 0
        → ¬ IsNoScanBack b from to ahead n }
{}
