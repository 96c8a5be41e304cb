//! Where the pairs wait that were read for the builder.
ghost use Rattle.std.specs.List.Sorted.{IsStrictlyIncreasing};
ghost use Rattle.std.specs.Prelude.{◌≡◌, ◌+◌, ◌≤◌, ◌↔◌, map, Some, None, OnOk, IfErr, IfNone, IfSome, IsTrue, OnErr};
ghost use Rattle.sorted_scan.specs.Runs.{HandedOut, IsAtEnd, MayHandOut, ScanRun, Took, with_step};
ghost use Rattle.sorted_scan.specs.Scans.{HasRun, begun, begun_run, next_of, page_from};
ghost use Rattle.online_index.specs.Pages.{IsPage};

use record_values::{Error, Pair, SLOTS_PER_PAGE};
use sorted_scan::Scan;
use std::alloc::Allocator;
use std::marker::Model;

/// Whether the slots of the pairs rise.
fn rises(pairs: &[Pair]) -> bool
    ensures { IsTrue result ↔ IsStrictlyIncreasing (map (λ p. p.rid.slot) pairs.now) }
{
    for i in 1..pairs.len() {
        let before = pairs[i - 1].rid;
        let next = pairs[i].rid;
        if before.slot >= next.slot {
            return false;
        }
    }
    true
}

/// Whether these can be the pairs of a page: no more than a page has slots, each of this page, in the order of their
/// slots, no slot twice.
pub fn is_page(page: u32, pairs: &[Pair]) -> bool
    ensures { IsTrue result ↔ IsPage page pairs.now }
{
    pairs.len() <= SLOTS_PER_PAGE as usize
        && pairs.iter().all(|pair| pair.rid.page == page)
        && rises(pairs)
}

/// The pairs that were read of pages, and that wait until the builder attempts them, in their order.
pub trait Walk {
    ghost use Rattle.sorted_scan.specs.Scans.{ScanValue};

    ghost scan: { Self → ScanValue };

    /// Begins anew: pages are to be read from page 0 on, for the pairs above the given one. It takes no memory.
    fn begin(&mut self, above: Option<Pair>, pages: u32)
        ensures made { scan self.new ≡ begun above pages }
        ensures run { HasRun (scan self.new) (begun_run above pages) };

    /// The page that is to be taken next.
    fn wants_page(&self) -> Option<u32>
        ensures { result ≡ (scan self.now).wanted };

    /// Takes the page that is wanted. All memory is taken here.
    fn take_page(&mut self, page: u32, pairs: &[Pair]) -> Result<(), Error>
        requires wanted { (scan self.old).wanted ≡ Some page }
        requires page { IsPage page pairs.now }
        ensures run { OnOk result ((r : ScanRun) → HasRun (scan self.old) r
            → HasRun (scan self.new) (with_step r (Took page pairs.now))) }
        ensures wanted { OnOk result ((scan self.new).wanted ≡ page_from (scan self.old).pages (page + 1)) }
        ensures place { OnOk result (scan self.new ≡ record (scan self.old) {
          wanted = (scan self.new).wanted;
          waiting = (scan self.new).waiting;
        }) }
        ensures no_memory { IfErr result (λ e. e ≡ Error.NoMemory) }
        ensures unchanged { OnErr result (scan self.new ≡ scan self.old) };

    /// The pair that comes next; none while a page is wanted, and at the end.
    fn next(&self) -> Option<Pair>
        ensures pair { result ≡ next_of (scan self.now) }
        ensures next { IfSome result (λ p. (r : ScanRun) → HasRun (scan self.now) r → MayHandOut r p) }
        ensures end { IfNone result ((scan self.now).wanted ≡ None
            → (r : ScanRun) → HasRun (scan self.now) r → IsAtEnd r) };

    /// Hands the next pair out, if there is one. It takes no memory.
    fn hand_out(&mut self) -> Option<Pair>
        ensures pair { result ≡ next_of (scan self.old) }
        ensures run { IfSome result (λ p. (r : ScanRun) → HasRun (scan self.old) r
            → HasRun (scan self.new) (with_step r (HandedOut p))) }
        ensures place { IfSome result (λ p. scan self.new ≡ record (scan self.old) {
          last = Some p;
          waiting = (scan self.new).waiting;
        }) }
        ensures unchanged { IfNone result (scan self.new ≡ scan self.old) };

    /// The pair handed out last; before the first one, that which the walk began above, if any.
    fn last(&self) -> Option<Pair>
        ensures { result ≡ (scan self.now).last };
}

/// A scan of pages in memory, which can begin anew.
#[derive(Drop)]
pub struct PageScan<A: Allocator> {
    alloc: A,
    scan: Scan<A>,
}

impl<A: Allocator> Model for PageScan<A> {
    ghost use Rattle.sorted_scan.specs.Scans.{ScanValue};

    ghost Value = { ScanValue };

    ghost view = { λ s. s.scan };
}

impl<A: Allocator + Copy> PageScan<A> {
    /// A scan of no pages, until it begins. It takes no memory.
    pub fn new(alloc: A) -> Self
        ensures made { result ≡ begun None 0 }
        ensures run { HasRun result (begun_run None 0) }
    {
        PageScan {
            alloc,
            scan: Scan::new(alloc, None, 0),
        }
    }
}

impl<A: Allocator + Copy> Walk for PageScan<A> {
    ghost scan = { λ s. s };

    fn begin(&mut self, above: Option<Pair>, pages: u32) {
        self.scan = Scan::new(self.alloc, above, pages);
    }

    fn wants_page(&self) -> Option<u32> {
        self.scan.wants_page()
    }

    fn take_page(&mut self, page: u32, pairs: &[Pair]) -> Result<(), Error> {
        self.scan.take_page(page, pairs)
    }

    fn next(&self) -> Option<Pair> {
        self.scan.next()
    }

    fn hand_out(&mut self) -> Option<Pair> {
        self.scan.hand_out()
    }

    fn last(&self) -> Option<Pair> {
        self.scan.last()
    }
}
