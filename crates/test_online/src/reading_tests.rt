// Reading an index that stands: live entries of the keys a, ab and c, and a marked one of b.
use entry_scan::{KeyRange, Page};
use marked_index::MarkedIndex;
use online_index::{OnlineIndex, PageScan, Stop, is_page};
use record_values::{Error, Key, Pair, Rid, SLOTS_PER_PAGE};
use std::alloc::Global;

type Index = OnlineIndex<MarkedIndex<Global>, PageScan<Global>>;

fn pair_of(key: &str, slot: u16) -> Result<Pair, Error> {
    Ok(Pair {
        key: Key::new(key.as_bytes())?,
        rid: Rid {
            page: 0,
            slot: slot % SLOTS_PER_PAGE,
        },
    })
}

fn new_index(alloc: Global) -> Index {
    OnlineIndex::create(MarkedIndex::with_room(alloc, 4), PageScan::new(alloc), 1)
}

fn standing_index(alloc: Global) -> Result<Index, Error> {
    let pairs = [
        pair_of("a", 0)?,
        pair_of("b", 1)?,
        pair_of("ab", 2)?,
        pair_of("c", 3)?,
    ];
    let mut index = new_index(alloc);
    let mut notes = Vec::new(alloc);
    for _ in 0..3 {
        let stop = index.build_many(9, &mut notes)?;
        if let Stop::WantsPage(page) = stop {
            if is_page(page, &pairs) {
                index.take_page(page, &pairs)?;
            }
        }
    }
    index.prepare(Some(&pairs[1]), None)?;
    Ok(index)
}

// The keys of a page, each with a space after it, and the key from which to go on.
fn text_of(alloc: Global, page: &Page<Global>) -> Result<Vec<u8>, Error> {
    let mut text = Vec::new(alloc);
    for pair in &page.pairs {
        text.extend_from_slice(pair.key.as_slice())?;
        text.push(b' ')?;
    }
    if let Some(next) = &page.next {
        text.push(b'>')?;
        text.extend_from_slice(next.key.as_slice())?;
    }
    Ok(text)
}

// A page of all keys, forward, and one backward.
fn pages_of(alloc: Global, index: &Index, limit: usize) -> Result<(Vec<u8>, Vec<u8>), Error> {
    let all = KeyRange::all();
    let forward = index.range(alloc, &all, None, limit)?;
    let backward = index.range_back(alloc, &all, None, limit)?;
    Ok((text_of(alloc, &forward)?, text_of(alloc, &backward)?))
}

// A page of the key, and how many visible pairs have a key that begins with it.
fn found_of(alloc: Global, index: &Index, key: &str) -> Result<(Vec<u8>, u64), Error> {
    let key = Key::new(key.as_bytes())?;
    let page = index.find(alloc, key, None, 9)?;
    let beginning = index.count(&KeyRange::prefix(key))?;
    Ok((text_of(alloc, &page)?, beginning))
}

#[test]
fn reads_pages_both_ways(rt: HostRuntime) -> Result<(), Error> {
    let index = standing_index(rt.alloc())?;
    for (limit, forward, backward) in [(2, "a ab >ab", "c ab >ab"), (3, "a ab c ", "c ab a ")] {
        let (ahead, back) = pages_of(rt.alloc(), &index, limit)?;
        assert_eq!(rt; ahead.as_slice(), forward.as_bytes());
        assert_eq!(rt; back.as_slice(), backward.as_bytes());
    }
    Ok(())
}

#[test]
fn finds_and_counts(rt: HostRuntime) -> Result<(), Error> {
    let index = standing_index(rt.alloc())?;
    for (key, text, number) in [("a", "a ", 2), ("b", "", 0)] {
        let (found, beginning) = found_of(rt.alloc(), &index, key)?;
        assert_eq!(rt; found.as_slice(), text.as_bytes());
        assert_eq!(rt; beginning, number);
    }
    Ok(())
}
