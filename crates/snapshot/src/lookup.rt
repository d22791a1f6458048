// What the entries of sorted sections say of a number.
ghost use Rattle.std.specs.Prelude.{◌≡◌};
ghost use Rattle.snapshot.specs.Laid.{cell_in, root_in, link_in, ephemeron_in, record_in};

use crate::entries::{CELL, EPHEMERON, LINK, ROOT};
use crate::numbers::{u16_at, u32_at};
use crate::sorted::SortedSection;
use model::record::{Record, Strength};

// The size of cell `n`.
pub(crate) fn cell_in(cells: &SortedSection<CELL>, n: u16) -> Option<u32>
    ensures { result ≡ cell_in cells.now.bytes.now n }
{
    let cell = cells.find(n)?;
    Some(u32_at(cell, 4))
}

// Each kind of record has fields of its own, so each is read by a function of its own.
fn root_in(roots: &SortedSection<ROOT>, n: u16) -> Option<Record>
    ensures { result ≡ root_in roots.now.bytes.now n }
{
    let root = roots.find(n)?;
    Some(Record::Root {
        target: u16_at(root, 2),
    })
}

fn link_in(links: &SortedSection<LINK>, n: u16) -> Option<Record>
    ensures { result ≡ link_in links.now.bytes.now n }
{
    let link = links.find(n)?;
    // In a file without fault each of these numbers is a strength's.
    let strength = Strength::try_from(u32::from(u16_at(link, 6))).unwrap_or(Strength::Phantom);
    Some(Record::Link {
        source: u16_at(link, 2),
        target: u16_at(link, 4),
        strength,
    })
}

fn ephemeron_in(ephemerons: &SortedSection<EPHEMERON>, n: u16) -> Option<Record>
    ensures { result ≡ ephemeron_in ephemerons.now.bytes.now n }
{
    let ephemeron = ephemerons.find(n)?;
    Some(Record::Ephemeron {
        table: u16_at(ephemeron, 2),
        key: u16_at(ephemeron, 4),
        value: u16_at(ephemeron, 6),
    })
}

// Record `n`, which stands in one section only.
pub(crate) fn record_in(
    roots: &SortedSection<ROOT>,
    links: &SortedSection<LINK>,
    ephemerons: &SortedSection<EPHEMERON>,
    n: u16,
) -> Option<Record>
    ensures { result ≡ record_in roots.now.bytes.now links.now.bytes.now ephemerons.now.bytes.now n }
{
    // Closures for `or_else` would each need a clause that repeats the search's own.
    if let Some(root) = root_in(roots, n) {
        return Some(root);
    }
    if let Some(link) = link_in(links, n) {
        return Some(link);
    }
    ephemeron_in(ephemerons, n)
}
