// A section of a file: entries of WIDTH bytes that lie behind one another.
ghost use Rattle.std.specs.Prelude.{◌≡◌, ◌+◌, ◌≤◌, length, IfOk};
ghost use Rattle.std.specs.Result.{result_err};
ghost use Rattle.model.specs.Faults.{answer};
ghost use Rattle.snapshot.specs.Numbers.{u16_at};
ghost use Rattle.snapshot.specs.Entries.{judged};

use crate::kind::Kind;
use crate::numbers::u16_at;
use crate::sorted::SortedSection;
use model::fault::{Cause, Fault};

#[derive(Clone, Copy)]
pub(crate) struct Section<'a, const WIDTH: usize> {
    // the byte of the file where it starts
    pub(crate) start: u32,
    pub(crate) bytes: &'a [u8],
    ghost within: { start + length bytes.now ≤ 65536 },
    // an entry has two bytes for its number, and no more than eight in all
    ghost numbered: { 2 ≤ WIDTH },
    ghost narrow: { WIDTH ≤ 8 },
}

// The number of an entry, its first field.
pub(crate) fn number<const WIDTH: usize>(entry: &[u8; WIDTH]) -> u16
    requires { 2 ≤ WIDTH }
    ensures { result ≡ u16_at entry.now 0 }
{
    u16_at(entry, 0)
}

// The first fault of an entry, where it is known whether its number rises above that of
// the entry before.
fn check<const WIDTH: usize, K: Kind<WIDTH>>(
    kind: &K,
    entry: &[u8; WIDTH],
    rises: bool,
    place: u32,
) -> Result<(), Fault>
    ensures { result ≡ answer (judged place (K.fits kind.now entry.now) rises
        (K.is_new kind.now entry.now) (K.names_cells kind.now entry.now)) tt }
{
    let cause = if !kind.fits(entry) {
        Cause::FieldRange
    } else if !rises {
        Cause::NumberOrder
    } else if !kind.is_new(entry) {
        Cause::RecordTwice
    } else if !kind.names_cells(entry) {
        Cause::CellMissing
    } else {
        return Ok(());
    };
    Err(cause.at(place))
}

impl<'a, const WIDTH: usize> Section<'a, WIDTH> {
    // Judges the entries in file order. They are sorted where none has a fault.
    pub(crate) fn judge<K: Kind<WIDTH>>(&self, kind: &K) -> Result<SortedSection<'a, WIDTH>, Fault>
        ensures fault { result_err result ≡ K.fault kind.now self.now.bytes.now self.now.start }
        ensures bytes { IfOk result (λ s. s.bytes.now ≡ self.now.bytes.now) }
    {
        let entries = self.bytes.as_chunks::<WIDTH>().0;
        for (i, entry) in entries.iter().enumerate() {
            let rises = i == 0 || number(&entries[i - 1]) < number(entry);
            check(kind, entry, rises, self.start + (WIDTH * i) as u32)?;
        }
        Ok(SortedSection { bytes: self.bytes })
    }
}
