// Files of heaps, opened sound and spoilt.
use crate::file::file_of;
use crate::grades::have_same_grades;
use crate::spoil::spoil;
use live::live::LiveHeap;
use model::fault::{Fault, Layer};
use snapshot::snapshot::Snapshot;
use std::alloc::{AllocError, Global};
use trials::dice::Dice;
use trials::fill::{differences, rebuilt};
use trials::tally::Tally;

// Whether a file shows a heap.
fn shows(heap: &LiveHeap, file: &[u8]) -> bool {
    let mut shown = Snapshot::empty();
    shown.open(file).is_ok() && differences(heap, &shown) == 0 && have_same_grades(heap, &shown)
}

// Whether what an accepted file shows can be made by the calls, with the same grades, and has that
// file and no other.
fn is_sound(memory: Global, shown: &Snapshot, file: &[u8]) -> Result<bool, AllocError> {
    let Ok(heap) = rebuilt(shown) else {
        return Ok(false);
    };
    let again = file_of(memory, &heap)?;
    let same = differences(&heap, shown) == 0 && have_same_grades(&heap, shown);
    Ok(same && again.as_slice() == file)
}

// Whether a refusal speaks of a place of the file, and the heap that was shown before is shown.
fn is_refusal(heap: &LiveHeap, shown: &Snapshot, file: &[u8], fault: Fault) -> bool {
    fault.cause.layer() == Layer::File
        && fault.place as usize <= file.len()
        && differences(heap, shown) == 0
}

// Opens a spoilt file where a sound one is shown, and notes what came of it.
fn try_spoilt<'a>(
    memory: Global,
    tally: &mut Tally,
    heap: &LiveHeap,
    sound: &'a [u8],
    spoilt: &'a [u8],
) -> Result<(), AllocError> {
    let mut shown = Snapshot::empty();
    if shown.open(sound).is_err() {
        tally.note_wrong();
        return Ok(());
    }
    match shown.open(spoilt) {
        Ok(()) if is_sound(memory, &shown, spoilt)? => tally.note_accepted(),
        Err(fault) if is_refusal(heap, &shown, spoilt, fault) => {
            tally.note_refused(fault.cause.number())
        }
        _ => tally.note_wrong(),
    }
    Ok(())
}

// Writes the file of a heap, tries it spoilt in so many ways, and says whether it shows the heap
// as it is.
pub fn try_heap(
    memory: Global,
    dice: &mut Dice,
    tally: &mut Tally,
    heap: &LiveHeap,
    ways: u32,
) -> Result<bool, AllocError> {
    let sound = file_of(memory, heap)?;
    for _ in 0..ways {
        let mut spoilt = file_of(memory, heap)?;
        spoil(dice, &mut spoilt)?;
        try_spoilt(memory, tally, heap, &sound, &spoilt)?;
    }
    Ok(shows(heap, &sound))
}
