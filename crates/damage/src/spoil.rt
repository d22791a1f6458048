// Damage to a file's bytes.
use crate::file::HEAD;
use std::alloc::AllocError;
use trials::dice::Dice;

fn any_place(dice: &mut Dice, from: usize, len: usize) -> usize {
    let span = len.saturating_sub(from).min(65536) as u32;
    from.saturating_add(dice.roll(span) as usize)
}

// Changes a byte from a place on: to any byte, or to a small one, which fits more often.
fn change(dice: &mut Dice, file: &mut Vec<u8>, from: usize) {
    let at = any_place(dice, from, file.len());
    let byte = if dice.once_in(4) {
        dice.roll(256) as u8
    } else {
        dice.roll(8) as u8
    };
    if let Some(place) = file.get_mut(at) {
        *place = byte;
    }
}

// Copies a field of an entry over another.
fn copy_field(dice: &mut Dice, file: &mut Vec<u8>) {
    let Some((_, entries)) = file.split_at_mut_checked(HEAD as usize) else {
        return;
    };
    let (fields, _) = entries.as_chunks_mut::<2>();
    let from = any_place(dice, 0, fields.len());
    let to = any_place(dice, 0, fields.len());
    if let (Some(field), Some(place)) = (fields.get(from).copied(), fields.get_mut(to)) {
        *place = field;
    }
}

fn add(file: &mut Vec<u8>, at: usize, by: u8) {
    if let Some(place) = file.get_mut(at) {
        *place = place.wrapping_add(by);
    }
}

// Moves the boundary between two sections, so that the one gets bytes of the other.
fn shift_boundary(dice: &mut Dice, file: &mut Vec<u8>) {
    let first = 8 * dice.roll(3) as usize;
    let by = 4 + 4 * dice.roll(2) as u8;
    // the length of the one, then the offset and the length of the other
    add(file, first + 8, by);
    add(file, first + 12, by);
    add(file, first + 16, by.wrapping_neg());
}

// Cuts off an end, puts bytes behind the end, or changes the head or entries.
pub fn spoil(dice: &mut Dice, file: &mut Vec<u8>) -> Result<(), AllocError> {
    match dice.roll(16) {
        0 => file.truncate(any_place(dice, 0, file.len())),
        1 => {
            for _ in 0..1 + dice.roll(8) {
                file.push(dice.roll(256) as u8)?;
            }
        }
        2 => change(dice, file, 0),
        3 | 4 => shift_boundary(dice, file),
        5..=7 => copy_field(dice, file),
        _ => {
            for _ in 0..1 + dice.roll(3) {
                change(dice, file, HEAD as usize);
            }
        }
    }
    Ok(())
}
