// The grades found so far. A cell beyond the list has no grade and gets none.
ghost use Rattle.std.specs.Prelude.{◌≡◌, false, length, Some, None, nat_lt, slice_index_or, slice_set};

pub fn fetch<G: Copy>(grades: &[Option<G>], cell: u16) -> Option<G>
    ensures { result ≡ slice_index_or grades.now cell None }
{
    grades.get(usize::from(cell)).copied().flatten()
}

// Writes a grade down, and says whether there was a place for it.
pub fn store<G: Copy>(grades: &mut [Option<G>], cell: u16, grade: G) -> bool
    ensures after { grades.new ≡ slice_set grades.old cell (Some grade) }
    ensures still { result ≡ false → grades.new ≡ grades.old }
    ensures had_room { result ≡ nat_lt cell (length grades.old) }
{
    // the contract of a slice's `get_mut` says nothing of the elements afterwards
    let place = usize::from(cell);
    let has_room = place < grades.len();
    if has_room {
        grades[place] = Some(grade);
    }
    has_room
}
