use engine::grade;
use live::live::LiveHeap;
use model::fault::{Cause, Fault};
use model::record::Strength;
use model::row::{Counts, Row};
use schemes::bytes::ByBytes;
use schemes::strength::ByStrength;
use std::test::Fail;

// A row as an earlier grading could have left it.
const OLD: Option<Row<Strength>> = Some(Row {
    grade: Strength::Weak,
    holder: 5,
    turn: 6,
});

#[test]
fn too_few_rows_are_refused_and_stand(rt: HostRuntime) -> Result<(), Fail> {
    let mut heap = LiveHeap::new();
    heap.put(0, 1)?;
    heap.root(0, 0)?;
    let mut rows = [OLD; 1023];
    let short = Fault {
        cause: Cause::RowsShort,
        place: 0,
    };
    assert_eq!(rt; grade(&ByStrength, &heap, &mut rows), Err(short));
    assert_eq!(rt; rows, [OLD; 1023]);
    Ok(())
}

#[test]
fn rows_behind_the_cells_stand(rt: HostRuntime) -> Result<(), Fail> {
    let mut heap = LiveHeap::new();
    heap.put(2, 1)?;
    heap.root(9, 2)?;
    let mut rows = [OLD; 1030];
    let counts = Counts {
        settled: 1,
        weighed: 1,
    };
    assert_eq!(rt; grade(&ByStrength, &heap, &mut rows), Ok(counts));
    let reached = Row {
        grade: Strength::Strong,
        holder: 9,
        turn: 0,
    };
    let mut expected = [OLD; 1030];
    expected[..1024].fill(None);
    expected[2] = Some(reached);
    assert_eq!(rt; rows, expected);
    Ok(())
}

#[test]
fn cells_are_settled_from_the_best_grade_on(rt: HostRuntime) -> Result<(), Fail> {
    let mut heap = LiveHeap::new();
    for (cell, size) in [(0, 10), (1, 20), (2, 5), (3, 8)] {
        heap.put(cell, size)?;
    }
    heap.root(0, 0)?;
    heap.link(1, 0, 1, 0)?;
    heap.tie(2, 1, 2, 3)?;
    heap.link(3, 0, 2, 2)?;
    heap.link(4, 3, 2, 0)?;
    let mut rows = [None; 1024];
    let counts = Counts {
        settled: 4,
        weighed: 5,
    };
    assert_eq!(rt; grade(&ByBytes, &heap, &mut rows), Ok(counts));
    for (cell, grade, holder, turn) in [
        (0, 10, 0, 0),
        (1, 30, 1, 2),
        (2, 15, 3, 1),
        (3, 53, 2, 3),
    ] {
        let row: Option<Row<u32>> = rows[cell];
        assert_eq!(rt;
            row,
            Some(Row {
                grade,
                holder,
                turn,
            })
        );
    }
    Ok(())
}
