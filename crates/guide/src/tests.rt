use crate::looseness::ByLooseness;
use crate::only_root::OnlyRoot;
use engine::grade;
use model::row::{Counts, Row};
use std::test::Fail;

#[test]
fn the_only_cell_is_held_by_the_only_root(rt: HostRuntime) -> Result<(), Fail> {
    let heap = OnlyRoot::new(10).expect(&rt, "10 is a size");
    let mut rows = [None; 1024];
    let counts = grade(&ByLooseness, &heap, &mut rows)?;
    assert_eq!(rt;
        counts,
        Counts {
            settled: 1,
            weighed: 1,
        }
    );
    assert_eq!(rt;
        rows[0],
        Some(Row {
            grade: 0,
            holder: 0,
            turn: 0,
        })
    );
    assert_eq!(rt; rows[1], None);
    Ok(())
}
