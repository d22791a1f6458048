use super::answers::check_answers;
use std::test::Fail;

#[test]
fn every_fault_of_the_heap(rt: HostRuntime) -> Result<(), Fail> {
    check_answers(
        &rt,
        &[
            ("c 1024 1", "no h 1 2"),
            ("c 0 0", "no h 3 4"),
            ("c 0 1048577", "no h 3 4"),
            ("c 0 1", "ok"),
            ("c 0 1", "no h 2 2"),
            ("r 4096 0", "no h 4 2"),
            ("r 7 0", "ok"),
            ("r 7 0", "no h 5 2"),
            ("r 8 1", "no h 6 4"),
            ("r 8 1024", "no h 1 4"),
            ("l 8 1 0 s", "no h 6 4"),
            ("l 8 0 1 s", "no h 6 6"),
            ("l 8 0 1024 s", "no h 1 6"),
            ("e 8 0 0 1", "no h 6 8"),
            ("e 8 0 0 1024", "no h 1 8"),
            ("x 4096", "no h 4 2"),
            ("x 8", "no h 8 2"),
            ("x 7", "ok"),
            ("x 7", "no h 8 2"),
            ("g s", "ok 0 0"),
        ],
    )
}

#[test]
fn the_largest_and_smallest_numbers_are_taken(rt: HostRuntime) -> Result<(), Fail> {
    check_answers(
        &rt,
        &[
            ("c 1023 1048576", "ok"),
            ("c 0 1", "ok"),
            ("r 4095 1023", "ok"),
            ("l 0 1023 0 p", "ok"),
            ("g s", "ok 2 2 0=3/0 1023=0/4095"),
            ("g b", "ok 2 2 0=1048577/0 1023=1048576/4095"),
            ("g d", "ok 2 2 0=1.0/0 1023=0.4095/4095"),
            ("x 4095", "ok"),
            ("g d", "ok 0 0"),
        ],
    )
}

#[test]
fn arguments_are_judged_from_the_left(rt: HostRuntime) -> Result<(), Fail> {
    check_answers(
        &rt,
        &[
            ("c 5 1", "ok"),
            ("r 3 5", "ok"),
            ("c 1024 0", "no h 1 2"),
            ("c 5 0", "no h 2 2"),
            ("r 3 1024", "no h 5 2"),
            ("r 4096 1024", "no h 4 2"),
            ("l 3 1024 1024 s", "no h 5 2"),
            ("l 4 1024 6 s", "no h 1 4"),
            ("l 4 6 1024 s", "no h 6 4"),
            ("e 3 6 6 6", "no h 5 2"),
            ("e 4 5 6 1024", "no h 6 6"),
            ("e 4 5 1024 6", "no h 1 6"),
            ("g s", "ok 1 1 5=0/3"),
        ],
    )
}
