use super::answers::check_answers;
use live::live::LiveHeap;
use script::line::answer;
use std::test::Fail;

#[test]
fn a_line_of_80_bytes_is_judged(rt: HostRuntime) -> Result<(), Fail> {
    check_answers(
        &rt,
        &[
            (
                "c 1 111111111111111111111111111111111111111111111111111111111111111111111111111",
                "no t 33 4",
            ),
            (
                "c 1 1111111111111111111111111111111111111111111111111111111111111111111111111111",
                "no t 33 4",
            ),
            (
                "c 1 11111111111111111111111111111111111111111111111111111111111111111111111111111",
                "no t 30 80",
            ),
        ],
    )
}

#[test]
fn words_that_are_no_command(rt: HostRuntime) -> Result<(), Fail> {
    check_answers(
        &rt,
        &[
            ("", "no t 31 0"),
            (" ", "no t 31 0"),
            (" g s", "no t 31 0"),
            ("G s", "no t 31 0"),
            ("C 0 1", "no t 31 0"),
            ("c\t0 1", "no t 31 0"),
            ("cc 0 1", "no t 31 0"),
            ("0 0 1", "no t 31 0"),
            ("é 0 1", "no t 31 0"),
            ("k s 1", "no t 31 0"),
            ("q 1 2 3 4 5 6", "no t 31 0"),
        ],
    )
}

#[test]
fn words_too_few_or_too_many(rt: HostRuntime) -> Result<(), Fail> {
    check_answers(
        &rt,
        &[
            ("g  s", "no t 32 0"),
            ("g s ", "no t 32 0"),
            ("g", "no t 32 0"),
            ("c 1", "no t 32 0"),
            ("c 1 2 3", "no t 32 0"),
            ("r 1", "no t 32 0"),
            ("l 1 2 3", "no t 32 0"),
            ("l 1 2 3 s s", "no t 32 0"),
            ("e 1 2 3", "no t 32 0"),
            ("x", "no t 32 0"),
            ("x 1 ", "no t 32 0"),
            ("c q", "no t 32 0"),
        ],
    )
}

#[test]
fn words_that_are_no_number_or_letter(rt: HostRuntime) -> Result<(), Fail> {
    check_answers(
        &rt,
        &[
            ("c  1", "no t 33 2"),
            ("c 1 ", "no t 33 4"),
            ("c 01 5", "no t 33 2"),
            ("c 00 5", "no t 33 2"),
            ("c 4294967296 1", "no t 33 2"),
            ("c 4294967295 1", "no h 1 2"),
            ("c 12345678901 1", "no t 33 2"),
            ("c 1 4294967296", "no t 33 4"),
            ("c 1a 1", "no t 33 2"),
            ("c -1 1", "no t 33 2"),
            ("c 1\t 1", "no t 33 2"),
            ("c é 1", "no t 33 2"),
            ("g q", "no t 33 2"),
            ("g S", "no t 33 2"),
            ("g 0", "no t 33 2"),
            ("g ss", "no t 33 2"),
        ],
    )
}

#[test]
fn the_text_is_judged_before_the_heap(rt: HostRuntime) -> Result<(), Fail> {
    check_answers(
        &rt,
        &[
            ("l 4096 2 3 q", "no t 33 11"),
            ("l 4096 2 3 s", "no h 4 2"),
            ("l 4096 2 3 0", "no t 33 11"),
            ("e 4096 1024 1024 x", "no t 33 17"),
            ("c 1024 x", "no t 33 7"),
            ("c 1024 0", "no h 1 2"),
        ],
    )
}

// The bytes of `c`, `0` and `s` with their top bit set.
#[test]
fn bytes_above_127_are_no_letters_or_digits(rt: HostRuntime) -> Result<(), Fail> {
    let mut heap = LiveHeap::new();
    let mut out = Vec::new(rt.alloc());
    answer(&mut heap, b"\xe3 0 1", &mut out)?;
    answer(&mut heap, b"c \xb0 1", &mut out)?;
    answer(&mut heap, b"g \xf3", &mut out)?;
    assert_eq!(rt; &out[..], b"no t 31 0\nno t 33 2\nno t 33 2\n".as_slice());
    Ok(())
}
