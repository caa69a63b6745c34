// Files of 100 stations, each refused by its number, block and byte.

ghost use Rattle.std.specs.Prelude.{◌&&◌, nat_le};

use blockfile::file::{check_file, row_at, write_file};
use blockfile::numbers::Numbers;
use blockfile::row::Row;
use std::test::Fail;

// Numbers as the ticks of a section, 1 to 1,000,000: said again here, so that a test of files needs no measure.
struct Ticks;

impl Numbers for Ticks {
    ghost readable = { λ k. nat_le 1 k && nat_le k 1000000 };

    fn is_readable(number: u64) -> bool {
        (1..=1_000_000).contains(&number)
    }
}

const SECTION: Row = Row {
    low: 0,
    high: 1,
    number: 7,
};

// The total of an accepted file, or the refusal's number, the block and the byte: numbers, since the rules name these.
type Verdict = Result<usize, (u8, usize, usize)>;

fn judged(file: &[u8]) -> Verdict {
    check_file::<Ticks>(file, 100, 1).map_err(|fault| (
        fault.refusal().number(),
        fault.block(),
        fault.byte(),
    ))
}

// Sections from station 0 to stations 1, 2, 3 and so on.
fn star() -> [Row; 42] {
    let mut rows = [SECTION; 42];
    for (row, high) in rows.iter_mut().zip(1..) {
        row.high = high;
    }
    rows
}

#[test]
fn header_of_one_station(rt: HostRuntime) -> Result<(), Fail> {
    let mut file = [9u8; 512];
    assert_eq!(rt; write_file(&mut file, 1, 1, &[])?, 512);
    assert_eq!(rt;
        [file[508], file[509], file[510], file[511]],
        [2, 1, 245, 252]
    );
    Ok(())
}

#[test]
fn a_block_holds_41(rt: HostRuntime) -> Result<(), Fail> {
    let rows = star();
    let mut file = [9u8; 2048];
    assert_eq!(rt; write_file(&mut file, 100, 1, &rows[0..41])?, 1024);
    assert_eq!(rt; judged(&file[0..1024]), Ok(41));
    assert_eq!(rt; write_file(&mut file, 100, 1, &rows)?, 1536);
    assert_eq!(rt; judged(&file[0..1536]), Ok(42));
    let row = row_at(&file, 41);
    assert_eq!(rt; (row.low, row.high, row.number), (0, 42, 7));
    assert_eq!(rt; file[1536], 9);
    Ok(())
}

#[test]
fn lengths(rt: HostRuntime) {
    let mut file = [0u8; 1024];
    assert!(rt; write_file(&mut file[0..1000], 100, 1, &[SECTION]).is_err());
    assert!(rt; write_file(&mut file[0..512], 100, 1, &[SECTION]).is_err());
    assert_eq!(rt; judged(&file[0..0]), Err((11, 0, 0)));
    assert_eq!(rt; judged(&file[0..513]), Err((11, 0, 0)));
}

// Puts the check sums right: the second weighs each word by how many stand from it on. A test computes what it tests in its own way.
fn reseal(block: &mut [u8; 512]) {
    let mut first: u64 = 0;
    let mut second: u64 = 0;
    for (word, weight) in block[..508].as_chunks().0.iter().zip((1..=254u64).rev()) {
        let word = u64::from(u16::from_le_bytes(*word));
        first = first.wrapping_add(word);
        second = second.wrapping_add(weight.wrapping_mul(word));
    }
    // Remainders below 65,535 fit.
    block[508..510].copy_from_slice(&((first % 65535) as u16).to_le_bytes());
    block[510..].copy_from_slice(&((second % 65535) as u16).to_le_bytes());
}

// What a file of one section is called after a byte of it became another, under right check sums.
fn spoiled(at: usize, byte: u8) -> Result<Verdict, Fail> {
    let mut blocks = [[0u8; 512]; 2];
    let file = blocks.as_flattened_mut();
    write_file(file, 100, 1, &[SECTION])?;
    if let Some(spot) = file.get_mut(at) {
        *spot = byte;
    }
    for block in blocks.iter_mut() {
        reseal(block);
    }
    Ok(judged(blocks.as_flattened()))
}

// A byte that is changed, what it becomes, and what the file is then called.
const DAMAGE: [(usize, u8, Verdict); 17] = [
    (0, 0, Ok(1)),
    (0, 1, Err((13, 0, 0))),
    (6, 2, Err((14, 0, 6))),
    (7, 2, Err((14, 0, 7))),
    (4, 1, Err((15, 0, 4))),
    (8, 99, Err((15, 0, 8))),
    (10, 42, Err((15, 0, 10))),
    (14, 1, Err((16, 0, 14))),
    (507, 1, Err((16, 0, 507))),
    (512, 2, Err((13, 1, 0))),
    (518, 1, Err((14, 1, 6))),
    (519, 2, Err((14, 1, 7))),
    (516, 2, Err((15, 1, 4))),
    (532, 1, Err((16, 1, 20))),
    (520, 1, Err((17, 1, 8))),
    (522, 100, Err((17, 1, 8))),
    (524, 0, Err((17, 1, 8))),
];

#[test]
fn every_damage_has_its_name(rt: HostRuntime) -> Result<(), Fail> {
    for (at, byte, name) in DAMAGE {
        assert_eq!(rt; spoiled(at, byte)?, name);
    }
    Ok(())
}

#[test]
fn wrong_check_sums(rt: HostRuntime) -> Result<(), Fail> {
    let mut file = [0u8; 1024];
    write_file(&mut file, 100, 1, &[SECTION])?;
    file[600] = 1;
    assert_eq!(rt; judged(&file), Err((12, 1, 508)));
    Ok(())
}

#[test]
fn trailing_blocks(rt: HostRuntime) -> Result<(), Fail> {
    let mut file = [0u8; 1536];
    write_file(&mut file, 100, 1, &[SECTION])?;
    assert_eq!(rt; judged(&file), Err((15, 0, 10)));
    Ok(())
}

// A check sum of 65,535 is not one of 0.
#[test]
fn check_sum_of_all_ones(rt: HostRuntime) {
    let mut file = [0u8; 512];
    assert_eq!(rt; judged(&file), Err((14, 0, 6)));
    file[508] = 255;
    file[509] = 255;
    assert_eq!(rt; judged(&file), Err((12, 0, 508)));
}

#[test]
fn bad_records(rt: HostRuntime) -> Result<(), Fail> {
    let mut file = [0u8; 1536];
    let mut rows = star();
    rows[41] = rows[40];
    write_file(&mut file, 100, 1, &rows)?;
    assert_eq!(rt;
        judged(&file),
        Err((17, 2, 8)),
        "the same section in the next block"
    );
    rows[1] = rows[0];
    write_file(&mut file, 100, 1, &rows)?;
    assert_eq!(rt; judged(&file), Err((17, 1, 20)), "the same section twice");
    rows[0].high = 0;
    write_file(&mut file, 100, 1, &rows)?;
    assert_eq!(rt; judged(&file), Err((17, 1, 8)), "equal ends");
    Ok(())
}

#[test]
fn words_for_a_planner(rt: HostRuntime) -> Result<(), Fail> {
    let mut file = [0u8; 1024];
    write_file(&mut file, 100, 1, &[SECTION])?;
    file[1023] = 1;
    match check_file::<Ticks>(&file, 100, 1) {
        Ok(_) => Err(Fail::new("accepted")),
        Err(fault) => {
            let text = format!(in rt.alloc(); "{fault}")?;
            assert_eq!(rt;
                text.as_str(),
                "refused 12: the check sum is wrong (block 1, byte 508)"
            );
            Ok(())
        }
    }
}
