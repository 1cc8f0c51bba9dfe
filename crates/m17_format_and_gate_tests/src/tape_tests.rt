use m17_tape::Tape;
use std::alloc::Global;
use std::process::Abort;
use std::test::Fail;

// The tape and a plain list of its cells, with the same put into both, in this order.
fn both(
    rt: &impl Abort,
    alloc: Global,
    cells: u32,
    puts: &[(u64, u8)],
) -> Result<(Tape<u8>, Vec<Option<u8>>), Fail> {
    let mut tape = Tape::make(alloc, cells).expect(rt, "room for a tape");
    let mut plain = Vec::new(alloc);
    for _cell in 0..cells {
        plain.push(None)?;
    }
    for (index, what) in puts {
        tape.fill(*index, *what);
        if *index < plain.len() as u64 {
            plain[*index as usize] = Some(*what);
        }
    }
    Ok((tape, plain))
}

// Whether each of the cells, and two numbers behind them, has the same in both.
fn are_alike(tape: &Tape<u8>, plain: &Vec<Option<u8>>) -> bool {
    let mut alike = tape.get(plain.len()).is_none();
    for n in 0..plain.len() {
        if tape.get(n) != plain[n] {
            alike = false;
        }
    }
    alike
}

#[test]
fn cells_filled_in_order_are_read(rt: HostRuntime) -> Result<(), Fail> {
    let (tape, plain) = both(&rt, rt.alloc(), 9, &[(0, 1), (3, 2), (4, 3), (8, 4)])?;
    assert!(rt; are_alike(&tape, &plain));
    assert_eq!(rt; tape.get(3), Some(2));
    assert_eq!(rt; tape.get(5), None);
    Ok(())
}

#[test]
fn cells_filled_out_of_order_and_twice_have_the_last(rt: HostRuntime) -> Result<(), Fail> {
    let (tape, plain) = both(
        &rt,
        rt.alloc(),
        9,
        &[(7, 1), (2, 2), (5, 3), (2, 4), (0, 5), (8, 6), (7, 7)],
    )?;
    assert!(rt; are_alike(&tape, &plain));
    assert_eq!(rt; tape.get(2), Some(4));
    assert_eq!(rt; tape.get(7), Some(7));
    Ok(())
}

#[test]
fn nothing_stands_behind_the_last_cell(rt: HostRuntime) -> Result<(), Fail> {
    let (tape, plain) = both(
        &rt,
        rt.alloc(),
        3,
        &[
            (3, 1),
            (2, 2),
            (u64::MAX, 3),
            (1, 4),
            (4294967298, 5),
            (0, 6),
        ],
    )?;
    assert!(rt; are_alike(&tape, &plain));
    assert_eq!(rt; tape.get(3), None);
    let (none, _plain) = both(&rt, rt.alloc(), 0, &[(0, 1)])?;
    assert_eq!(rt; none.get(0), None);
    Ok(())
}
