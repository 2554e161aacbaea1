use crate::notes::{count, fold, four_of, note_all, opened, two_of};
use std::test::Fail;
use turn_lock::Unjoined;

#[test]
fn a_lock_closes_where_all_desks_are_joined(rt: HostRuntime) -> Result<(), Fail> {
    let (lock, row) = opened(&rt, rt.alloc(), 2)?;
    assert_eq!(rt; row.len(), 2);
    let (zero, one) = two_of(&lock, row);
    assert_eq!(rt; (zero.number(), zero.family()), (0, 1));
    assert_eq!(rt; (one.number(), one.family()), (1, 1));
    let Err(refused) = lock.close(zero) else {
        panic!(rt; "desk 1 was not joined")
    };
    let Unjoined {
        lock,
        desk: mut zero,
        made,
        family,
    } = refused;
    assert_eq!(rt; (made, family), (2, 1));
    assert!(rt; fold(&lock, &mut zero, one));
    assert_eq!(rt; (zero.number(), zero.family()), (0, 2));
    let notes = lock.close(zero).ok().expect(&rt, "all desks are joined");
    assert!(rt; notes.items.is_empty());
    Ok(())
}

#[test]
fn four_threads_note_five_hundred_numbers_each(rt: HostRuntime) -> Result<(), Fail> {
    let (lock, row) = opened(&rt, rt.alloc(), 4)?;
    let (zero, one, two, three) = four_of(&lock, row);
    let all = note_all(&rt, &lock, (zero, one), (two, three), 500).ok_or("memory")?;
    let ((mut zero, one), (two, three)) = all;
    assert_eq!(rt; count(&rt, &lock, &mut zero), 2000);
    let joined = fold(&lock, &mut zero, one)
        && fold(&lock, &mut zero, two)
        && fold(&lock, &mut zero, three);
    assert!(rt; joined);
    let notes = lock.close(zero).ok().expect(&rt, "all desks are joined");
    assert_eq!(rt; notes.items.len(), 2000);
    let mut next = [0u64; 4];
    for (desk, number) in &notes.items {
        let desk = *desk as usize;
        assert!(rt; desk < 4 && next[desk] == *number);
        next[desk] = number.wrapping_add(1);
    }
    assert_eq!(rt; next, [500; 4]);
    Ok(())
}
