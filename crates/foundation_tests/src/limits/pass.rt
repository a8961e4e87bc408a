use crate::checks::check_eq;
use budget::{Pass, Tally};

#[test]
fn a_pass_counts_each_host_for_itself(rt: HostRuntime) {
    let (Ok(mut near), Ok(mut far)) = (Tally::new(rt.alloc()), Tally::new(rt.alloc())) else {
        panic!(rt; "no memory");
    };
    let Ok(mut pass) = Pass::<u32>::new(rt.alloc(), 3) else {
        panic!(rt; "no memory");
    };
    pass.enrol(0, near.seat_pass());
    pass.enrol(2, far.seat_pass());
    check_eq(
        &rt,
        (
            pass.is_enrolled(0),
            pass.is_enrolled(1),
            pass.is_enrolled(2),
        ),
        (true, false, true),
    );
    near.start();
    let lease = near.split();
    pass.spend(0, &near, lease, 8);
    pass.tell(2, &far, 10);
    check_eq(&rt, (pass.hosts(), near.load(), far.load()), (3, 1, 0));
    check_eq(&rt, (pass.spent(0), pass.spent(2)), (1, 0));
    check_eq(&rt, (pass.last(0), pass.last(2)), (Some(8), Some(10)));
    check_eq(&rt, (pass.calls(0), pass.calls(2)), (1, 1));
    pass.discard();
}
