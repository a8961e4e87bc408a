use crate::checks::check_eq;
use budget::Holders;

#[test]
fn a_lease_that_was_handed_out_again_comes_back_once(rt: HostRuntime) {
    let Ok(mut holders) = Holders::new(rt.alloc()) else {
        panic!(rt; "no memory");
    };
    holders.mark(1, 10);
    let lease = holders.split(1, 10);
    let held = holders.load();
    holders.join(lease);
    let lease = holders.hand_out();
    holders.join(lease);
    let taken_back = holders.load();
    holders.clear();
    let left = holders.load();
    check_eq(&rt, (held, taken_back, left), (1, 1, 0));
}
