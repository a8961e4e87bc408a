//! Calls of logs, limits, stamps, histograms, drawings and tables of sites.

use crate::checks::check_eq;
use budget::Lobby;
use cache::oldest_of;
use conn_key::PlaceTable;
use conn_log::{Counts, Entry, Event, Log, Stamp, Want};
use drawing::{Drawing, Point, Size, Style};
use driver::ListedJobs;
use host_state::State;
use load_figures::Histogram;
use load_report::count_part;

#[test]
fn a_new_log_has_used_no_number(rt: HostRuntime) {
    let log = Log::new(rt.alloc()).expect(&rt, "memory");
    check_eq(&rt, log.base().greatest(), 0);
    let state = State::<u32>::new(rt.alloc(), 4, 0, 1).expect(&rt, "memory");
    check_eq(&rt, state.limit(), 4);
}

#[test]
fn an_opening_is_counted(rt: HostRuntime) {
    let want = Want {
        transfer: 1,
        lane: 0,
        max_age: 0,
        max_life: 0,
        fresh: false,
        forbid_reuse: false,
    };
    let opened = Entry {
        moment: 0,
        event: Event::Opened {
            connection: 1,
            want,
        },
    };
    let counts = Counts {
        opened: 1,
        reused: 0,
        closed: 0,
        waited: 0,
    };
    check_eq(&rt, count_part(&[opened]), counts);
}

#[test]
fn a_lobby_lists_who_came(rt: HostRuntime) {
    let mut lobby = Lobby::new(rt.alloc(), 2).expect(&rt, "memory");
    lobby.enlist(1);
    check_eq(&rt, (lobby.listed(0), lobby.listed(1)), (false, true));
}

#[test]
fn the_earliest_stamp_is_found(rt: HostRuntime) {
    let later = Stamp {
        since: 7,
        host: 0,
        number: 1,
    };
    let earlier = Stamp { since: 3, ..later };
    check_eq(&rt, oldest_of(&[None, Some(later), Some(earlier)]), Some(2));
}

#[test]
fn a_histogram_adds_its_values(rt: HostRuntime) {
    let mut histogram = Histogram::new(rt.alloc()).expect(&rt, "memory");
    for &value in &[3, 4] {
        check_eq(&rt, histogram.record(value).is_ok(), true);
    }
    check_eq(&rt, histogram.total(), 7);
}

#[test]
fn a_path_has_its_points(rt: HostRuntime) {
    let size = Size {
        width: 20,
        height: 10,
    };
    let style = Style { all: "", dark: "" };
    let mut drawing = Drawing::new(rt.alloc(), size, "a", style).expect(&rt, "memory");
    let points = [Point { x: 0, y: 1 }, Point { x: 2, y: 3 }];
    drawing.path("line", &points, "b").expect(&rt, "memory");
    let text = drawing.finish().expect(&rt, "memory");
    check_eq(&rt, text.contains("points=\"0,1 2,3 \""), true);
}

#[test]
fn a_new_table_has_no_site(rt: HostRuntime) {
    let sites = PlaceTable::new(rt.alloc(), 4);
    check_eq(&rt, (sites.places(), sites.host(0)), (4, None));
    check_eq(&rt, ListedJobs::new(rt.alloc(), &[]).is_none(), true);
}
