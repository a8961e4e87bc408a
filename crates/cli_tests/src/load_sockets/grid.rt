//! Loads whose numbers are drawn: small limits are met often.

use crate::load_sockets::account::account_of;
use crate::load_sockets::running::run_words;
use commands::LoadOptions;
use rand_core::utils::NextWord;
use rand_pcg::Pcg32;
use std::alloc::{AllocError, AllocGlobal, Global};
use std::str::from_utf8;

/// How many loads there are.
const LOADS: u32 = 15;

// The numbers of a load.
fn drawn_options(random: &mut Pcg32) -> LoadOptions {
    LoadOptions {
        sites: 1 + random.next_word() % 8,
        jobs: 1 + random.next_word() % 64,
        workers: 1 + random.next_word() % 8,
        host_limit: random.next_word() % 4,
        total: random.next_word() % 5,
        connects: 1 + random.next_word() % 6,
    }
}

// The words of a load with these numbers.
fn words_of(alloc: Global, options: LoadOptions) -> Result<String, AllocError> {
    let LoadOptions {
        sites,
        jobs,
        workers,
        host_limit,
        total,
        connects,
        ..
    } = options;
    format!(in alloc;
        "load --sites {sites} --jobs {jobs} --workers {workers} --host-limit {host_limit} \
        --total {total} --connects {connects}"
    )
}

#[test]
fn reports_of_drawn_loads_add_up(rt: HostRuntime) {
    let mut random = Pcg32::new(38, 0);
    for _ in 0..LOADS {
        let options = drawn_options(&mut random);
        let words = words_of(rt.alloc(), options).expect(&rt, "memory");
        let ran = run_words(&rt, &rt, words.as_str()).expect(&rt, "memory");
        assert_eq!(rt; (ran.status, ran.errors.len()), (0, 0), "{words}");
        let report = from_utf8(ran.output.as_slice()).expect(&rt, "a text");
        let account = account_of(report, options.sites).expect(&rt, "a report");
        account.check(&rt, &options);
        account.check_answered(&rt, &options);
    }
}
