//! The worked runs, played on the ends of a ring from one thread until they are brought together.

use super::open_words;
use crate::playing::check_run;
use crate::rows::RUNS;

#[test]
fn worked_rows(rt: HostRuntime) {
    for run in &RUNS {
        let ends = open_words(&rt, rt.alloc(), run.shape, run.size, run.limit);
        let _came = check_run(&rt, ends, run);
    }
}
