//! Each row through `run`.
//!
//! Written from `tests/rows` by `tests/rows_agree --write`: make changes there.
mod cut;
mod fairy;
mod longer;
mod longest;
mod options;
pub(crate) mod orthodox;
mod problem_faults;
pub(crate) mod several;
mod stalemate;
mod word_faults;

use crate::report::gives;

#[test]
fn rows(rt: HostRuntime) {
    for table in &[
        &cut::ROWS[..],
        &fairy::ROWS,
        &longer::ROWS,
        &longest::ROWS,
        &options::ROWS,
        &orthodox::ROWS,
        &problem_faults::ROWS,
        &several::ROWS,
        &stalemate::ROWS,
        &word_faults::ROWS,
    ] {
        for row in *table {
            assert!(rt; gives(row), "{}", row.name);
        }
    }
}
