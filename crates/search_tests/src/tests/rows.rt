//! All that a search must do, for each row that is one problem with its solutions.
//!
//! Written from `tests/rows` by `tests/rows_agree --write`: make changes there.
mod fairy;
mod longer;
mod longest;
mod options;
mod orthodox;
mod stalemate;

use crate::row::is_searched;

#[test]
fn rows(rt: HostRuntime) {
    for table in &[
        &fairy::ROWS[..],
        &longer::ROWS,
        &longest::ROWS,
        &options::ROWS,
        &orthodox::ROWS,
        &stalemate::ROWS,
    ] {
        for row in *table {
            assert!(rt; is_searched(row), "{}", row.name);
        }
    }
}
