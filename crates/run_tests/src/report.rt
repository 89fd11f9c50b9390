//! Runs over the rows of `tests/rows`.
use pop_run::{Settings, Status, run};
use pop_text::{TrialSink, TrialSource};

pub(crate) fn settings(check: bool) -> Settings {
    Settings {
        file: None,
        check,
        no_board: false,
    }
}

/// A row of `tests/rows`: an input with its report and status.
pub(crate) struct Row {
    pub(crate) name: &'static str,
    pub(crate) input: &'static [u8],
    pub(crate) check: bool,
    pub(crate) no_board: bool,
    pub(crate) report: &'static [u8],
    pub(crate) status: Status,
}

/// Returns whether a run over the row's input writes its report and returns its status.
pub(crate) fn gives(row: &Row) -> bool {
    let settings = Settings {
        file: None,
        check: row.check,
        no_board: row.no_board,
    };
    let mut source = TrialSource::new(row.input, 4096, None);
    let mut sink = TrialSink::<8192>::new(4096, None);
    let status = run(&settings, &mut source, &mut sink);
    status == row.status && sink.text() == row.report
}
