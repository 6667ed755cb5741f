//! The result of a run: a status, and the page on which the script was run.

ghost use Rattle.std.specs.Prelude.{◌≡◌, None, is_some, false, IfSome};
ghost use Rattle.run_replies.specs.Statuses.{is_done};

use page_state::Page;
use run_replies::Status;

/// The result of a run.
#[derive(Drop)]
pub struct Report {
    pub status: Status,
    /// The page on which the script was run, if it was run to its end.
    pub page: Option<Page>,
}

impl Report {
    /// A report without a page. The status isn't `Done`, with which a run to its end returns its page.
    pub fn without_page(status: Status) -> Report
        requires { is_done status ≡ false }
        ensures { result ≡ record { status = status; page = None } }
    {
        Report { status, page: None }
    }

    /// The report of a run on a page, which is returned if the status is `Done` and dropped otherwise.
    pub fn with_page(status: Status, page: Page) -> Report
        ensures status { result.status ≡ status }
        ensures page { is_some result.page ≡ is_done status }
        ensures same { IfSome result.page (λ it. it ≡ page) }
    {
        match status {
            Status::Done => Report {
                status,
                page: Some(page),
            },
            _ => Report { status, page: None },
        }
    }
}
