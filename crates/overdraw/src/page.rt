// The report, recording by recording, on a page with room for a thousand: 418 bytes each, the heading and the total.
ghost use Rattle.std.specs.Prelude.{◌≤◌, ◌≡◌, length};
ghost use Rattle.report.specs.Calls.{Adds, Room};
ghost use Rattle.tally.specs.Tally.{EachWithin};
ghost use Rattle.overdraw.specs.Text.{total_name, tally_lines};
ghost use Rattle.overdraw.specs.Report.{Come, Ready, More};

use crate::text::{name_of, put_entry, put_heading, put_tally};
use report::Page;
use tally::{Tally, enter};

// How far the report has come: how many recordings it has, and the total. Its lines end where its page has come to.
#[derive(Clone, Copy)]
pub(crate) struct Reached {
    pub(crate) files: u64,
    pub(crate) total: Tally,
}

impl Reached {
    // Begins with the heading.
    pub(crate) fn begin(page: &mut Page<'_>) -> Reached
        requires at_front { page.old.at ≡ 0 }
        requires long { 418474 ≤ length page.old.out.now }
        ensures { Come page.old page.new result }
    {
        put_heading(page);
        Reached {
            files: 0,
            total: Tally::none(),
        }
    }

    // Reports the next recording, and adds it to the total.
    pub(crate) fn add(self, bytes: &[u8], page: &mut Page<'_>) -> Reached
        requires { Ready page.old self }
        ensures { More self bytes.now page.old page.new result }
    {
        let entry = enter(bytes);
        put_entry(name_of(self.files), entry, page);
        Reached {
            files: self.files + 1,
            total: self.total.with(entry.tally),
        }
    }

    // Ends with the total.
    pub(crate) fn finish(self, page: &mut Page<'_>)
        requires each_within { EachWithin 3276000 self.total }
        requires end_in_bounds { Room 395 page.old }
        ensures { Adds (tally_lines total_name self.total) page.old page.new }
    {
        put_tally(*b"total ", self.total, page);
    }
}
