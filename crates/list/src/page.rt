// Pages of a listing, of 2,520 lines each: as many as fit a buffer of 65,536 bytes.
ghost use Rattle.std.specs.Prelude.{◌≤◌, length};
ghost use Rattle.report.specs.Calls.{Stands};
ghost use Rattle.list.specs.List.{page_of};

use listing::write::list;

// Puts the lines of the words from `from` on. They always fit.
pub(crate) fn put_page(words: &[u32], from: usize, page: &mut [u8; 65536]) -> usize
    requires from_in_bounds { from ≤ length words.now }
    requires words_len_bound { length words.now ≤ 419430 }
    ensures { Stands (page_of words.now from) page.old page.new result }
{
    let rest = &words[from..];
    let n = rest.len().min(2520);
    list(from as u32, &rest[..n], page).unwrap()
}
