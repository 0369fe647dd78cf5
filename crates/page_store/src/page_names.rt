// Whether what a scan found may be copied.
ghost use Rattle.std.specs.Prelude.{◌↔◌, IsTrue};
ghost use Rattle.transactions.specs.Sources.{IsPageName};
ghost use Rattle.mount_scan.specs.Listed.{listed};
ghost use Rattle.page_store.specs.Opened.{name_in, HaveNames};

use mount_scan::{BUCKETS, FoundPages, PageCopy};

/// Whether the page's name may be in a tag of the group of this number.
fn has_name(found: PageCopy, number: u64) -> bool
    ensures { IsTrue result ↔ IsPageName number (name_in found) }
{
    found.object >= 1 && found.version >= 1 && found.version <= number
}

/// Whether this is so of each page of a list.
fn are_named(list: &[PageCopy], number: u64) -> bool
    ensures { IsTrue result ↔ HaveNames number list.now }
{
    for found in list {
        if !has_name(*found, number) {
            return false;
        }
    }
    true
}

/// Whether this is so of each page that was found.
pub(crate) fn have_names(newest: &FoundPages, number: u64) -> bool
    ensures { IsTrue result ↔ HaveNames number (listed newest.now) }
{
    for at in 0..BUCKETS {
        if !are_named(newest.bucket(at), number) {
            return false;
        }
    }
    true
}
