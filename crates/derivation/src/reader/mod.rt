//! A slip read line by line.
ghost use Rattle.std.specs.Prelude.{◌≤◌, length};
ghost use Rattle.filled.specs.Items.{items_of};

pub(crate) mod derivations;
mod jobs;
mod lines;

use filled::Filled;
use lists::MAX_JOBS;
use text::Numbered;

/// What of a slip is still to be read, and the jobs read so far, by their numbers in the table.
#[derive(Drop)]
pub(crate) struct Reader<'a> {
    lines: Numbered<'a>,
    jobs: Filled<u8, MAX_JOBS>,
    ghost few: { length (items_of jobs) ≤ 64 },
}
