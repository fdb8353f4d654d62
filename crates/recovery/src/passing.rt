//! All conditions on an image, in their order.

ghost use Rattle.std.specs.Prelude.{◌≡◌, ◌≤◌, ◌<◌, ◌+◌, ◌*◌, length};
ghost use Rattle.recovery.specs.Passing.{PassAnswers};

use crate::headers::read_header;
use crate::reading::Reading;
use crate::refusals::OpenRefusal;
use crate::slacks::first_slack;
use crate::walks::walk_chain;
use log_entry::Geometry;
use opening_rules::BadImage;
use std::alloc::Global;

/// An image of which no condition holds: its shape, and what its chain comes to.
#[derive(Drop)]
pub struct Passed {
    /// The shape of the image.
    pub geometry: Geometry,
    /// What the blocks of its chain come to.
    pub reading: Reading,
}

/// Looks at all conditions on an image of this many bytes, of which these are the whole words, and refuses it for the first that
/// holds.
pub fn pass(alloc: Global, bytes: u64, words: &[u64]) -> Result<Passed, OpenRefusal>
    requires whole { 8 * length words.now ≤ bytes }
    requires few_left { bytes < 8 * length words.now + 8 }
    ensures { PassAnswers result bytes words.now }
{
    let geometry = match read_header(bytes, words) {
        Ok(geometry) => geometry,
        Err(why) => return Err(OpenRefusal::Bad(why)),
    };
    let reading = match walk_chain(alloc, words, geometry) {
        Ok(reading) => reading,
        Err(refusal) => return Err(refusal),
    };
    match first_slack(words, geometry, &reading.table) {
        Some(block) => Err(OpenRefusal::Bad(BadImage::BadSlack { block })),
        None => Ok(Passed { geometry, reading }),
    }
}
