//! The image that a command reads.

ghost use Rattle.std.specs.Prelude.{◌≡◌, ℕ, List, Some, IfOk, IfErr, OnOk};
ghost use Rattle.io_ends.specs.Taking.{IsAtEnd};
ghost use Rattle.opening_rules.specs.declared.refusals.BadImage.{BadImage};
ghost use Rattle.madfs_cli.specs.Images.{RefusesImage, OpensTo};
ghost use Rattle.madfs_cli.specs.Replays.{StandForAFile};
ghost use Rattle.madfs_cli.specs.Inputs.{IsNotOpened};

use crate::statuses::Status;
use io_ends::{ReadAll, Source};
use log_image::Start;
use opening_rules::BadImage;
use recovery::{OpenRefusal, open_words_with_rest};
use std::alloc::Global;
use word_reader::{WordsRead, read_words};

/// The most bytes that an image may have: 65,535 blocks of 4,096 bytes.
const IMAGE_LIMIT: usize = 268_431_360;

/// The image that a source has left, read to its end, opened and cleared.
pub fn open_image<I: Source>(alloc: Global, image: &mut I) -> Result<Start, Status>
    ensures opened { IfOk result (λ start. (bytes : List ℕ) → I.left image.old ≡ Some bytes → OpensTo bytes start.words.items) }
    ensures stands { IfOk result (λ start. StandForAFile start.words.items) }
    ensures accepted { IfOk result (λ start. (bytes : List ℕ) (why : BadImage) → I.left image.old ≡ Some bytes → RefusesImage bytes why → ⊥) }
    ensures end { OnOk result (IsAtEnd (I.left image.new)) }
    ensures refused { IfErr result (IsNotOpened (I.left image.old) (I.faults image.old) (I.faults image.new)) }
{
    let WordsRead { words, rest } = match read_words(alloc, image, IMAGE_LIMIT) {
        Ok(read) => read,
        Err(ReadAll::ReadFault) => return Err(Status::ReadFault),
        Err(ReadAll::TooLong) => {
            return Err(Status::BadImage(BadImage::Long {
                bytes: IMAGE_LIMIT as u64 + 1,
            }));
        }
        Err(ReadAll::NoMemory) => return Err(Status::NoMemory),
    };
    match open_words_with_rest(alloc, words, &rest) {
        Ok(opened) => Ok(opened.clear()),
        Err(OpenRefusal::Bad(why)) => Err(Status::BadImage(why)),
        Err(OpenRefusal::NoMemory) => Err(Status::NoMemory),
    }
}
