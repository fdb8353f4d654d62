//! The start of a just-made image of two data blocks and a log block.

ghost use Rattle.std.specs.Prelude.{◌≡◌, ◌∷◌, [], IfOk};
ghost use Rattle.log_entry.specs.Geometry.{HasShape};
ghost use Rattle.log_image.specs.Rows.{two_blocks};

use crate::Start;
use log_entry::Geometry;
use std::alloc::{AllocError, Global};
use std::test::Fail;

/// The words of the image.
fn made_words(alloc: Global) -> Result<Vec<u64>, AllocError>
    ensures { IfOk result (λ words. words.items ≡ two_blocks) }
{
    let mut words = vec![in alloc; 0u64; 192]?;
    words[0] = 3_552_576_303_075_180_877;
    words[1] = 393_217;
    words[2] = 4_294_967_298;
    words[3] = 4_294_967_299;
    words[25] = 4_611_686_018_427_387_904;
    Ok(words)
}

/// The image, with blocks 0 and 3 taken.
fn made(geometry: Geometry, words: Vec<u64>, taken: Vec<u64>) -> Start
    requires shape { HasShape geometry 2 1 64 }
    requires words { words.items ≡ two_blocks }
    requires taken { taken.items ≡ 9 ∷ [] }
{
    Start::new(geometry, words, taken, 1, 0, 0)
}

#[test]
fn a_run_starts_from_a_just_made_image(rt: HostRuntime) -> Result<(), Fail> {
    let geometry = Geometry::new(2, 1, 64)?;
    let words = made_words(rt.alloc())?;
    let taken = vec![in rt.alloc(); 9u64]?;
    let start = made(geometry, words, taken);
    assert_eq!(rt; start.geometry().total(), 24);
    assert_eq!(rt; start.words().len(), 192);
    assert_eq!(rt; start.taken().len(), 1);
    assert_eq!(rt; start.generation(), 1);
    assert_eq!(rt; start.position(), 0);
    assert_eq!(rt; start.size(), 0);
    let (words, taken) = start.into_parts();
    assert_eq!(rt; words[25], 4_611_686_018_427_387_904);
    assert_eq!(rt; taken[0], 9);
    Ok(())
}
