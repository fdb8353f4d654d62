//! Images of two data blocks and a log block: a just-made one, and one after a collection.

ghost use Rattle.std.specs.Prelude.{◌≡◌, ◌∷◌, [], IfOk};
ghost use Rattle.log_entry.specs.Geometry.{HasShape};
ghost use Rattle.log_image.specs.Rows.{two_blocks, collected};

use super::{dump, file_of, mkfs, write_file};
use io_ends::{FailingGathered, WriteAll};
use log_entry::Geometry;
use log_image::Start;
use std::alloc::{AllocError, Global};
use std::test::Fail;

/// The words of a just-made image.
fn made_words(alloc: Global) -> Result<Vec<u64>, AllocError>
    ensures { IfOk result (λ words. words.items ≡ two_blocks) }
{
    let mut words = vec![in alloc; 0u64; 192]?;
    words[0] = 3_552_576_303_075_180_877;
    words[1] = 393_217;
    words[2] = 4_294_967_298;
    words[3] = 4_294_967_299;
    words[25] = 4_611_686_018_427_387_904;
    Ok(words)
}

/// The words after a collection: a snapshot with one entry in block 5, and one entry after it in block 4.
fn collected_words(alloc: Global) -> Result<Vec<u64>, AllocError>
    ensures { IfOk result (λ words. words.items ≡ collected) }
{
    let mut words = made_words(alloc)?;
    words[3] = 8_589_934_597;
    words[8] = 204;
    words[16] = 187;
    words[24] = 4;
    words[27] = 277_076_930_461_697;
    words[28] = 277_076_930_723_841;
    words[29] = 3;
    words[33] = 4_611_686_018_427_387_906;
    words[35] = 277_076_930_461_697;
    words[40] = 4;
    words[41] = 9_223_372_036_854_775_810;
    words[42] = 281_474_976_710_657;
    words[43] = 524_289;
    Ok(words)
}

/// The image, with blocks 0, 1, 2, 4 and 5 taken.
fn after_collection(geometry: Geometry, words: Vec<u64>, taken: Vec<u64>) -> Start
    requires shape { HasShape geometry 2 1 64 }
    requires words { words.items ≡ collected }
    requires taken { taken.items ≡ 55 ∷ [] }
{
    Start::new(geometry, words, taken, 2, 3, 1)
}

#[test]
fn an_image_after_a_collection_is_read(rt: HostRuntime) -> Result<(), Fail> {
    let geometry = Geometry::new(2, 1, 64)?;
    let words = collected_words(rt.alloc())?;
    let taken = vec![in rt.alloc(); 55u64]?;
    let start = after_collection(geometry, words, taken);
    assert_eq!(rt; file_of(rt.alloc(), &start)?.as_slice(), b"\xcc".as_slice());
    let fails = vec![in rt.alloc(); 1u64]?;
    let mut sink = FailingGathered::new(rt.alloc(), fails);
    assert_eq!(rt;
        write_file(rt.alloc(), &start, &mut sink),
        Err(WriteAll::WriteFault)
    );
    assert_eq!(rt; sink.bytes().len(), 0);
    assert_eq!(rt; write_file(rt.alloc(), &start, &mut sink), Ok(()));
    assert_eq!(rt; write_file(rt.alloc(), &start, &mut sink), Ok(()));
    assert_eq!(rt; sink.bytes(), b"\xcc\xcc".as_slice());
    assert_eq!(rt;
        dump(rt.alloc(), &start)?.ends_with(b"leftover 63\nend 3 1\n"),
        true
    );
    Ok(())
}

#[test]
fn a_just_made_image_holds_no_byte(rt: HostRuntime) -> Result<(), Fail> {
    let geometry = Geometry::new(40, 4, 512)?;
    let start = mkfs(rt.alloc(), geometry)?;
    assert_eq!(rt; (start.generation(), start.position()), (1, 0));
    assert_eq!(rt; file_of(rt.alloc(), &start)?.len(), 0);
    Ok(())
}
