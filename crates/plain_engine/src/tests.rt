//! A write and a read on a just-made image of two data blocks and a log block.

ghost use Rattle.std.specs.Prelude.{◌≡◌, ◌∷◌, [], IfOk};
ghost use Rattle.log_entry.specs.Geometry.{HasShape};
ghost use Rattle.log_image.specs.Rows.{two_blocks};

use crate::PlainEngine;
use log_entry::{Blob, Geometry, Op, Reply};
use log_image::Start;
use std::alloc::{AllocError, Global};
use std::test::Fail;

/// The words of the image.
fn made_words(alloc: Global) -> Result<Vec<u64>, AllocError>
    ensures { IfOk result (λ words. words.items ≡ two_blocks) }
{
    let mut words = vec![in alloc; 0u64; 192]?;
    words[0] = 3_552_576_303_075_180_877;
    words[1] = 393_217;
    words[2] = 4_294_967_298;
    words[3] = 4_294_967_299;
    words[25] = 4_611_686_018_427_387_904;
    Ok(words)
}

/// The image, with blocks 0 and 3 taken.
fn made(geometry: Geometry, words: Vec<u64>, taken: Vec<u64>) -> Start
    requires shape { HasShape geometry 2 1 64 }
    requires words { words.items ≡ two_blocks }
    requires taken { taken.items ≡ 9 ∷ [] }
{
    Start::new(geometry, words, taken, 1, 0, 0)
}

#[test]
fn calls_on_a_just_made_image(rt: HostRuntime) -> Result<(), Fail> {
    let alloc = rt.alloc();
    let geometry = Geometry::new(2, 1, 64)?;
    let start = made(geometry, made_words(alloc)?, vec![in alloc; 9u64]?);
    let mut engine = PlainEngine::new(alloc, start)?;
    let write = Op::Pwrite {
        offset: 62,
        bytes: Blob::new(vec![in alloc; 0xaa]?),
    };
    let reply = engine.answer(alloc, &write)?;
    assert_eq!(rt; matches!(&reply, Reply::Wrote { length: 1 }), true);
    let read = Op::Pread {
        offset: 61,
        length: 9,
    };
    let reply = engine.answer(alloc, &read)?;
    if let Reply::Bytes(bytes) = &reply {
        assert_eq!(rt; bytes.bytes(), b"\0\xaa".as_slice());
    } else {
        assert_eq!(rt; true, false);
    }
    assert_eq!(rt; (engine.position(), engine.size()), (1, 63));
    assert_eq!(rt; engine.into_words().get(15).copied(), Some(0xaa << 48));
    Ok(())
}
