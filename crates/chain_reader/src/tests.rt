//! The chain of an image after a collection: a snapshot in block 5, and the log in block 4.

ghost use Rattle.std.specs.Prelude.{◌≡◌, IfOk};
ghost use Rattle.log_entry.specs.Geometry.{HasShape};
ghost use Rattle.log_image.specs.Rows.{two_blocks, collected};

use super::{ChainRead, read_chain};
use log_entry::Geometry;
use std::alloc::{AllocError, Global};
use std::test::Fail;

/// The words of a just-made image.
fn made_words(alloc: Global) -> Result<Vec<u64>, AllocError>
    ensures { IfOk result (λ words. words.items ≡ two_blocks) }
{
    let mut words = vec![in alloc; 0u64; 192]?;
    words[0] = 3_552_576_303_075_180_877;
    words[1] = 393_217;
    words[2] = 4_294_967_298;
    words[3] = 4_294_967_299;
    words[25] = 4_611_686_018_427_387_904;
    Ok(words)
}

/// The words after a collection.
fn collected_words(alloc: Global) -> Result<Vec<u64>, AllocError>
    ensures { IfOk result (λ words. words.items ≡ collected) }
{
    let mut words = made_words(alloc)?;
    words[3] = 8_589_934_597;
    words[8] = 204;
    words[16] = 187;
    words[24] = 4;
    words[27] = 277_076_930_461_697;
    words[28] = 277_076_930_723_841;
    words[29] = 3;
    words[33] = 4_611_686_018_427_387_906;
    words[35] = 277_076_930_461_697;
    words[40] = 4;
    words[41] = 9_223_372_036_854_775_810;
    words[42] = 281_474_976_710_657;
    words[43] = 524_289;
    Ok(words)
}

/// What is read of them.
fn read_collected(alloc: Global, words: &[u64], geometry: Geometry) -> Result<ChainRead, AllocError>
    requires shape { HasShape geometry 2 1 64 }
    requires words { words.now ≡ collected }
{
    read_chain(alloc, words, geometry)
}

#[test]
fn an_entry_goes_before_the_snapshot(rt: HostRuntime) -> Result<(), Fail> {
    let geometry = Geometry::new(2, 1, 64)?;
    let words = collected_words(rt.alloc())?;
    let read = read_collected(rt.alloc(), &words, geometry)?;
    assert_eq!(rt; read.chain.as_slice(), [5u16, 4].as_slice());
    assert_eq!(rt; (read.position, read.table.size()), (3, 1));
    assert_eq!(rt;
        (read.tail_block, read.tail_slot, read.tail_base),
        (4, 4, 2)
    );
    assert_eq!(rt; (read.table.block(0), read.table.block(1)), (Some(1), None));
    assert_eq!(rt; read.table.mapped(), 1);
    Ok(())
}
