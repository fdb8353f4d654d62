//! The header of an image: the conditions on its size and its first four words.

ghost use Rattle.std.specs.Prelude.{◌≡◌, ◌≤◌, ◌<◌, ◌+◌, ◌*◌, length, true, false, Some, None, MatchResult, MatchOption, IfOk};
ghost use Rattle.log_image.specs.Image.{total, words_in, is_in_log, shape_by};
ghost use Rattle.log_image.specs.Header.{shape_of, head_block};
ghost use Rattle.opening_rules.specs.Checks.{first};
ghost use Rattle.opening_rules.specs.HeaderChecks.{header_checks, is_bad_geometry, is_bad_head, image_bytes};

use log_entry::Geometry;
use log_entry::layouts::{HEAD_BLOCK, HEAD_GENERATION, HEAD_UNNAMED};
use log_image::header::{
    HEADER_BLOCK_POWER, HEADER_DATA, HEADER_LOG, HEADER_UNNAMED, HEADER_VERSION, MAGIC, VERSION,
};
use opening_rules::BadImage;

/// The shape of an image of this many bytes, of which these are the whole words; or the refusal of the first condition on its
/// size and its header that holds.
pub fn read_header(bytes: u64, words: &[u64]) -> Result<Geometry, BadImage>
    requires whole { 8 * length words.now ≤ bytes }
    requires few_left { bytes < 8 * length words.now + 8 }
    ensures answer { MatchResult result
        (λ geometry. (first (header_checks bytes words.now) ≡ None) × (shape_by geometry ≡ shape_of words.now))
        (λ why. first (header_checks bytes words.now) ≡ Some why) }
    ensures whole { IfOk result (λ geometry. length words.now ≡ total (shape_by geometry) * words_in (shape_by geometry)) }
    ensures exact { IfOk result (λ geometry. bytes ≡ 8 * length words.now) }
    ensures long { IfOk result (λ geometry. 4 ≤ length words.now) }
    ensures head { IfOk result (λ geometry. is_in_log (shape_by geometry) (head_block words.now) ≡ true) }
{
    if bytes < 32 {
        return Err(BadImage::Short { bytes });
    }
    if words[0] != MAGIC {
        return Err(BadImage::BadMagic);
    }
    let version = HEADER_VERSION.of(words[1]);
    if version != VERSION {
        return Err(BadImage::BadVersion {
            value: version as u16,
        });
    }
    let Some(geometry) = read_shape(words) else {
        return Err(BadImage::BadGeometry);
    };
    let due = bytes_due(geometry);
    if bytes < due {
        return Err(BadImage::Short { bytes });
    }
    if bytes > due {
        return Err(BadImage::Long { bytes });
    }
    if has_bad_head(words, geometry) {
        return Err(BadImage::BadHead { word: words[3] });
    }
    Ok(geometry)
}

/// The shape that the second and the third word say, if they say one.
fn read_shape(words: &[u64]) -> Option<Geometry>
    requires { 4 ≤ length words.now }
    ensures { MatchOption result (is_bad_geometry words.now ≡ true)
        (λ geometry. (is_bad_geometry words.now ≡ false) × (shape_by geometry ≡ shape_of words.now)) }
{
    if HEADER_UNNAMED.of(words[1]) != 0 {
        return None;
    }
    let block_bytes = match HEADER_BLOCK_POWER.of(words[1]) {
        6 => 64,
        9 => 512,
        12 => 4096,
        _ => return None,
    };
    Geometry::new(
        HEADER_DATA.of(words[2]) as u32,
        HEADER_LOG.of(words[2]) as u32,
        block_bytes,
    )
    .ok()
}

/// The bytes of an image of this shape.
fn bytes_due(geometry: Geometry) -> u64
    ensures { result ≡ image_bytes (shape_by geometry) }
{
    8 * (u64::from(geometry.total()) * u64::from(geometry.q()))
}

/// Whether the head has no generation, an unnamed bit, or a block outside the log and spare areas.
fn has_bad_head(words: &[u64], geometry: Geometry) -> bool
    requires long { 4 ≤ length words.now }
    requires shape { shape_by geometry ≡ shape_of words.now }
    ensures value { result ≡ is_bad_head words.now }
    ensures inside { result ≡ false → is_in_log (shape_by geometry) (head_block words.now) ≡ true }
{
    HEAD_GENERATION.of(words[3]) == 0
        || HEAD_UNNAMED.of(words[3]) != 0
        || !is_log_block(geometry, HEAD_BLOCK.of(words[3]))
}

/// Whether a block is in the log or spare area.
fn is_log_block(geometry: Geometry, block: u64) -> bool
    ensures { result ≡ is_in_log (shape_by geometry) block }
{
    u64::from(geometry.data_blocks) < block && block < u64::from(geometry.total())
}
