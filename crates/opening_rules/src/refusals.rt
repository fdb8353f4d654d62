//! Why an image is refused.

use std::fmt;

/// The first condition that holds of an image, in the order of the checks of opening.
#[derive(Clone, Copy, Debug, PartialEq, Eq)]
pub enum BadImage {
    /// Fewer bytes than the header's four words, or than the image's shape asks for.
    Short { bytes: u64 },
    /// The first word does not name the format.
    BadMagic,
    /// The version of the format is another than 1.
    BadVersion { value: u16 },
    /// The numbers of the header are no shape of an image.
    BadGeometry,
    /// The head names no generation, or a block outside the log and spare areas.
    BadHead { word: u64 },
    /// The link of a block of the chain leads to no block of the log and spare areas, or to one of the chain again.
    BadLink { block: u16, word: u64 },
    /// A block's second or third word is not that of the chain's next block.
    BadBase { block: u16, word: u64 },
    /// A slot holds a word that may not stand there.
    BadEntry { block: u16, slot: u16, word: u64 },
    /// An entry names a block of the data area that was named before in the chain.
    BadShare { block: u16 },
    /// A block has a byte past the end of the file that is not 0.
    BadSlack { block: u16 },
    /// More bytes than the image's shape asks for.
    Long { bytes: u64 },
}

/// The name of the refusal and its numbers, each after a space.
impl fmt::Display for BadImage {
    ghost use Rattle.std.specs.Prelude.{Some};
    ghost use Rattle.opening_rules.specs.RefusalText.{bad_image_text};

    ghost output = { λ why. Some (bad_image_text why) };

    fn fmt<W: fmt::Write>(&self, f: &mut fmt::Formatter<W>) -> fmt::Result {
        match self {
            BadImage::Short { bytes } => write!(f, "Short {bytes}"),
            BadImage::BadMagic => write!(f, "BadMagic"),
            BadImage::BadVersion { value } => write!(f, "BadVersion {value}"),
            BadImage::BadGeometry => write!(f, "BadGeometry"),
            BadImage::BadHead { word } => write!(f, "BadHead {word}"),
            BadImage::BadLink { block, word } => write!(f, "BadLink {block} {word}"),
            BadImage::BadBase { block, word } => write!(f, "BadBase {block} {word}"),
            BadImage::BadEntry { block, slot, word } => write!(f, "BadEntry {block} {slot} {word}"),
            BadImage::BadShare { block } => write!(f, "BadShare {block}"),
            BadImage::BadSlack { block } => write!(f, "BadSlack {block}"),
            BadImage::Long { bytes } => write!(f, "Long {bytes}"),
        }
    }
}
