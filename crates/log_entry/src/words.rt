//! The words of an image beside its entries: the head, a chain block's second and third, and those of an indirect block.

ghost use Rattle.std.specs.Prelude.{◌≡◌, ◌<◌, ◌^◌, MatchOption, IsSome, IfSome};
ghost use Rattle.log_entry.specs.Fields.{field};
ghost use Rattle.log_entry.specs.Words.{IsHeadWord, IsBlockWord, IsNoBlockWord, IsSnapshotWord, IsIndirectWord, IsRunWord};

use crate::layouts::{
    BLOCK_BASE, BLOCK_KIND, BLOCK_UNNAMED, HEAD_BLOCK, HEAD_GENERATION, HEAD_UNNAMED, LOG,
    RUN_BLOCK, RUN_COUNT, RUN_UNNAMED, RUNS_COUNT, RUNS_LEFTOVER, RUNS_RUNS, RUNS_UNNAMED,
    RUNS_VIRT, SNAPSHOT, SNAPSHOT_COUNT, SNAPSHOT_SIZE,
};

/// The head of an image: which chain is the present one.
#[derive(Clone, Copy, Debug, PartialEq, Eq)]
pub struct Head {
    /// The generation of the chain.
    pub generation: u32,
    /// The first block of the chain.
    pub block: u16,
}

impl Head {
    /// The word of this head.
    pub fn encode(&self) -> u64
        ensures { IsHeadWord self.now result }
    {
        HEAD_GENERATION.with(u64::from(self.generation)) + HEAD_BLOCK.with(u64::from(self.block))
    }

    /// The head that has this word. None exactly where one of bits 16 to 31 is set.
    pub fn decode(word: u64) -> Option<Head>
        ensures cases { MatchOption result (0 < field HEAD_UNNAMED word) (λ head. (field HEAD_UNNAMED word ≡ 0) × IsHeadWord head word) }
        ensures each { (head : Head) → IsHeadWord head word → result ≡ Some head }
    {
        (HEAD_UNNAMED.of(word) == 0).then_some(Head {
            generation: HEAD_GENERATION.of(word) as u32,
            block: HEAD_BLOCK.of(word) as u16,
        })
    }
}

/// What a block of a chain is.
#[derive(Clone, Copy, Debug, PartialEq, Eq)]
pub enum BlockKind {
    /// A block of log entries.
    Log,
    /// A block of a snapshot of the map.
    Snapshot,
}

/// The second word of a chain block: its kind and base.
#[derive(Clone, Copy, Debug, PartialEq, Eq)]
pub struct BlockWord {
    /// Log or snapshot.
    pub kind: BlockKind,
    /// The position before the first entry of a log block, or the position of the snapshot.
    pub base: u64,
}

impl BlockWord {
    /// The word of this kind and base, which is below 2 ^ 40.
    pub fn encode(&self) -> u64
        requires { self.now.base < 2 ^ 40 }
        ensures { IsBlockWord self.now result }
    {
        let kind = match self.kind {
            BlockKind::Log => LOG,
            BlockKind::Snapshot => SNAPSHOT,
        };
        BLOCK_KIND.with(kind) + BLOCK_BASE.with(self.base)
    }

    /// The kind and base that have this word. None exactly where one of bits 40 to 61 is set or the kind is 0 or 3.
    pub fn decode(word: u64) -> Option<BlockWord>
        ensures cases { MatchOption result (IsNoBlockWord word) (λ block. (IsNoBlockWord word → ⊥) × IsBlockWord block word) }
        ensures each { (block : BlockWord) → IsBlockWord block word → result ≡ Some block }
    {
        if BLOCK_UNNAMED.of(word) != 0 {
            return None;
        }
        let kind = match BLOCK_KIND.of(word) {
            LOG => BlockKind::Log,
            SNAPSHOT => BlockKind::Snapshot,
            _ => return None,
        };
        Some(BlockWord {
            kind,
            base: BLOCK_BASE.of(word),
        })
    }
}

/// The third word of a snapshot block: its count of entries, and the file's size.
#[derive(Clone, Copy, Debug, PartialEq, Eq)]
pub struct SnapshotWord {
    /// Entries in this block.
    pub count: u16,
    /// Bytes of the file.
    pub size: u64,
}

impl SnapshotWord {
    /// The word of this count and size, which is below 2 ^ 48.
    pub fn encode(&self) -> u64
        requires { self.now.size < 2 ^ 48 }
        ensures { IsSnapshotWord self.now result }
    {
        SNAPSHOT_COUNT.with(u64::from(self.count)) + SNAPSHOT_SIZE.with(self.size)
    }

    /// The count and size that have this word. Never None: each bit is named.
    pub fn decode(word: u64) -> Option<SnapshotWord>
        ensures some { IsSome result }
        ensures only { IfSome result (λ snapshot. IsSnapshotWord snapshot word) }
        ensures each { (snapshot : SnapshotWord) → IsSnapshotWord snapshot word → result ≡ Some snapshot }
    {
        Some(SnapshotWord {
            count: SNAPSHOT_COUNT.of(word) as u16,
            size: SNAPSHOT_SIZE.of(word),
        })
    }
}

/// The first word of an indirect block: what the runs after it are for.
#[derive(Clone, Copy, Debug, PartialEq, Eq)]
pub struct IndirectWord {
    /// The first virtual block.
    pub virt: u16,
    /// Blocks of all runs.
    pub count: u16,
    /// Runs in this block.
    pub runs: u16,
    /// Bytes of the last block past the end of the write, below 4096.
    pub leftover: u16,
}

impl IndirectWord {
    /// The word of these numbers, whose leftover is below 4096.
    pub fn encode(&self) -> u64
        requires { self.now.leftover < 4096 }
        ensures { IsIndirectWord self.now result }
    {
        RUNS_VIRT.with(u64::from(self.virt))
            + RUNS_COUNT.with(u64::from(self.count))
            + RUNS_RUNS.with(u64::from(self.runs))
            + RUNS_LEFTOVER.with(u64::from(self.leftover))
    }

    /// The numbers that have this word. None exactly where one of bits 60 to 63 is set.
    pub fn decode(word: u64) -> Option<IndirectWord>
        ensures cases { MatchOption result (0 < field RUNS_UNNAMED word) (λ indirect. (field RUNS_UNNAMED word ≡ 0) × IsIndirectWord indirect word) }
        ensures each { (indirect : IndirectWord) → IsIndirectWord indirect word → result ≡ Some indirect }
    {
        (RUNS_UNNAMED.of(word) == 0).then_some(IndirectWord {
            virt: RUNS_VIRT.of(word) as u16,
            count: RUNS_COUNT.of(word) as u16,
            runs: RUNS_RUNS.of(word) as u16,
            leftover: RUNS_LEFTOVER.of(word) as u16,
        })
    }
}

/// A run of an indirect block.
#[derive(Clone, Copy, Debug, PartialEq, Eq)]
pub struct RunWord {
    /// The first physical block.
    pub block: u16,
    /// Blocks of the run.
    pub count: u16,
}

impl RunWord {
    /// The word of this run.
    pub fn encode(&self) -> u64
        ensures { IsRunWord self.now result }
    {
        RUN_BLOCK.with(u64::from(self.block)) + RUN_COUNT.with(u64::from(self.count))
    }

    /// The run that has this word. None exactly where one of bits 32 to 63 is set.
    pub fn decode(word: u64) -> Option<RunWord>
        ensures cases { MatchOption result (0 < field RUN_UNNAMED word) (λ run. (field RUN_UNNAMED word ≡ 0) × IsRunWord run word) }
        ensures each { (run : RunWord) → IsRunWord run word → result ≡ Some run }
    {
        (RUN_UNNAMED.of(word) == 0).then_some(RunWord {
            block: RUN_BLOCK.of(word) as u16,
            count: RUN_COUNT.of(word) as u16,
        })
    }
}
