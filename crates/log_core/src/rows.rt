//! Worked states and steps, each the contract of a function that does nothing: what they compute to, and states that are refused.

ghost use Rattle.log_core.specs.worked_rows.Rows.{JustMade, PinsInThreeSteps, ScanSeesPins, ComesToTail, BitsTaken, FenceFollows, SlotWon, SlotLost, WriteEnds, LinkWon, LinkLost, HeadWon, HeadLost, KeptUntilUnpinned, BitsCleared, BitsNotCleared, CollectEnds, SyncEnds, FilesByPosition, EarlyFiles, WalkedTrail, LacksBlocks, EntryTakenIn, ReadLays, BaseWords, SnapshotRead, QuietCalls, RepliesFit, LimitsFit};
ghost use Rattle.log_core.specs.worked_rows.Starting.{EachKindStarts};
ghost use Rattle.log_core.specs.worked_rows.AllowedSteps.{FilledNoMore, BitmapMayBeRead, AllowedKinds, BlockRuns};
ghost use Rattle.log_core.specs.worked_rows.Written.{WriteRuns, LinkRuns, EntriesNotPut};
ghost use Rattle.log_core.specs.worked_rows.TwoWriters.{TwoAtOneTail, SecondLoses, TwoWritersRun};
ghost use Rattle.log_core.specs.worked_rows.Collecting.{TwoCollect};
ghost use Rattle.log_core.specs.worked_rows.GivenBack.{CollectionRuns, OvertakenRuns};
ghost use Rattle.log_core.specs.worked_rows.ReadAgain.{ReadAgainRuns, UsedAgainRuns};
ghost use Rattle.log_core.specs.worked_rows.OldPins.{OldPinRuns};
ghost use Rattle.log_core.specs.worked_rows.NothingLeft.{NothingLeftRuns};
ghost use Rattle.log_core.specs.worked_rows.Ended.{CallsEnd, WriteNotPut, SizeBeforeTail, KeptTooEarly};
ghost use Rattle.log_core.specs.worked_rows.Joined.{SyncRuns, NoMarkOutsideOfSyncs, SeatsAreJoined};
ghost use Rattle.log_core.specs.worked_rows.Crashed.{WriteMayBeLost, LaterWriteAlone, SyncedWriteStays, EitherHeadStands, SyncedAndUnsynced};
ghost use Rattle.log_core.specs.worked_rows.Printed.{PrintedInOtherOrder, RefusedBetween};
ghost use Rattle.log_core.specs.worked_rows.Refused.{OtherEntryPossible, HeadSkips, LogHasMore, BitWithoutOwner, BlockOnTwoLists, ChainBlockFree, OtherContentPossible, PinOfAnother, ViewOfAnother, StoredNotPresent, ReplacedStillNamed, RecordOfNoWrite, SyncedMayBeLost, NamedTwice, SnapshotNamesMore, WriteOfNoSeat};
ghost use Rattle.log_core.specs.worked_rows.Gaps.{BitPastTheWord, MarkOfOwnedBlock, FloorAhead, SpentViewHolds};
ghost use Rattle.log_core.specs.worked_rows.CallGaps.{TableOfAnother, BaseFromBefore, BasesDropped, BaseLeftOver, FirstBaseShort, TailNotWalked, HeadOfNoCollection, SyncOfNoSync, CallOfNoNumber};
ghost use Rattle.log_core.specs.worked_rows.CoreGaps.{BegunPastEnd, PartsOfAnother, MadeMore, OvertakenByNone, SyncedBeforeStart, WriteOfAnotherSize, EntryOfAnotherSize, HeadBeforeTail};
ghost use Rattle.log_core.specs.worked_rows.WalkGaps.{PlaceOfAnother, FirstLogOfAnother, FirstLogFound};
ghost use Rattle.log_core.specs.worked_rows.NotedGaps.{NotedOfAnother};
ghost use Rattle.log_core.specs.worked_rows.Accepted.{PinMayBeStored, WordMayBeLoaded, WordMayBeMarked, EntryMayBePut, OrderStands, PinsStand, ViewsStand, OwnedStands, GivingsStand, RecordsStand, SyncsStand, ContentsStand, OwnersStand, PinRuns, WriteFits, ViewsJoin, ViewsSplit, LateWrite, LateSync, LateWalk, RunsMayBePut, CollectionsInTurn};

/// Worked states and steps of small images: what each comes to.
pub fn law_rows()
    ensures just_made { JustMade }
    ensures pins_in_three_steps { PinsInThreeSteps }
    ensures scan_sees_pins { ScanSeesPins }
    ensures comes_to_tail { ComesToTail }
    ensures bits_taken { BitsTaken }
    ensures fence_follows { FenceFollows }
    ensures filled_no_more { FilledNoMore }
    ensures slot_won { SlotWon }
    ensures slot_lost { SlotLost }
    ensures write_ends { WriteEnds }
    ensures link_won { LinkWon }
    ensures link_lost { LinkLost }
    ensures head_won { HeadWon }
    ensures head_lost { HeadLost }
    ensures kept_until_unpinned { KeptUntilUnpinned }
    ensures bits_cleared { BitsCleared }
    ensures bits_not_cleared { BitsNotCleared }
    ensures collect_ends { CollectEnds }
    ensures sync_ends { SyncEnds }
    ensures files_by_position { FilesByPosition }
    ensures early_files { EarlyFiles }
    ensures trail_walked { WalkedTrail }
    ensures lacks_blocks { LacksBlocks }
    ensures entry_taken_in { EntryTakenIn }
    ensures read_lays { ReadLays }
    ensures base_words { BaseWords }
    ensures snapshot_read { SnapshotRead }
    ensures quiet_calls { QuietCalls }
    ensures replies_fit { RepliesFit }
    ensures limits_fit { LimitsFit }
{}

/// Wrong states: each is refused by the clause that it breaks.
pub fn law_refused()
    ensures other_entry_possible { OtherEntryPossible }
    ensures head_skips { HeadSkips }
    ensures log_has_more { LogHasMore }
    ensures bit_without_owner { BitWithoutOwner }
    ensures block_on_two_lists { BlockOnTwoLists }
    ensures chain_block_free { ChainBlockFree }
    ensures other_content_possible { OtherContentPossible }
    ensures pin_of_another { PinOfAnother }
    ensures view_of_another { ViewOfAnother }
    ensures stored_not_present { StoredNotPresent }
    ensures replaced_still_named { ReplacedStillNamed }
    ensures record_of_no_write { RecordOfNoWrite }
    ensures synced_may_be_lost { SyncedMayBeLost }
    ensures named_twice { NamedTwice }
    ensures snapshot_names_more { SnapshotNamesMore }
    ensures write_of_no_seat { WriteOfNoSeat }
    ensures bit_past_the_word { BitPastTheWord }
    ensures mark_of_owned_block { MarkOfOwnedBlock }
    ensures floor_ahead { FloorAhead }
    ensures spent_view_holds { SpentViewHolds }
{}

/// Wrong computations, views and cores that one clause alone refuses, and what a step would make of each.
pub fn law_gaps()
    ensures table_of_another { TableOfAnother }
    ensures base_from_before { BaseFromBefore }
    ensures bases_dropped { BasesDropped }
    ensures base_left_over { BaseLeftOver }
    ensures first_base_short { FirstBaseShort }
    ensures tail_not_walked { TailNotWalked }
    ensures head_of_no_collection { HeadOfNoCollection }
    ensures sync_of_no_sync { SyncOfNoSync }
    ensures call_of_no_number { CallOfNoNumber }
    ensures write_not_put { WriteNotPut }
    ensures size_before_tail { SizeBeforeTail }
    ensures kept_too_early { KeptTooEarly }
    ensures begun_past_end { BegunPastEnd }
    ensures parts_of_another { PartsOfAnother }
    ensures made_more { MadeMore }
    ensures overtaken_by_none { OvertakenByNone }
    ensures synced_before_start { SyncedBeforeStart }
    ensures write_of_another_size { WriteOfAnotherSize }
    ensures entry_of_another_size { EntryOfAnotherSize }
    ensures head_before_tail { HeadBeforeTail }
    ensures place_of_another { PlaceOfAnother }
    ensures first_log_of_another { FirstLogOfAnother }
    ensures first_log_found { FirstLogFound }
    ensures noted_of_another { NotedOfAnother }
{}

/// Conditions of steps, and clauses that hold of states that runs come to.
pub fn law_accepted()
    ensures pin_may_be_stored { PinMayBeStored }
    ensures word_may_be_loaded { WordMayBeLoaded }
    ensures word_may_be_marked { WordMayBeMarked }
    ensures entry_may_be_put { EntryMayBePut }
    ensures each_kind_starts { EachKindStarts }
    ensures bitmap_may_be_read { BitmapMayBeRead }
    ensures allowed_kinds { AllowedKinds }
    ensures block_runs { BlockRuns }
    ensures write_runs { WriteRuns }
    ensures link_runs { LinkRuns }
    ensures entries_not_put { EntriesNotPut }
    ensures two_at_one_tail { TwoAtOneTail }
    ensures second_loses { SecondLoses }
    ensures two_writers_run { TwoWritersRun }
    ensures printed_in_other_order { PrintedInOtherOrder }
    ensures refused_between { RefusedBetween }
    ensures two_collect { TwoCollect }
    ensures collection_runs { CollectionRuns }
    ensures overtaken_runs { OvertakenRuns }
    ensures nothing_left_runs { NothingLeftRuns }
    ensures read_again_runs { ReadAgainRuns }
    ensures used_again_runs { UsedAgainRuns }
    ensures old_pin_runs { OldPinRuns }
    ensures calls_end { CallsEnd }
    ensures sync_runs { SyncRuns }
    ensures no_mark_outside_of_syncs { NoMarkOutsideOfSyncs }
    ensures seats_are_joined { SeatsAreJoined }
    ensures order_stands { OrderStands }
    ensures pins_stand { PinsStand }
    ensures views_stand { ViewsStand }
    ensures owned_stands { OwnedStands }
    ensures givings_stand { GivingsStand }
    ensures records_stand { RecordsStand }
    ensures syncs_stand { SyncsStand }
    ensures contents_stand { ContentsStand }
    ensures owners_stand { OwnersStand }
    ensures pin_runs { PinRuns }
    ensures write_fits { WriteFits }
    ensures views_join { ViewsJoin }
    ensures views_split { ViewsSplit }
    ensures late_write { LateWrite }
    ensures late_sync { LateSync }
    ensures late_walk { LateWalk }
    ensures runs_may_be_put { RunsMayBePut }
    ensures collections_in_turn { CollectionsInTurn }
{}

/// What crashes may leave of worked runs, and what it stands for.
pub fn law_left()
    ensures write_may_be_lost { WriteMayBeLost }
    ensures later_write_alone { LaterWriteAlone }
    ensures synced_write_stays { SyncedWriteStays }
    ensures either_head_stands { EitherHeadStands }
    ensures synced_and_unsynced { SyncedAndUnsynced }
{}
