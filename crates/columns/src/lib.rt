// The theory of columns: formats, columns, what a row says, interleaving, parcels, the ledger of calls. Each function here
// stands for a theorem, which its contract states; none does anything.
#![tactic(auto)]

ghost use Rattle.columns.specs.Bytes.{BitsReadBack, NumbersReadBack, ViewsReadBack, ByteExamples};
ghost use Rattle.columns.specs.ListKind.{ListsAreListKinds, GatheringKeepsRanges, GatheringExamples};
ghost use Rattle.columns.specs.Types.{AlikeIsSameType};
ghost use Rattle.columns.specs.Exact.{SoundnessTestIsExact};
ghost use Rattle.columns.specs.Promises.{ParcelIsSound, RowsFollowPairs, MadeColumnIsSound};
ghost use Rattle.columns.specs.Laws.{RowsTakeWhatIsHeld, RunsStopWhereEntriesChange, BuffersListedByFirstUse, OffsetsAreTotals, MasksMadeWhereNeeded, NoPairsMakeEmpty};
ghost use Rattle.columns.specs.Chain.{GatheringFromGathered};
ghost use Rattle.columns.specs.Denials.{DenialsAreFirst};
ghost use Rattle.columns.specs.Run.{EveryRunKeepsItsPromises, ShelvedColumnsStay};
ghost use Rattle.columns.specs.Examples.{SmallExamples};
ghost use Rattle.columns.specs.Cases.{LedgerCases, FormatCases};
ghost use Rattle.columns.specs.Large.{LargeCases};

// The test of two columns' types tells exactly whether they have one type.
pub fn alike_is_same_type()
    ensures { AlikeIsSameType }
{}

// A parcel that meets no denial gives a sound column within the limits, and its numbers fit their widths.
pub fn parcel_is_sound()
    ensures { ParcelIsSound }
{}

// The test of a node's soundness passes exactly when the node that was sent is sound.
pub fn soundness_test_is_exact()
    ensures { SoundnessTestIsExact }
{}

// Row k of an interleaved column says what pair k's row says.
pub fn rows_follow_pairs()
    ensures { RowsFollowPairs }
{}

// A made column is sound and has its sources' type, depth and number of nodes; it is within the limits where no check of
// its nodes fails, and its numbers then fit their widths.
pub fn made_column_is_sound()
    ensures { MadeColumnIsSound }
{}

// At every depth a made row takes what its pair's row holds, under a null too.
pub fn rows_take_what_is_held()
    ensures { RowsTakeWhatIsHeld }
{}

// Run ends climb strictly to the length, and a run stops exactly where no row follows or the next has another source or entry.
pub fn runs_stop_where_entries_change()
    ensures { RunsStopWhereEntriesChange }
{}

// A made view node uses what the rows taken claim, and lists exactly these buffers, once each, in first-use order.
pub fn buffers_listed_by_first_use()
    ensures { BuffersListedByFirstUse }
{}

// The offsets of a made node are the running totals of the lengths of the rows taken.
pub fn offsets_are_totals()
    ensures { OffsetsAreTotals }
{}

// A mask is made exactly where a source has a null; for a primitive child of a list, where a copied row is null.
pub fn masks_made_where_needed()
    ensures { MasksMadeWhereNeeded }
{}

// With no pairs every made node is empty: a single offset 0, no mask, no buffers.
pub fn no_pairs_make_empty()
    ensures { NoPairsMakeEmpty }
{}

// Gathering from gathered sources, followed back, gives the totals and child rows of gathering directly.
pub fn gathering_from_gathered()
    ensures { GatheringFromGathered }
{}

// A call is denied by the first of its checks that fails, in their order, and accepted where none fails.
pub fn denials_are_first()
    ensures { DenialsAreFirst }
{}

// After any list of calls on a fresh shelf: columns are sound, rows say what they lead to, runs, buffer lists, offsets and
// masks are as they must be, and chains of interleaves lay out as direct ones.
pub fn every_run_keeps_its_promises()
    ensures { EveryRunKeepsItsPromises }
{}

// Later calls, accepted or denied, leave every shelved column as it is, and its rows say what they said.
pub fn shelved_columns_stay()
    ensures { ShelvedColumnsStay }
{}

// Ten small examples hold of the definitions.
pub fn small_examples()
    ensures { SmallExamples }
{}

// Worked runs and denials hold of the definitions.
pub fn ledger_cases()
    ensures { LedgerCases }
{}

// Every format string has its kind, and what is none has none.
pub fn format_cases()
    ensures { FormatCases }
{}

// Totals of 32 bits have a limit that those of 64 bits have not.
pub fn large_cases()
    ensures { LargeCases }
{}

// Bits packed eight to a byte, numbers by their bytes and views by their halves read back as they were written.
pub fn bytes_read_back()
    ensures bits { BitsReadBack }
    ensures numbers { NumbersReadBack }
    ensures views { ViewsReadBack }
    ensures examples { ByteExamples }
{}

// Offset lists, maps and fixed-size lists are of a list kind; whatever the list kinds, gathering lays each pair's range
// out between two totals, in order, and gathering again follows back to gathering directly.
pub fn gathering_keeps_ranges()
    ensures kinds { ListsAreListKinds }
    ensures gathering { GatheringKeepsRanges }
    ensures examples { GatheringExamples }
{}
