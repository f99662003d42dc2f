//! What the bytes of a report tell, as the contract of a function that does nothing.

ghost use Rattle.lps_telling.specs.Laws.{AllBytesTellRuns, AtomsAreTold, BytesTellBlocks, BytesTellRuns, ReportsAreGround, ReportsTellRuns, RunsAreGround};

/// What is reported tells the run, by its bytes. Ground atoms are told by their texts, and ground blocks by their bytes; so two
/// runs of as many ground cycles, with blocks of the same bytes, are one. All that is reported of a run of an accepted and
/// well-formed text is ground, as long as its numbers have 64 bits. So two such runs are one that have the same bytes of all
/// blocks, or the same report, since blocks that stand one after the other can be told apart.
pub fn telling_law()
    ensures atoms { AtomsAreTold }
    ensures block_bytes { BytesTellBlocks }
    ensures bytes { BytesTellRuns }
    ensures report_bytes { AllBytesTellRuns }
    ensures whole_report { ReportsTellRuns }
    ensures ground { RunsAreGround }
    ensures ground_report { ReportsAreGround }
{}
