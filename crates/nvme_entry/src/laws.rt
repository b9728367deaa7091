//! Laws of the definitions that the contracts of this crate cite. Each function does nothing: what
//! it ensures is the law.

ghost use Rattle.nvme_entry.specs.EntryLaws.{FieldsAreSpelled, OnlyNamedFieldsCount, SpelledEntriesAreDecoded};
ghost use Rattle.nvme_entry.specs.ReportLaws.{ReportsGiveWhatMatches};
ghost use Rattle.nvme_entry.specs.CompletionFields.{CompletionsTell};
ghost use Rattle.nvme_entry.specs.Numbers.{LimitsAreTheProfiles, ReportsAreTheStandards};

/// An entry that is decoded to a command has its opcode and its fields at their bytes, is for namespace 1 and no part of a
/// fused command.
pub fn fields_are_spelled()
    ensures { FieldsAreSpelled }
{}

/// An entry whose bytes spell a command, that is for namespace 1 and no part of a fused command, is decoded to it.
pub fn spelled_entries_are_decoded()
    ensures { SpelledEntriesAreDecoded }
{}

/// Entries that agree in what they spell, and in their opcode, FUSE and namespace, are decoded or refused alike, whatever
/// else stands in them.
pub fn only_named_fields_count()
    ensures { OnlyNamedFieldsCount }
{}

/// A completion's 16 bytes give back its dwords, its queue and its command's identifier, and the code and the
/// type of its status.
pub fn completions_tell()
    ensures { CompletionsTell }
{}

/// A report has the length of its transfer. One with room for its header tells how many zones match, or with Partial how
/// many are given, and gives the descriptors of the zones that match, in order, as many as fit whole, with zeros behind them.
pub fn reports_give_what_matches()
    ensures { ReportsGiveWhatMatches }
{}

/// A report's header and each of its zone descriptors have 64 bytes, and the zone type is Sequential Write Required
/// (ZNS 1.1, 3.4.2).
pub fn reports_are_the_standards()
    ensures { ReportsAreTheStandards }
{}

/// A command moves 131072 bytes at most (profile), and names 65536 blocks at most. There are eight slots for programs
/// (profile).
pub fn limits_are_the_profiles()
    ensures { LimitsAreTheProfiles }
{}
