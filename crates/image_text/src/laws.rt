//! Laws of the texts of a namespace, and of the versions. Each function does nothing: what it ensures is the law.

ghost use Rattle.image_text.specs.FirstFault.{FaultIsFirst};
ghost use Rattle.image_text.specs.Laws.{CutTextsAreTruncated, EachVersionLoads, FaultsAreByPrefix, LastVersionHasAll, LoadedTextsAreNamespaces, LongerTextsAreTrailing, OnlyTextsLoad, SavedTextsLoad, UpgradedStandsForTheSame, UpgradingTwiceIsOnce, VersionsAreKnown};
ghost use Rattle.image_text.specs.Numbers.{SizesAreTheProfiles};

/// What is saved loads again as the same namespace, and so does the text of each version that has its shape.
pub fn saved_texts_load()
    ensures saved { SavedTextsLoad }
    ensures each { EachVersionLoads }
{}

/// What loads is a namespace that an image can have: its zones' states, their blocks and the limits fit
/// one another.
pub fn loaded_texts_are_namespaces()
    ensures { LoadedTextsAreNamespaces }
{}

/// Nothing else loads: what does is the text, of a version, of the namespace that it stands for.
pub fn only_texts_load()
    ensures { OnlyTextsLoad }
{}

/// A text of any version and what is saved of it stand for the same namespace, and to load and save that
/// again changes nothing more.
pub fn upgrading_keeps_the_namespace()
    ensures same { UpgradedStandsForTheSame }
    ensures once { UpgradingTwiceIsOnce }
{}

/// A text is refused as cut short where any of its end is missing, and as trailing where anything is behind it.
pub fn texts_have_one_length()
    ensures cut { CutTextsAreTruncated }
    ensures longer { LongerTextsAreTrailing }
{}

/// A text is tested from its front: what stands behind the fault that it is refused with, unless that is one of its
/// end, changes nothing of that in a text that is no shorter.
pub fn faults_are_by_prefix()
    ensures { FaultsAreByPrefix }
{}

/// The fault that a text is refused with is its first: it is there, and no test before its own fails. These test, in
/// order, that 64 bytes are there, the magic, the numbers of the header and its zeros, that all zone rows are there,
/// each row, the number of written blocks, the limits, that all blocks are there, and that nothing follows.
pub fn fault_is_first()
    ensures { FaultIsFirst }
{}

/// The device has each block size and as many zones as an image of each version can have, and an image of the
/// last version can have whatever the device has.
pub fn versions_are_known()
    ensures known { VersionsAreKnown }
    ensures all { LastVersionHasAll }
{}

/// A header has 64 bytes, and what tells of a zone has 8 (profile).
pub fn sizes_are_the_profiles()
    ensures { SizesAreTheProfiles }
{}
