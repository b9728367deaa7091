//! Laws of the definitions. Each function does nothing: what it ensures is the law.

ghost use Rattle.tcp_admin.specs.Laws.{DataFitsSgl, LogsAreWhole, LogsTell, StructuresAreWhole, StructuresTell};

/// Each data structure of Identify has 4096 bytes.
pub fn structures_are_whole()
    ensures { StructuresAreWhole }
{}

/// Each log page has as many bytes as it is said to have.
pub fn logs_are_whole()
    ensures { LogsAreWhole }
{}

/// Each data structure of Identify is its fields in order, with zeros between them and behind.
pub fn structures_tell()
    ensures { StructuresTell }
{}

/// Each log page is its fields in order, with zeros between them and behind.
pub fn logs_tell()
    ensures { LogsTell }
{}

/// An admin command gives no data, or as much as its SGL descriptor says.
pub fn data_fits_sgl()
    ensures { DataFitsSgl }
{}
