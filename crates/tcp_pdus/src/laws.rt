//! Laws of the definitions. Each function does nothing: what it ensures is the law.

ghost use Rattle.tcp_pdus.specs.Laws.{DataBeginsAligned};

/// The data of a C2HData begins at the first place that the host's alignment allows.
pub fn data_begins_aligned()
    ensures { DataBeginsAligned }
{}
