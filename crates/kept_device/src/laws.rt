//! Laws of sections. Each function does nothing: what it ensures is the law.

ghost use Rattle.kept_device.specs.Sections.{ProgramsReadBack, RunsReadBack};

/// What is spelled of a slot reads back, and so does what is spelled of a run.
pub fn sections_read_back()
    ensures programs { ProgramsReadBack }
    ensures runs { RunsReadBack }
{}
