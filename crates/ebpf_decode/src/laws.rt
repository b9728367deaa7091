//! Laws of spelling and decoding, for all programs. Each function does nothing: what it ensures is the law.

ghost use Rattle.ebpf_decode.specs.Laws.{BytesHaveOneProgram, DecodedIsSpelled, FaultIsFirst, FaultIsInside, SpelledIsDecoded};

/// The bytes that spell a program decode as it.
pub fn spelled_is_decoded()
    ensures { SpelledIsDecoded }
{}

/// What decodes is a program, spelled by the bytes.
pub fn decoded_is_spelled()
    ensures { DecodedIsSpelled }
{}

/// Programs that are spelled alike are one.
pub fn bytes_have_one_program()
    ensures { BytesHaveOneProgram }
{}

/// The slot of a fault is below the most slots of a program.
pub fn fault_is_inside()
    ensures { FaultIsInside }
{}

/// A refusal tells the first fault: that of the length, or else that of the slot that has whole
/// instructions alone before it and at which none begins, by the first of its checks that fails.
pub fn fault_is_first()
    ensures { FaultIsFirst }
{}
