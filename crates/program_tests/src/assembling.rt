//! Texts and the bytes of programs, both ways, and the faults of texts.

mod outside;

use crate::slots;
use ebpf_asm::{AssembleFault, AssemblyRefusal, Fault, FaultKind, assemble, disassemble};
use ebpf_decode::decode;
use outside::PROGRAMS;
use std::alloc::Global;
use std::process::Abort;
use std::test::Fail;
use test_inputs::programs;

/// Instructions of arithmetic and byte swaps, each with its bytes (RFC 9669, 4.1 and 4.2). This table and the next two have each
/// mnemonic once.
const ARITHMETIC: &str = "\
add r1, r2 ; 0f21000000000000 | addw r3, -7 ; 04030000f9ffffff | sub r1, r2 ; 1f21000000000000 | subw r3, -7 ; 14030000f9ffffff
mul r1, r2 ; 2f21000000000000 | mulw r3, -7 ; 24030000f9ffffff | div r1, r2 ; 3f21000000000000 | divw r3, -7 ; 34030000f9ffffff
sdiv r1, r2 ; 3f21010000000000 | sdivw r3, -7 ; 34030100f9ffffff | or r1, r2 ; 4f21000000000000 | orw r3, -7 ; 44030000f9ffffff
and r1, r2 ; 5f21000000000000 | andw r3, -7 ; 54030000f9ffffff | lsh r1, r2 ; 6f21000000000000 | lshw r3, -7 ; 64030000f9ffffff
rsh r1, r2 ; 7f21000000000000 | rshw r3, -7 ; 74030000f9ffffff | mod r1, r2 ; 9f21000000000000 | modw r3, -7 ; 94030000f9ffffff
smod r1, r2 ; 9f21010000000000 | smodw r3, -7 ; 94030100f9ffffff | xor r1, r2 ; af21000000000000 | xorw r3, -7 ; a4030000f9ffffff
mov r1, r2 ; bf21000000000000 | movw r3, -7 ; b4030000f9ffffff | arsh r1, r2 ; cf21000000000000 | arshw r3, -7 ; c4030000f9ffffff
neg r4 ; 8704000000000000 | negw r4 ; 8404000000000000 | movsx8 r5, r6 ; bf65080000000000 | movsx16 r5, r6 ; bf65100000000000
movsx32 r5, r6 ; bf65200000000000 | movsx8w r5, r6 ; bc65080000000000 | movsx16w r5, r6 ; bc65100000000000
le16 r7 ; d407000010000000 | le32 r7 ; d407000020000000 | le64 r7 ; d407000040000000 | be16 r7 ; dc07000010000000
be32 r7 ; dc07000020000000 | be64 r7 ; dc07000040000000 | swap16 r7 ; d707000010000000 | swap32 r7 ; d707000020000000
swap64 r7 ; d707000040000000";

/// Jumps, a call and EXIT (RFC 9669, 4.3).
const JUMPS: &str = "\
ja +5 ; 0500050000000000 | jaw -70000 ; 0600000090eefeff | jeq r1, r2, +3 ; 1d21030000000000 | jeqw r3, 100, -3 ; 1603fdff64000000
jgt r1, r2, +3 ; 2d21030000000000 | jgtw r3, 100, -3 ; 2603fdff64000000 | jge r1, r2, +3 ; 3d21030000000000
jgew r3, 100, -3 ; 3603fdff64000000 | jset r1, r2, +3 ; 4d21030000000000 | jsetw r3, 100, -3 ; 4603fdff64000000
jne r1, r2, +3 ; 5d21030000000000 | jnew r3, 100, -3 ; 5603fdff64000000 | jsgt r1, r2, +3 ; 6d21030000000000
jsgtw r3, 100, -3 ; 6603fdff64000000 | jsge r1, r2, +3 ; 7d21030000000000 | jsgew r3, 100, -3 ; 7603fdff64000000
jlt r1, r2, +3 ; ad21030000000000 | jltw r3, 100, -3 ; a603fdff64000000 | jle r1, r2, +3 ; bd21030000000000
jlew r3, 100, -3 ; b603fdff64000000 | jslt r1, r2, +3 ; cd21030000000000 | jsltw r3, 100, -3 ; c603fdff64000000
jsle r1, r2, +3 ; dd21030000000000 | jslew r3, 100, -3 ; d603fdff64000000 | call 1 ; 8500000001000000 | exit ; 9500000000000000";

/// Loads and stores (RFC 9669, 5).
const MEMORY: &str = "\
ldxb r1, [r2+8] ; 7121080000000000 | ldxh r1, [r2+8] ; 6921080000000000 | ldxw r1, [r2+8] ; 6121080000000000
ldxdw r1, [r2+8] ; 7921080000000000 | ldxsb r1, [r2-8] ; 9121f8ff00000000 | ldxsh r1, [r2-8] ; 8921f8ff00000000
ldxsw r1, [r2-8] ; 8121f8ff00000000 | stb [r10-16], 9 ; 720af0ff09000000 | sth [r10-16], 9 ; 6a0af0ff09000000
stw [r10-16], 9 ; 620af0ff09000000 | stdw [r10-16], 9 ; 7a0af0ff09000000 | stxb [r10+0], r9 ; 739a000000000000
stxh [r10+0], r9 ; 6b9a000000000000 | stxw [r10+0], r9 ; 639a000000000000 | stxdw [r10+0], r9 ; 7b9a000000000000
lddw r1, 0x0123456789abcdef ; 18010000efcdab890000000067452301";

/// Texts that are refused, with the line and the kind of the fault.
const REFUSED: &[(&str, usize, FaultKind)] = &[
    ("mov r0, 0\nfrob r1\n", 2, FaultKind::UnknownMnemonic),
    ("top : exit", 1, FaultKind::UnknownMnemonic),
    ("exit\r", 1, FaultKind::UnknownMnemonic),
    ("mov r11, 1", 1, FaultKind::Operand),
    ("mov r1, -0x3", 1, FaultKind::Operand),
    ("stw [r1+32768], r5", 1, FaultKind::Operand),
    ("mov r1, 4294967296", 1, FaultKind::OutOfRange),
    ("jeq r1, 0, nowhere\nmov r11, 1", 2, FaultKind::Operand),
    ("jeq r1, 0, nowhere", 1, FaultKind::UnknownLabel),
    ("a:\nexit ; twice\n\ta: frob", 3, FaultKind::LabelTwice),
    ("ja nowhere\nexit ; \u{e9}\nfrob", 2, FaultKind::NotAscii),
];

/// Texts with labels, comments, blanks and line ends, and their bytes.
const ACCEPTED: &[(&str, &str)] = &[
    ("", ""),
    ("; nothing\n\n  top:\t; at the end", ""),
    ("lddw r1, -1", "18010000ffffffff00000000ffffffff"),
    ("add r1, 0xffffffff", "07010000ffffffff"),
    ("top: ja top", "0500ffff00000000"),
    ("stxdw [r10-8], r1", "7b1af8ff00000000"),
    (
        "  jeq r1,7,end\r\n\tlddw r2 , 0xFf\r\nend:exit;done",
        "150102000700000018020000ff00000000000000000000009500000000000000",
    ),
    (
        "call -1\nldxw r3, [r4]\n_a1: jaw _a1",
        "85000000ffffffff614300000000000006000000ffffffff",
    ),
];

/// How the third and the fourth of them are listed.
const LISTED: &str =
    "lddw r1, 0xffffffffffffffff ; 18010000ffffffff00000000ffffffff | add r1, -1 ; 07010000ffffffff";

/// Compares the listing of the program with these bytes, and what that assembles to.
fn check_listing(rt: &impl Abort, alloc: Global, bytes: &[u8], listing: &str) -> Result<(), Fail> {
    let text = disassemble(alloc, &decode(alloc, bytes)?)?;
    assert_eq!(rt; text.as_str(), listing);
    let again = assemble(alloc, text.as_bytes())?;
    assert_eq!(rt; again.as_slice(), bytes, "{listing}");
    Ok(())
}

/// Compares both ways the instructions of a table with their bytes, which stand behind the first `;` of each.
fn check_table(rt: &impl Abort, alloc: Global, table: &str) -> Result<(), Fail> {
    let (mut bytes, mut listing) = (Vec::new(alloc), String::new(alloc));
    for line in table.lines() {
        for instruction in line.split(" | ") {
            let (text, told) = instruction.split_once(" ; ").ok_or("no bytes")?;
            let (digits, _) = told.split_once(" ; ").unwrap_or((told, ""));
            bytes.extend_from_slice(&hex::decode(alloc, digits)?)?;
            listing.push_str(text)?;
            listing.push_str("\n")?;
        }
    }
    check_listing(rt, alloc, bytes.as_slice(), listing.as_str())
}

#[test]
fn programs_are_listed_and_assembled_again(rt: HostRuntime) -> Result<(), Fail> {
    for table in [ARITHMETIC, JUMPS, MEMORY, LISTED] {
        check_table(&rt, rt.alloc(), table)?;
    }
    for table in PROGRAMS {
        check_table(&rt, rt.alloc(), table)?;
    }
    let bytes = slots::bytes_of(rt.alloc(), &slots::MATCHING)?;
    let listing = format!(in rt.alloc(); "{}\n", programs::MATCHING)?;
    check_listing(&rt, rt.alloc(), bytes.as_slice(), listing.as_str())
}

/// The line and the kind of a text's fault.
fn fault_of(alloc: Global, text: &str) -> Result<(usize, FaultKind), Fail> {
    match assemble(alloc, text.as_bytes()) {
        Ok(_) => Err(Fail::from("it assembles")),
        Err(AssembleFault::Fault(fault)) => Ok((fault.line, fault.kind)),
        Err(AssembleFault::Memory) => Err(Fail::from("no memory")),
    }
}

#[test]
fn texts_assemble_or_are_refused(rt: HostRuntime) -> Result<(), Fail> {
    for (text, digits) in ACCEPTED {
        let bytes = assemble(rt.alloc(), text.as_bytes())?;
        let wanted = hex::decode(rt.alloc(), digits)?;
        assert_eq!(rt; bytes.as_slice(), wanted.as_slice(), "{text}");
    }
    for (text, line, kind) in REFUSED {
        assert_eq!(rt; fault_of(rt.alloc(), text)?, (*line, *kind), "{text}");
    }
    Ok(())
}

/// No text gives this fault: a program has at most 4096 slots, and a jump reaches 32767.
#[test]
fn a_label_too_far_away_has_a_sentence(rt: HostRuntime) -> Result<(), Fail> {
    let fault = Fault {
        line: 2,
        kind: FaultKind::LabelTooFar,
    };
    let refusal = AssemblyRefusal::of(fault, b"exit\n ja far\n");
    let text = format!(in rt.alloc(); "{refusal}")?;
    let said = "line 2: \"ja far\": the label that is jumped to is too far away";
    assert_eq!(rt; text.as_str(), said);
    Ok(())
}
