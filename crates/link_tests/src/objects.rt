//! An object as clang makes it, and the same one with a wrong field.

use crate::calls_object::calls;
use ebpf_gather::{Reference, reference_of};
use ebpf_object::{Object, ObjectFault};
use std::alloc::Global;
use std::str;
use std::test::Fail;

/// The sections of the object with their relocations, which are those that `llvm-readelf -Sr` prints.
const SECTIONS: &str = "\
0 \"\" Null
1 \".strtab\" StringTable
2 \".text\" ProgramBits
3 \".rel.text\" Relocations
  50 WideImmediate 6
  90 Call 7
  b0 Call 7
  c8 WideImmediate 5
4 \".rodata.str1.1\" ProgramBits
5 \".rodata\" ProgramBits
6 \".symtab\" SymbolTable
";

/// Each section, and the byte that each of its relocations changes, how, and by which symbol.
fn sections(alloc: Global, object: &Object<'_>) -> Result<String, Fail> {
    let mut text = String::new(alloc);
    for number in 0..object.section_count() {
        let name = str::from_utf8(object.section_name(number))
            .ok()
            .ok_or("no name")?;
        let kind = object.section(number).kind;
        writeln!(text, "{number} {name:?} {kind:?}")?;
        for place in 0..object.relocation_count(number) {
            let relocation = object.relocation(number, place);
            let (byte, symbol) = (relocation.offset, relocation.symbol);
            let kind = relocation.kind.ok_or("no kind")?;
            writeln!(text, "  {byte:x} {kind:?} {symbol}")?;
        }
    }
    Ok(text)
}

/// Its symbols, which are those that `llvm-readelf -s` prints, and what the slots of its functions refer to: `weight` calls `prime` by its
/// distance alone, which no relocation changes.
const SYMBOLS: &str = "\
0 \"\" Local Untold Undefined 0 0
1 \"calls.c\" Local File Reserved(65521) 0 0
2 \"prime\" Local Function Section(2) 40 56
  slot 2: Data { section: 5, byte: 0 }
3 \"primes\" Local Data Section(5) 0 20
4 \"LBB2_2\" Local Untold Section(2) e8 0
5 \"\" Local Section Section(4) 0 0
6 \"\" Local Section Section(5) 0 0
7 \"weight\" Global Function Section(2) 0 64
  slot 5: Function(Function { section: 2, offset: 64, slots: 7 })
8 \"filter\" Global Function Section(2) 78 128
  slot 3: Function(Function { section: 2, offset: 0, slots: 8 })
  slot 7: Function(Function { section: 2, offset: 0, slots: 8 })
  slot 10: Data { section: 4, byte: 0 }
";

/// Each symbol, and of a function each slot that refers to something.
fn symbols(alloc: Global, object: &Object<'_>) -> Result<String, Fail> {
    let mut text = String::new(alloc);
    for number in 0..object.symbol_count() {
        let name = str::from_utf8(object.symbol_name(number))
            .ok()
            .ok_or("no name")?;
        let symbol = object.symbol(number);
        let (binding, kind, place) = (symbol.binding, symbol.kind, symbol.place);
        let (value, size) = (symbol.value, symbol.size);
        writeln!(
            text,
            "{number} {name:?} {binding:?} {kind:?} {place:?} {value:x} {size}"
        )?;
        let Some(function) = object.function(number) else {
            continue;
        };
        for slot in 0..function.slots {
            match reference_of(object, function, slot) {
                Ok(Reference::Nothing) => (),
                Ok(reference) => writeln!(text, "  slot {slot}: {reference:?}")?,
                Err(_) => return Err(Fail::from("a wrong reference")),
            }
        }
    }
    Ok(text)
}

#[test]
fn what_an_object_has(rt: HostRuntime) -> Result<(), Fail> {
    let bytes = calls(rt.alloc())?;
    let object = Object::read(&bytes)?;
    assert_eq!(rt; sections(rt.alloc(), &object)?.as_str(), SECTIONS);
    assert_eq!(rt; symbols(rt.alloc(), &object)?.as_str(), SYMBOLS);
    Ok(())
}

/// A byte of the object, what it becomes, and the fault that is told then.
const WRONG: &str = "\
0 0 Header(Magic)
4 1 Header(Class)
5 2 Header(Encoding)
16 2 Header(Type)
18 62 Header(Machine)
58 63 Header(HeaderSize)
47 1 Header(Outside)
62 7 Header(Names)
62 2 Header(Names)
1108 1 NoSymbols
849 1 Section { section: 2, fault: Name }
879 1 Section { section: 2, fault: Outside }
715 120 Section { section: 1, fault: Unended }
1136 217 Section { section: 6, fault: Overlap(3) }
1136 215 Section { section: 6, fault: Entries }
1144 2 Section { section: 6, fault: Strings }
916 4 Section { section: 3, fault: Addends }
944 65 Section { section: 3, fault: Overlap(1) }
944 63 Section { section: 3, fault: Entries }
952 5 Section { section: 3, fault: Symbols }
956 7 Section { section: 3, fault: Target }
393 1 Symbol { symbol: 2, fault: Name }
398 9 Symbol { symbol: 2, fault: Section }
408 249 Symbol { symbol: 2, fault: Outside }
408 57 Symbol { symbol: 2, fault: Function }
576 244 Relocation { section: 3, number: 1, fault: Outside }
584 5 Relocation { section: 3, number: 1, fault: Type }
588 9 Relocation { section: 3, number: 1, fault: Symbol }
";

/// The fault of the object with another byte at a place.
fn fault_of(alloc: Global, at: usize, byte: u8) -> Result<ObjectFault, Fail> {
    let mut bytes = calls(alloc)?;
    if at >= bytes.len() {
        return Err(Fail::from("no byte"));
    }
    bytes[at] = byte;
    match Object::read(&bytes) {
        Ok(_) => Err(Fail::from("an object")),
        Err(fault) => Ok(fault),
    }
}

#[test]
fn an_object_with_a_wrong_byte(rt: HostRuntime) -> Result<(), Fail> {
    for line in WRONG.lines() {
        let (at, told) = line.split_once(' ').ok_or("no byte")?;
        let (byte, wanted) = told.split_once(' ').ok_or("no fault")?;
        let fault = fault_of(rt.alloc(), at.parse::<usize>()?, byte.parse::<u8>()?)?;
        let said = format!(in rt.alloc(); "{fault:?}")?;
        assert_eq!(rt; said.as_str(), wanted, "{line}");
    }
    Ok(())
}
