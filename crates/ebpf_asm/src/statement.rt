//! Statements: a mnemonic and its operands.

ghost use Rattle.std.specs.Prelude.{◌≡◌, option_copied, None};
ghost use Rattle.ebpf_asm.specs.declared.mnemonic.Mnemonic.TheVariants as mnemonics;
ghost use Rattle.std.specs.Result.{result_map_both};
ghost use Rattle.ebpf_asm.specs.Statement.{operands_of, none_of, one_of, two_of, three_of, statement_with, statement_of};
ghost use Rattle.ebpf_asm.specs.steps.LineView.{statement_view};

use crate::fault::FaultKind;
use crate::mnemonic::Mnemonic;
use crate::number::{immediate, wide};
use crate::operand::{both, label, long_distance, memory, register, short_distance, source};
use instruction_set::{
    Instruction, Operation, Relation, SignExtension, SignedSize, Size, Swap, SwapSize, Width,
};
use text_lines::{cut, trim, word};

/// An instruction. Where it jumps to a label, its distance is 0 and the label stands beside it.
#[derive(Clone, Copy)]
pub struct Statement<'a> {
    /// The instruction.
    pub instruction: Instruction,
    /// The label that it jumps to, if its text names one.
    pub target: Option<&'a [u8]>,
}

fn plain<'a>(instruction: Instruction) -> Statement<'a>
    ensures instruction { result.instruction ≡ instruction }
    ensures target { option_copied result.target ≡ None }
{
    Statement {
        instruction,
        target: None,
    }
}

/// The statement that a text without blanks at its ends is.
#[tactic(auto, unfolding(crate::specs::Statement::statement_of))]
pub(crate) fn read(text: &[u8]) -> Result<Statement<'_>, FaultKind>
    ensures { statement_view result ≡ statement_of text.now }
{
    let (name, operands) = word(text);
    let mnemonic = Mnemonic::named(name).ok_or(FaultKind::UnknownMnemonic)?;
    with_operands(mnemonic, operands)
}

fn with_operands(mnemonic: Mnemonic, operands: &[u8]) -> Result<Statement<'_>, FaultKind>
    ensures { statement_view result ≡ statement_with mnemonic (operands_of operands.now) }
{
    match mnemonic {
        Mnemonic::LoadImmediate => load_immediate(operands),
        Mnemonic::Load(size) => load(size, operands),
        Mnemonic::LoadSigned(size) => load_signed(size, operands),
        Mnemonic::StoreImmediate(size) => store_immediate(size, operands),
        Mnemonic::StoreRegister(size) => store_register(size, operands),
        Mnemonic::Arithmetic(width, operation) => arithmetic(width, operation, operands),
        Mnemonic::Negate(width) => negate(width, operands),
        Mnemonic::MoveSigned(extension) => move_signed(extension, operands),
        Mnemonic::SwapBytes(swap, size) => swap_bytes(swap, size, operands),
        Mnemonic::Jump => jump(operands),
        Mnemonic::JumpLong => jump_long(operands),
        Mnemonic::Branch(width, relation) => branch(width, relation, operands),
        Mnemonic::Call => call(operands),
        Mnemonic::Exit => exit(operands),
    }
}

#[tactic(auto, unfolding(crate::specs::Statement::statement_with))]
fn load_immediate(operands: &[u8]) -> Result<Statement<'_>, FaultKind>
    ensures { statement_view result ≡ statement_with mnemonics.LoadImmediate (operands_of operands.now) }
{
    let (dst, value) = two(operands)?;
    let (dst, value) = both(register(dst), wide(value))?;
    Ok(plain(Instruction::LoadImmediate { dst, value }))
}

#[tactic(auto, unfolding(crate::specs::Statement::statement_with))]
fn load(size: Size, operands: &[u8]) -> Result<Statement<'_>, FaultKind>
    ensures { statement_view result ≡ statement_with (mnemonics.Load size) (operands_of operands.now) }
{
    let (dst, src) = two(operands)?;
    let (dst, (src, offset)) = both(register(dst), memory(src))?;
    Ok(plain(Instruction::Load {
        size,
        dst,
        src,
        offset,
    }))
}

#[tactic(auto, unfolding(crate::specs::Statement::statement_with))]
fn load_signed(size: SignedSize, operands: &[u8]) -> Result<Statement<'_>, FaultKind>
    ensures { statement_view result ≡ statement_with (mnemonics.LoadSigned size) (operands_of operands.now) }
{
    let (dst, src) = two(operands)?;
    let (dst, (src, offset)) = both(register(dst), memory(src))?;
    Ok(plain(Instruction::LoadSigned {
        size,
        dst,
        src,
        offset,
    }))
}

#[tactic(auto, unfolding(crate::specs::Statement::statement_with))]
fn store_immediate(size: Size, operands: &[u8]) -> Result<Statement<'_>, FaultKind>
    ensures { statement_view result ≡ statement_with (mnemonics.StoreImmediate size) (operands_of operands.now) }
{
    let (dst, value) = two(operands)?;
    let ((dst, offset), value) = both(memory(dst), immediate(value))?;
    Ok(plain(Instruction::StoreImmediate {
        size,
        dst,
        offset,
        value,
    }))
}

#[tactic(auto, unfolding(crate::specs::Statement::statement_with))]
fn store_register(size: Size, operands: &[u8]) -> Result<Statement<'_>, FaultKind>
    ensures { statement_view result ≡ statement_with (mnemonics.StoreRegister size) (operands_of operands.now) }
{
    let (dst, src) = two(operands)?;
    let ((dst, offset), src) = both(memory(dst), register(src))?;
    Ok(plain(Instruction::StoreRegister {
        size,
        dst,
        src,
        offset,
    }))
}

#[tactic(auto, unfolding(crate::specs::Statement::statement_with))]
fn arithmetic(
    width: Width,
    operation: Operation,
    operands: &[u8],
) -> Result<Statement<'_>, FaultKind>
    ensures { statement_view result ≡ statement_with (mnemonics.Arithmetic width operation) (operands_of operands.now) }
{
    let (dst, value) = two(operands)?;
    let (dst, source) = both(register(dst), source(value))?;
    Ok(plain(Instruction::Arithmetic {
        width,
        operation,
        dst,
        source,
    }))
}

#[tactic(auto, unfolding(crate::specs::Statement::statement_with))]
fn negate(width: Width, operands: &[u8]) -> Result<Statement<'_>, FaultKind>
    ensures { statement_view result ≡ statement_with (mnemonics.Negate width) (operands_of operands.now) }
{
    let dst = register(one(operands)?)?;
    Ok(plain(Instruction::Negate { width, dst }))
}

#[tactic(auto, unfolding(crate::specs::Statement::statement_with))]
fn move_signed(extension: SignExtension, operands: &[u8]) -> Result<Statement<'_>, FaultKind>
    ensures { statement_view result ≡ statement_with (mnemonics.MoveSigned extension) (operands_of operands.now) }
{
    let (dst, src) = two(operands)?;
    let (dst, src) = both(register(dst), register(src))?;
    Ok(plain(Instruction::MoveSigned {
        extension,
        dst,
        src,
    }))
}

#[tactic(auto, unfolding(crate::specs::Statement::statement_with))]
fn swap_bytes(swap: Swap, size: SwapSize, operands: &[u8]) -> Result<Statement<'_>, FaultKind>
    ensures { statement_view result ≡ statement_with (mnemonics.SwapBytes swap size) (operands_of operands.now) }
{
    let dst = register(one(operands)?)?;
    Ok(plain(Instruction::SwapBytes { swap, size, dst }))
}

#[tactic(auto, unfolding(crate::specs::Statement::statement_with))]
fn jump(operands: &[u8]) -> Result<Statement<'_>, FaultKind>
    ensures { statement_view result ≡ statement_with mnemonics.Jump (operands_of operands.now) }
{
    let target = one(operands)?;
    let distance = short_distance(target)?;
    Ok(Statement {
        instruction: Instruction::Jump { distance },
        target: label(target),
    })
}

#[tactic(auto, unfolding(crate::specs::Statement::statement_with))]
fn jump_long(operands: &[u8]) -> Result<Statement<'_>, FaultKind>
    ensures { statement_view result ≡ statement_with mnemonics.JumpLong (operands_of operands.now) }
{
    let target = one(operands)?;
    let distance = long_distance(target)?;
    Ok(Statement {
        instruction: Instruction::JumpLong { distance },
        target: label(target),
    })
}

#[tactic(auto, unfolding(crate::specs::Statement::statement_with))]
fn branch(width: Width, relation: Relation, operands: &[u8]) -> Result<Statement<'_>, FaultKind>
    ensures { statement_view result ≡ statement_with (mnemonics.Branch width relation) (operands_of operands.now) }
{
    let (dst, value, target) = three(operands)?;
    let ((dst, source), distance) = both(
        both(register(dst), source(value)),
        short_distance(target),
    )?;
    Ok(Statement {
        instruction: Instruction::Branch {
            width,
            relation,
            dst,
            source,
            distance,
        },
        target: label(target),
    })
}

#[tactic(auto, unfolding(crate::specs::Statement::statement_with))]
fn call(operands: &[u8]) -> Result<Statement<'_>, FaultKind>
    ensures { statement_view result ≡ statement_with mnemonics.Call (operands_of operands.now) }
{
    let helper = immediate(one(operands)?)?;
    Ok(plain(Instruction::Call { helper }))
}

#[tactic(auto, unfolding(crate::specs::Statement::statement_with))]
fn exit(operands: &[u8]) -> Result<Statement<'_>, FaultKind>
    ensures { statement_view result ≡ statement_with mnemonics.Exit (operands_of operands.now) }
{
    none(operands)?;
    Ok(plain(Instruction::Exit))
}

/// No operand.
fn none(operands: &[u8]) -> Result<(), FaultKind>
    ensures { result_map_both (λ _. None) (λ fault. fault) result ≡ none_of (operands_of operands.now) }
{
    if one(operands)?.is_empty() {
        Ok(())
    } else {
        Err(FaultKind::Operand)
    }
}

/// The one operand.
fn one(operands: &[u8]) -> Result<&[u8], FaultKind>
    ensures { result_map_both (λ text. text.now) (λ fault. fault) result ≡ one_of (operands_of operands.now) }
{
    match cut(operands, b',') {
        None => Ok(trim(operands)),
        Some(_) => Err(FaultKind::Operand),
    }
}

/// The two operands.
fn two(operands: &[u8]) -> Result<(&[u8], &[u8]), FaultKind>
    ensures { result_map_both (λ texts. (texts.0.now, texts.1.now)) (λ fault. fault) result ≡ two_of (operands_of operands.now) }
{
    let Some((first, rest)) = cut(operands, b',') else {
        return Err(FaultKind::Operand);
    };
    Ok((trim(first), one(rest)?))
}

/// The three operands.
fn three(operands: &[u8]) -> Result<(&[u8], &[u8], &[u8]), FaultKind>
    ensures { result_map_both (λ texts. (texts.0.now, texts.1.now, texts.2.now)) (λ fault. fault) result ≡ three_of (operands_of operands.now) }
{
    let Some((first, rest)) = cut(operands, b',') else {
        return Err(FaultKind::Operand);
    };
    let (second, third) = two(rest)?;
    Ok((trim(first), second, third))
}
