//! Words worked out by hand, and what gcc makes of the same operations.

mod vectors;

use instruction_set::Operation::{
    Add, ArithmeticShift, Divide, LeftShift, Modulo, SignedDivide, SignedModulo,
};
use instruction_set::Width::{Bits32, Bits64};
use instruction_set::{Operation, Relation, SignExtension, Swap, SwapSize, Width};
use program_meaning::{Arithmetic, alu, is_taken};
use std::process::Abort;
use vectors::{OPERATIONS, PAIRS, RELATIONS, UNARY};

fn binary(width: Width, operation: Operation) -> Arithmetic {
    Arithmetic::Binary { width, operation }
}

const LEAST: u64 = 0x8000_0000_0000_0000;

const MINUS_ONE: u64 = 0xffff_ffff_ffff_ffff;

const MINUS_13: u64 = 0xffff_ffff_ffff_fff3;

/// What an operation at a width makes of the words of its destination and its source.
type Made = (Width, Operation, u64, u64, u64);

const BY_HAND: &[Made] = &[
    (Bits64, Divide, 7, 0, 0),
    (Bits64, Modulo, 7, 0, 7),
    (Bits32, Modulo, 0x1_0000_0007, 0, 7),
    (Bits64, SignedDivide, 7, 0, 0),
    (Bits64, SignedModulo, MINUS_13, 0, MINUS_13),
    (Bits64, SignedDivide, LEAST, MINUS_ONE, LEAST),
    (Bits64, SignedModulo, LEAST, MINUS_ONE, 0),
    (Bits64, SignedModulo, MINUS_13, 3, MINUS_ONE),
    (Bits64, LeftShift, 5, 64, 5),
    (Bits32, Add, 0x5_ffff_ffff, 1, 0),
    (Bits64, Divide, 10, MINUS_ONE, 0),
    (Bits32, ArithmeticShift, 0x8000_0000, 4, 0xf800_0000),
    (Bits64, SignedDivide, MINUS_13, 3, 0xffff_ffff_ffff_fffc),
    (Bits32, SignedDivide, 0x8000_0000, MINUS_ONE, 0x8000_0000),
    (Bits32, Divide, MINUS_ONE, MINUS_ONE, 1),
];

fn check_word(rt: &impl Abort, arithmetic: Arithmetic, x: u64, y: u64, word: u64) {
    let made = alu(arithmetic, x, y);
    assert_eq!(rt; made, word, "{arithmetic:?} of {x:x} and {y:x}");
}

#[test]
fn words_as_worked_out_by_hand(rt: HostRuntime) {
    for (width, operation, x, y, word) in BY_HAND {
        check_word(&rt, binary(*width, *operation), *x, *y, *word);
    }
}

#[test]
fn signs_and_bytes_as_worked_out_by_hand(rt: HostRuntime) {
    let extension = SignExtension::Bits8To64;
    let moved = Arithmetic::MoveSigned { extension };
    check_word(&rt, moved, 0, 0x80, 0xffff_ffff_ffff_ff80);
    let reversed = Arithmetic::SwapBytes {
        swap: Swap::Reverse,
        size: SwapSize::Bits16,
    };
    check_word(&rt, reversed, 0x1234_5678_1234_5678, 0, 0x7856);
    let to_big = Arithmetic::SwapBytes {
        swap: Swap::ToBig,
        size: SwapSize::Bits32,
    };
    check_word(&rt, to_big, 0x1122_3344_aabb_ccdd, 0, 0xddcc_bbaa);
}

#[test]
fn all_ones_are_the_greatest_word(rt: HostRuntime) {
    let is_greater = is_taken(Bits64, Relation::Greater, 0x1_0000_0000, MINUS_ONE);
    assert!(rt; !is_greater);
}

/// Compares what is made of each pair with the words of a list.
fn check_words(rt: &impl Abort, arithmetic: Arithmetic, words: &str) {
    assert_eq!(rt; words.split(' ').count(), PAIRS.len());
    for ((x, y), word) in PAIRS.iter().zip(words.split(' ')) {
        check_spelled(rt, arithmetic, *x, *y, word);
    }
}

/// Compares what is made of the first of each pair with the words of a list.
fn check_unary(rt: &impl Abort, arithmetic: Arithmetic, words: &str) {
    assert_eq!(rt; words.split(' ').count(), PAIRS.len());
    for ((x, _), word) in PAIRS.iter().zip(words.split(' ')) {
        check_spelled(rt, arithmetic, *x, *x, word);
    }
}

fn check_spelled(rt: &impl Abort, arithmetic: Arithmetic, x: u64, y: u64, word: &str) {
    assert_eq!(rt;
        u64::from_str_radix(word, 16),
        Ok(alu(arithmetic, x, y)),
        "{arithmetic:?} of {x:x} and {y:x}"
    );
}

/// Compares which pairs a relation holds for with the digits of a list.
fn check_relation(rt: &impl Abort, width: Width, relation: Relation, holds: &str) {
    assert_eq!(rt; holds.len(), PAIRS.len());
    for ((x, y), digit) in PAIRS.iter().zip(holds.bytes()) {
        assert_eq!(rt;
            is_taken(width, relation, *x, *y),
            digit == b'1',
            "{width:?} {relation:?} of {x:x} and {y:x}"
        );
    }
}

#[test]
fn words_as_gcc_makes_them(rt: HostRuntime) {
    for (operation, wide, narrow) in OPERATIONS {
        check_words(&rt, binary(Bits64, *operation), wide);
        check_words(&rt, binary(Bits32, *operation), narrow);
    }
    for (arithmetic, words) in UNARY {
        check_unary(&rt, *arithmetic, words);
    }
}

#[test]
fn relations_as_gcc_tests_them(rt: HostRuntime) {
    for (relation, wide, narrow) in RELATIONS {
        check_relation(&rt, Bits64, *relation, wide);
        check_relation(&rt, Bits32, *relation, narrow);
    }
}
