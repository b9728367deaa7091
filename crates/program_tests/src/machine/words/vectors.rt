//! What gcc makes of the operations, printed by `vectors/words.c`.

use instruction_set::{Operation, Relation, SignExtension, Swap, SwapSize, Width};
use program_meaning::Arithmetic;

/// The words of the destination and the source.
pub const PAIRS: &[(u64, u64)] = &[
    (0x7, 0x3),
    (0xfffffffffffffff3, 0x3),
    (0x8000000000000000, 0x2),
    (0xffffffff80000000, 0x100000004),
    (0x123456789abcdef0, 0xfedcba9876543210),
    (0x5, 0x41),
    (0xffffffff, 0xffffffff00000001),
    (0xffffffffffffffff, 0x7fffffffffffffff),
    (0x180000001, 0xffffffffffffffe1),
    (0xdeadbeefcafebabe, 0xdeadbeefcafebabe),
    (0x7fffffff, 0x80000000),
    (0x8000000000000001, 0x8000003f),
];

/// What each operation makes of each pair, at 64 and at 32 bits, in hexadecimal.
pub const OPERATIONS: &[(Operation, &str, &str)] = &[
    (
        Operation::Add,
        "a fffffffffffffff6 8000000000000002 80000004 1111111111111100 46 \
         0 7ffffffffffffffe 17fffffe2 bd5b7ddf95fd757c ffffffff 8000000080000040",
        "a fffffff6 2 80000004 11111100 46 \
         0 fffffffe 7fffffe2 95fd757c ffffffff 80000040",
    ),
    (
        Operation::Subtract,
        "4 fffffffffffffff0 7ffffffffffffffe fffffffe7ffffffc 13579be02468ace0 ffffffffffffffc4 \
         1fffffffe 8000000000000000 180000020 0 ffffffffffffffff 7fffffff7fffffc2",
        "4 fffffff0 fffffffe 7ffffffc 2468ace0 ffffffc4 \
         fffffffe 0 80000020 0 ffffffff 7fffffc2",
    ),
    (
        Operation::Multiply,
        "15 ffffffffffffffd9 0 7ffffffe00000000 236d88fe5618cf00 145 \
         1ffffffff 8000000000000001 ffffffd17fffffe1 b295b2eef140a504 3fffffff80000000 800000008000003f",
        "15 ffffffd9 0 0 5618cf00 145 \
         ffffffff 1 7fffffe1 f140a504 80000000 8000003f",
    ),
    (
        Operation::Divide,
        "2 5555555555555551 4000000000000000 fffffffb 0 0 \
         0 2 0 1 0 ffffff82",
        "2 55555551 0 20000000 1 0 \
         ffffffff 1 0 1 0 0",
    ),
    (
        Operation::SignedDivide,
        "2 fffffffffffffffc c000000000000000 0 fffffffffffffff1 0 \
         ffffffffffffffff 0 fffffffff39ce73a 1 0 ffffffff0000007e",
        "2 fffffffc 0 e0000000 0 0 \
         ffffffff 1 4210842 1 0 0",
    ),
    (
        Operation::Or,
        "7 fffffffffffffff3 8000000000000002 ffffffff80000004 fefcfef8fefcfef0 45 \
         ffffffffffffffff ffffffffffffffff ffffffffffffffe1 deadbeefcafebabe ffffffff 800000008000003f",
        "7 fffffff3 2 80000004 fefcfef0 45 \
         ffffffff ffffffff ffffffe1 cafebabe ffffffff 8000003f",
    ),
    (
        Operation::And,
        "3 3 0 100000000 1214121812141210 1 \
         1 7fffffffffffffff 180000001 deadbeefcafebabe 0 1",
        "3 3 0 0 12141210 1 \
         1 ffffffff 80000001 cafebabe 0 1",
    ),
    (
        Operation::LeftShift,
        "38 ffffffffffffff98 0 fffffff800000000 56789abcdef00000 a \
         1fffffffe 8000000000000000 200000000 8000000000000000 7fffffff 8000000000000000",
        "38 ffffff98 0 0 def00000 a \
         fffffffe 80000000 2 80000000 7fffffff 80000000",
    ),
    (
        Operation::RightShift,
        "0 1ffffffffffffffe 2000000000000000 ffffffff8000000 123456789abc 2 \
         7fffffff 1 0 3 7fffffff 1",
        "0 1ffffffe 0 8000000 9abc 2 \
         7fffffff 1 40000000 3 7fffffff 0",
    ),
    (
        Operation::Modulo,
        "1 0 0 80000014 123456789abcdef0 5 \
         ffffffff 1 180000001 0 7fffffff 1f03",
        "1 0 0 0 2468ace0 5 \
         0 0 80000001 0 7fffffff 1",
    ),
    (
        Operation::SignedModulo,
        "1 ffffffffffffffff 0 ffffffff80000000 123456789abcde0 5 \
         0 ffffffffffffffff 7 0 7fffffff ffffffffffffe0ff",
        "1 ffffffff 0 0 9abcdef0 5 \
         0 0 ffffffff 0 7fffffff 1",
    ),
    (
        Operation::Xor,
        "4 fffffffffffffff0 8000000000000002 fffffffe80000004 ece8ece0ece8ece0 44 \
         fffffffffffffffe 8000000000000000 fffffffe7fffffe0 0 ffffffff 800000008000003e",
        "4 fffffff0 2 80000004 ece8ece0 44 \
         fffffffe 0 7fffffe0 0 ffffffff 8000003e",
    ),
    (
        Operation::Move,
        "3 3 2 100000004 fedcba9876543210 41 \
         ffffffff00000001 7fffffffffffffff ffffffffffffffe1 deadbeefcafebabe 80000000 8000003f",
        "3 3 2 4 76543210 41 \
         1 ffffffff ffffffe1 cafebabe 80000000 8000003f",
    ),
    (
        Operation::ArithmeticShift,
        "0 fffffffffffffffe e000000000000000 fffffffff8000000 123456789abc 2 \
         7fffffff ffffffffffffffff 0 ffffffffffffffff 7fffffff ffffffffffffffff",
        "0 fffffffe 0 f8000000 ffff9abc 2 \
         ffffffff ffffffff c0000000 ffffffff 7fffffff 0",
    ),
];

/// Whether each relation holds (1) for each pair, at 64 and at 32 bits.
pub const RELATIONS: &[(Relation, &str, &str)] = &[
    (Relation::Equal, "000000000100", "000000010100"),
    (Relation::Greater, "111100010001", "110110100000"),
    (Relation::GreaterOrEqual, "111100010101", "110110110100"),
    (Relation::AnyBitSet, "110111111101", "110011111101"),
    (Relation::NotEqual, "111111111011", "111111101011"),
    (Relation::SignedGreater, "100010101000", "100000000011"),
    (
        Relation::SignedGreaterOrEqual,
        "100010101100",
        "100000010111",
    ),
    (Relation::Less, "000011101010", "001001001011"),
    (Relation::LessOrEqual, "000011101110", "001001011111"),
    (Relation::SignedLess, "011101010011", "011111101000"),
    (Relation::SignedLessOrEqual, "011101010111", "011111111100"),
];

/// What each operation on one word makes of the first of each pair, in hexadecimal.
pub const UNARY: &[(Arithmetic, &str)] = &[
    (
        Arithmetic::Negate {
            width: Width::Bits64,
        },
        "fffffffffffffff9 d 8000000000000000 80000000 edcba98765432110 fffffffffffffffb \
         ffffffff00000001 1 fffffffe7fffffff 2152411035014542 ffffffff80000001 7fffffffffffffff",
    ),
    (
        Arithmetic::Negate {
            width: Width::Bits32,
        },
        "fffffff9 d 0 80000000 65432110 fffffffb \
         1 1 7fffffff 35014542 80000001 ffffffff",
    ),
    (
        Arithmetic::MoveSigned {
            extension: SignExtension::Bits8To32,
        },
        "7 fffffff3 0 0 fffffff0 5 \
         ffffffff ffffffff 1 ffffffbe ffffffff 1",
    ),
    (
        Arithmetic::MoveSigned {
            extension: SignExtension::Bits16To32,
        },
        "7 fffffff3 0 0 ffffdef0 5 \
         ffffffff ffffffff 1 ffffbabe ffffffff 1",
    ),
    (
        Arithmetic::MoveSigned {
            extension: SignExtension::Bits8To64,
        },
        "7 fffffffffffffff3 0 0 fffffffffffffff0 5 \
         ffffffffffffffff ffffffffffffffff 1 ffffffffffffffbe ffffffffffffffff 1",
    ),
    (
        Arithmetic::MoveSigned {
            extension: SignExtension::Bits16To64,
        },
        "7 fffffffffffffff3 0 0 ffffffffffffdef0 5 \
         ffffffffffffffff ffffffffffffffff 1 ffffffffffffbabe ffffffffffffffff 1",
    ),
    (
        Arithmetic::MoveSigned {
            extension: SignExtension::Bits32To64,
        },
        "7 fffffffffffffff3 0 ffffffff80000000 ffffffff9abcdef0 5 \
         ffffffffffffffff ffffffffffffffff ffffffff80000001 ffffffffcafebabe 7fffffff 1",
    ),
    (
        Arithmetic::SwapBytes {
            swap: Swap::ToLittle,
            size: SwapSize::Bits16,
        },
        "7 fff3 0 0 def0 5 \
         ffff ffff 1 babe ffff 1",
    ),
    (
        Arithmetic::SwapBytes {
            swap: Swap::ToLittle,
            size: SwapSize::Bits32,
        },
        "7 fffffff3 0 80000000 9abcdef0 5 \
         ffffffff ffffffff 80000001 cafebabe 7fffffff 1",
    ),
    (
        Arithmetic::SwapBytes {
            swap: Swap::ToLittle,
            size: SwapSize::Bits64,
        },
        "7 fffffffffffffff3 8000000000000000 ffffffff80000000 123456789abcdef0 5 \
         ffffffff ffffffffffffffff 180000001 deadbeefcafebabe 7fffffff 8000000000000001",
    ),
    (
        Arithmetic::SwapBytes {
            swap: Swap::ToBig,
            size: SwapSize::Bits16,
        },
        "700 f3ff 0 0 f0de 500 \
         ffff ffff 100 beba ffff 100",
    ),
    (
        Arithmetic::SwapBytes {
            swap: Swap::ToBig,
            size: SwapSize::Bits32,
        },
        "7000000 f3ffffff 0 80 f0debc9a 5000000 \
         ffffffff ffffffff 1000080 bebafeca ffffff7f 1000000",
    ),
    (
        Arithmetic::SwapBytes {
            swap: Swap::ToBig,
            size: SwapSize::Bits64,
        },
        "700000000000000 f3ffffffffffffff 80 80ffffffff f0debc9a78563412 500000000000000 \
         ffffffff00000000 ffffffffffffffff 100008001000000 bebafecaefbeadde ffffff7f00000000 100000000000080",
    ),
    (
        Arithmetic::SwapBytes {
            swap: Swap::Reverse,
            size: SwapSize::Bits16,
        },
        "700 f3ff 0 0 f0de 500 \
         ffff ffff 100 beba ffff 100",
    ),
    (
        Arithmetic::SwapBytes {
            swap: Swap::Reverse,
            size: SwapSize::Bits32,
        },
        "7000000 f3ffffff 0 80 f0debc9a 5000000 \
         ffffffff ffffffff 1000080 bebafeca ffffff7f 1000000",
    ),
    (
        Arithmetic::SwapBytes {
            swap: Swap::Reverse,
            size: SwapSize::Bits64,
        },
        "700000000000000 f3ffffffffffffff 80 80ffffffff f0debc9a78563412 500000000000000 \
         ffffffff00000000 ffffffffffffffff 100008001000000 bebafecaefbeadde ffffff7f00000000 100000000000080",
    ),
];
