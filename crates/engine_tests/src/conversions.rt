//! Conversions of strided sets, worked by hand.
use crate::number_sets::NONE;
use crate::operators::Operation::{self, Converted};
use crate::tables::assert_rows;
use tm_cint::IntType::{Bool, Char, Int, LLong, Short, UChar, UInt, ULLong, UShort};

static CONVERSIONS: [Operation; 22] = [
    Converted(Bool, (0, 0, 1), (0, 0, 1)),
    Converted(Bool, (-4, 8, 3), (1, 1, 1)),
    Converted(Bool, (-4, 8, 4), (0, 1, 1)),
    Converted(Bool, NONE, NONE),
    Converted(UChar, (250, 255, 5), (250, 255, 5)),
    Converted(UChar, (256, 266, 5), (0, 10, 5)),
    Converted(UChar, (250, 256, 6), (0, 254, 2)),
    Converted(UChar, (250, 265, 3), (0, 255, 1)),
    Converted(UChar, (-4, -1, 3), (252, 255, 3)),
    Converted(UChar, (-4, 4, 8), (4, 252, 8)),
    Converted(UChar, NONE, NONE),
    Converted(Char, (126, 130, 4), (-126, 126, 4)),
    Converted(Char, (128, 136, 8), (-128, -120, 8)),
    Converted(Char, (-129, -129, 1), (127, 127, 1)),
    Converted(Short, (32767, 32768, 1), (-32768, 32767, 1)),
    Converted(UShort, (65536, 65538, 2), (0, 2, 2)),
    Converted(Int, (4294967295, 4294967295, 1), (-1, -1, 1)),
    Converted(Int, (-5, 5, 5), (-5, 5, 5)),
    Converted(UInt, (-1, -1, 1), (4294967295, 4294967295, 1)),
    Converted(UInt, (-8, 0, 8), (0, 4294967288, 8)),
    Converted(LLong, (-5, 5, 5), (-5, 5, 5)),
    Converted(ULLong, (3, 9, 6), (3, 9, 6)),
];

#[test]
fn conversions(rt: HostRuntime) {
    assert_rows(&rt, rt.alloc(), &CONVERSIONS);
}
