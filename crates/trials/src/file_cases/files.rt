// The plan files that are damaged, byte by byte.
use std::alloc::{AllocError, Global};

// Bytes that stand so many times behind one another.
struct Part(usize, &'static [u8]);

// Nothing at all: 24 bytes.
static EMPTY: [Part; 3] = [
    Part(1, b"\x01\0\0\0\x18\0\0\0"), // 0: no places from byte 24
    Part(1, b"\x02\0\0\0\x18\0\0\0"), // 8: no bindings from byte 24
    Part(1, b"\x03\0\0\0\x18\0\0\0"), // 16: no rules from byte 24
];

// One rule and no place: 29 bytes.
static NO_PLACE: [Part; 4] = [
    Part(1, b"\x01\0\0\0\x18\0\0\0"), // 0: no places from byte 24
    Part(1, b"\x02\0\0\0\x18\0\0\0"), // 8: no bindings from byte 24
    Part(1, b"\x03\0\x01\0\x18\0\0\0"), // 16: one rule from byte 24
    Part(1, b"\x03\0yes"), // 24: rule 0
];

// One binding and no place: 36 bytes.
static ONE_BINDING: [Part; 4] = [
    Part(1, b"\x01\0\0\0\x18\0\0\0"), // 0: no places from byte 24
    Part(1, b"\x02\0\x01\0\x18\0\0\0"), // 8: one binding from byte 24
    Part(1, b"\x03\0\0\0\x24\0\0\0"), // 16: no rules from byte 36
    Part(12, b"\0"), // 24: 0 to 0 never
];

// Two places, one binding, two rules: 64 bytes.
static TRIAL: [Part; 8] = [
    Part(1, b"\x01\0\x02\0\x18\0\0\0"), // 0: two places from byte 24
    Part(1, b"\x02\0\x01\0\x20\0\0\0"), // 8: one binding from byte 32
    Part(1, b"\x03\0\x02\0\x2C\0\0\0"), // 16: two rules from byte 44
    Part(1, b"\x01\0\0\0"), // 24: place 0, mark 0
    Part(1, b"\x02\0\0\0"), // 28: place 1, mark 1
    Part(1, b"\0\0\x01\0\xAA\xAA\xAA\xAA\xAA\xAA\xAA\xAA"), // 32: 0 to 1 while condition 0 is on
    Part(1, b"\x05\0AF m1"), // 44: rule 0
    Part(1, b"\x0B\0EF m1 | !c0"), // 51: rule 1
];

// Three places in a ring, three bindings, two rules: 90 bytes.
static RING: [Part; 11] = [
    Part(1, b"\x01\0\x03\0\x18\0\0\0"), // 0: three places from byte 24
    Part(1, b"\x02\0\x03\0\x24\0\0\0"), // 8: three bindings from byte 36
    Part(1, b"\x03\0\x02\0\x48\0\0\0"), // 16: two rules from byte 72
    Part(1, b"\x01\0\0\0"), // 24: place 0, mark 0
    Part(1, b"\0\0\0\0"), // 28: place 1, no mark
    Part(1, b"\x02\0\0\0"), // 32: place 2, mark 1
    Part(1, b"\0\0\x01\0\xFF\xFF\xFF\xFF\xFF\xFF\xFF\xFF"), // 36: 0 to 1 always
    Part(1, b"\x01\0\x02\0\xCC\xCC\xCC\xCC\xCC\xCC\xCC\xCC"), // 48: 1 to 2 while condition 1 is on
    Part(1, b"\x02\0\0\0\xFF\xFF\xFF\xFF\xFF\xFF\xFF\xFF"), // 60: 2 to 0 always
    Part(1, b"\x08\0AG EF m1"), // 72: rule 0
    Part(1, b"\x06\0AX !m1"), // 82: rule 1
];

// One place and eight rules of two bytes: 60 bytes.
static EIGHT: [Part; 5] = [
    Part(1, b"\x01\0\x01\0\x18\0\0\0"), // 0: one place from byte 24
    Part(1, b"\x02\0\0\0\x1C\0\0\0"), // 8: no bindings from byte 28
    Part(1, b"\x03\0\x08\0\x1C\0\0\0"), // 16: eight rules from byte 28
    Part(1, b"\x01\0\0\0"), // 24: place 0, mark 0
    Part(8, b"\x02\0m0"), // 28, 32, .. 56: rules 0 to 7
];

// One place, and rules of 32 levels and of 32 rows: 115 bytes.
static LIMITS: [Part; 10] = [
    Part(1, b"\x01\0\x01\0\x18\0\0\0"), // 0: one place from byte 24
    Part(1, b"\x02\0\0\0\x1C\0\0\0"), // 8: no bindings from byte 28
    Part(1, b"\x03\0\x02\0\x1C\0\0\0"), // 16: two rules from byte 28
    Part(1, b"\x01\0\0\0"), // 24: place 0, mark 0
    Part(1, b"\x22\0"), // 28: rule 0, 34 bytes: 31 `!`, a space and a mark have 32 levels
    Part(31, b"!"),
    Part(1, b" m0"),
    Part(1, b"\x31\0 !"), // 64: rule 1, 49 bytes: a space, `!` and 16 marks with `|` between them have 32 rows
    Part(1, b"m0"),
    Part(15, b"|m0"),
];

// The longest file: 51,816 bytes.
static LONGEST: [Part; 21] = [
    Part(1, b"\x01\0\0\x01\x18\0\0\0"), // 0: 256 places from byte 24
    Part(1, b"\x02\0\0\x10\x18\x04\0\0"), // 8: 4,096 bindings from byte 1,048
    Part(1, b"\x03\0\x08\0\x18\xC4\0\0"), // 16: eight rules from byte 50,200
    Part(256, b"\x01\0\0\0"), // 24: places, mark 0
    Part(4096, b"\xFF\0\0\0\0\0\0\0\0\0\0\x80"), // 1,048: 255 to 0 under setting 63
    Part(1, b"\xC8\0yes"), // 50,200: rule 0
    Part(197, b" "),
    Part(1, b"\xC8\0yes"), // 50,402: rule 1
    Part(197, b" "),
    Part(1, b"\xC8\0yes"), // 50,604: rule 2
    Part(197, b" "),
    Part(1, b"\xC8\0yes"), // 50,806: rule 3
    Part(197, b" "),
    Part(1, b"\xC8\0yes"), // 51,008: rule 4
    Part(197, b" "),
    Part(1, b"\xC8\0yes"), // 51,210: rule 5
    Part(197, b" "),
    Part(1, b"\xC8\0yes"), // 51,412: rule 6
    Part(197, b" "),
    Part(1, b"\xC8\0yes"), // 51,614: rule 7
    Part(197, b" "),
];

fn push_repeated(file: &mut Vec<u8>, times: usize, bytes: &[u8]) -> Result<(), AllocError> {
    for _ in 0..times {
        file.extend_from_slice(bytes)?;
    }
    Ok(())
}

fn push_parts(file: &mut Vec<u8>, parts: &[Part]) -> Result<(), AllocError> {
    for Part(times, bytes) in parts {
        push_repeated(file, *times, bytes)?;
    }
    Ok(())
}

// The parts of the file with a name; none where no file has it.
fn parts_of(name: &str) -> &'static [Part] {
    match name {
        "Empty" => &EMPTY,
        "NoPlace" => &NO_PLACE,
        "OneBinding" => &ONE_BINDING,
        "Trial" => &TRIAL,
        "Ring" => &RING,
        "Eight" => &EIGHT,
        "Limits" => &LIMITS,
        "Longest" => &LONGEST,
        _ => &[],
    }
}

// The bytes of the file with a name.
pub fn file_bytes(heap: Global, name: &str) -> Result<Vec<u8>, AllocError> {
    let mut file = Vec::new(heap);
    push_parts(&mut file, parts_of(name))?;
    Ok(file)
}
