// One fault outside the texts, in each field.

// Files of less than 24 bytes.
pub const CUT: &str = "\
Trial, cut 0: refused 7 - 0\n;
Trial, cut 1: refused 7 - 1\n;
Trial, cut 12: refused 7 - 12\n;
Trial, cut 23: refused 7 - 23\n;
Empty, cut 23: refused 7 - 23\n;
Longest, cut 23: refused 7 - 23\n;
";

// Counts: 9 above the limit; at the limit and elsewhere what comes later tells.
pub const COUNTS: &str = "\
Trial, put 2 \x01\x01: refused 9 - 2\n;
Trial, put 2 \u{FF}\u{FF}: refused 9 - 2\n;
Empty, put 2 \x01\x01: refused 9 - 2\n;
Longest, put 2 \x01\x01: refused 9 - 2\n;
Trial, put 10 \x01\x10: refused 9 - 10\n;
Trial, put 10 \u{FF}\u{FF}: refused 9 - 10\n;
Empty, put 10 \x01\x10: refused 9 - 10\n;
Longest, put 10 \x01\x10: refused 9 - 10\n;
Trial, put 18 \x09: refused 9 - 18\n;
Trial, put 18 \0\x01: refused 9 - 18\n;
Trial, put 18 \u{FF}\u{FF}: refused 9 - 18\n;
Empty, put 18 \x09: refused 9 - 18\n;
Longest, put 18 \x09: refused 9 - 18\n;
# At the limit;
Trial, put 2 \0\x01: refused 6 - 12\n;
Trial, put 10 \0\x10: refused 6 - 20\n;
Trial, put 18 \x08: refused 7 - 64\n;
# Too few or too many for the file;
Trial, put 2 \x01: refused 6 - 12\n;
Trial, put 2 \x03: refused 6 - 12\n;
Trial, put 10 \0: refused 6 - 20\n;
Trial, put 10 \x02: refused 6 - 20\n;
Trial, put 18 \0: refused 7 - 64\n;
Trial, put 18 \x01: refused 7 - 64\n;
Trial, put 18 \x03: refused 7 - 64\n;
Empty, put 18 \x01: refused 7 - 24\n;
";

// Kinds and starts.
pub const CONTENTS: &str = "\
Trial, put 0 \0: refused 6 - 0\n;
Trial, put 0 \x02: refused 6 - 0\n;
Trial, put 1 \x01: refused 6 - 0\n;
Trial, put 4 \x17: refused 6 - 4\n;
Trial, put 4 \x19: refused 6 - 4\n;
Trial, put 7 \x01: refused 6 - 4\n;
Trial, put 8 \x01: refused 6 - 8\n;
Trial, put 8 \x03: refused 6 - 8\n;
Trial, put 9 \u{80}: refused 6 - 8\n;
Trial, put 12 \x1F: refused 6 - 12\n;
Trial, put 12 !: refused 6 - 12\n;
Trial, put 15 \u{FF}: refused 6 - 12\n;
Trial, put 16 \x02: refused 6 - 16\n;
Trial, put 16 \x04: refused 6 - 16\n;
Trial, put 17 \x01: refused 6 - 16\n;
Trial, put 20 +: refused 6 - 20\n;
Trial, put 20 -: refused 6 - 20\n;
Trial, put 22 \x01: refused 6 - 20\n;
Longest, put 12 \x19: refused 6 - 12\n;
Longest, put 20 \x19: refused 6 - 20\n;
# The first two entries in each other's place;
Trial, put 0 \x02\0\x01\0 \0\0\0\x01\0\x02\0\x18\0\0\0: refused 6 - 0\n;
";

// Lengths of texts: 9 above 200, 7 where one does not lie in the file.
pub const LENGTHS: &str = "\
Trial, put 44 \u{C9}: refused 9 - 44\n;
Trial, put 45 \x01: refused 9 - 44\n;
Trial, put 51 \u{C9}: refused 9 - 51\n;
Trial, put 52 \u{FF}: refused 9 - 51\n;
NoPlace, put 24 \u{C9}: refused 9 - 24\n;
NoPlace, put 24 \u{C9}, spaces 198: refused 9 - 24\n;
Eight, put 28 \u{C9}: refused 9 - 28\n;
Eight, put 32 \u{C9}: refused 9 - 32\n;
Eight, put 36 \u{C9}: refused 9 - 36\n;
Eight, put 40 \u{C9}: refused 9 - 40\n;
Eight, put 44 \u{C9}: refused 9 - 44\n;
Eight, put 48 \u{C9}: refused 9 - 48\n;
Eight, put 52 \u{C9}: refused 9 - 52\n;
Eight, put 56 \u{C9}: refused 9 - 56\n;
Longest, put 50200 \u{C9}: refused 9 - 50200\n;
Longest, put 50402 \u{C9}: refused 9 - 50402\n;
Longest, put 51614 \u{C9}: refused 9 - 51614\n;
# The next length is sought elsewhere, and is over its limit;
Trial, put 44 \0: refused 9 - 46\n;
Trial, put 44 \x04: refused 9 - 50\n;
Trial, put 44 \x06: refused 9 - 52\n;
Eight, put 28 \x03: refused 9 - 33\n;
# The next length is sought behind the end of the file;
Trial, put 44 \u{C8}: refused 7 - 64\n;
Eight, put 28 \x06: refused 7 - 60\n;
Eight, put 52 \x06: refused 7 - 60\n;
Eight, put 28 \u{C8}: refused 7 - 60\n;
# The file ends in a length or before it;
Trial, cut 24: refused 7 - 24\n;
Trial, cut 43: refused 7 - 43\n;
Trial, cut 44: refused 7 - 44\n;
Trial, cut 45: refused 7 - 45\n;
Trial, cut 46: refused 7 - 46\n;
Trial, cut 50: refused 7 - 50\n;
Trial, cut 51: refused 7 - 51\n;
Trial, cut 52: refused 7 - 52\n;
NoPlace, cut 25: refused 7 - 25\n;
Eight, cut 57: refused 7 - 57\n;
Longest, cut 24: refused 7 - 24\n;
Longest, cut 51615: refused 7 - 51615\n;
";

// The end of the file: cut, or too long.
pub const FILE_END: &str = "\
Trial, cut 63: refused 7 - 63\n;
Trial, add \0: refused 7 - 65\n;
Trial, cut 53: refused 7 - 53\n;
Trial, add \x03\0yes: refused 7 - 69\n;
Trial, put 51 \x0A: refused 7 - 64\n;
Trial, put 51 \x0C: refused 7 - 64\n;
Trial, put 51 \0: refused 7 - 64\n;
Trial, put 51 \u{C8}: refused 7 - 64\n;
Empty, add \0: refused 7 - 25\n;
NoPlace, cut 28: refused 7 - 28\n;
NoPlace, add \x20: refused 7 - 30\n;
Ring, cut 89: refused 7 - 89\n;
Ring, add \x20: refused 7 - 91\n;
Eight, cut 59: refused 7 - 59\n;
Eight, add \x20: refused 7 - 61\n;
Eight, put 56 \x01: refused 7 - 60\n;
Eight, put 56 \x03: refused 7 - 60\n;
Limits, cut 114: refused 7 - 114\n;
Limits, add \x20: refused 7 - 116\n;
Longest, cut 51815: refused 7 - 51815\n;
Longest, add \x20: refused 7 - 51817\n;
# No rules;
Ring, put 18 \0, cut 71: refused 7 - 71\n;
Ring, put 18 \0, cut 73: refused 7 - 73\n;
";

// The ends of bindings.
pub const BINDING_ENDS: &str = "\
Trial, put 32 \x02: refused 8 - 32\n;
Trial, put 33 \x01: refused 8 - 32\n;
Trial, put 32 \u{FF}\u{FF}: refused 8 - 32\n;
Trial, put 34 \x02: refused 8 - 34\n;
Trial, put 35 \u{80}: refused 8 - 34\n;
Trial, put 34 \u{FF}\u{FF}: refused 8 - 34\n;
Ring, put 36 \x03: refused 8 - 36\n;
Ring, put 38 \x03: refused 8 - 38\n;
Ring, put 48 \x03: refused 8 - 48\n;
Ring, put 50 \x03: refused 8 - 50\n;
Ring, put 60 \x03: refused 8 - 60\n;
Ring, put 62 \x03: refused 8 - 62\n;
Longest, put 1048 \0\x01: refused 8 - 1048\n;
Longest, put 1050 \0\x01: refused 8 - 1050\n;
Longest, put 50188 \0\x01: refused 8 - 50188\n;
Longest, put 50190 \0\x01: refused 8 - 50190\n;
# A binding where there is no place;
OneBinding: refused 8 - 24\n;
";
