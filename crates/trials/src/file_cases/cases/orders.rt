// Several faults: the earlier test decides, also where its byte is a later one.

// Under 24 bytes, before counts and contents.
pub const UNDER_24: &str = "\
Trial, put 2 \x01\x01, cut 23: refused 7 - 23\n;
Trial, put 10 \x01\x10, cut 12: refused 7 - 12\n;
Trial, put 18 \x09, cut 20: refused 7 - 20\n;
Trial, put 0 \0, cut 23: refused 7 - 23\n;
Trial, put 20 \0, cut 23: refused 7 - 23\n;
Trial, put 4 \0, cut 8: refused 7 - 8\n;
";

// Counts, before each other and all else.
pub const COUNTS: &str = "\
Trial, put 10 \x01\x10, put 2 \x01\x01: refused 9 - 2\n;
Trial, put 18 \x09, put 10 \x01\x10: refused 9 - 10\n;
Trial, put 2 \x01\x01, put 18 \x09: refused 9 - 2\n;
# Contents;
Trial, put 0 \0, put 2 \x01\x01: refused 9 - 2\n;
Trial, put 4 \0, put 10 \x01\x10: refused 9 - 10\n;
Trial, put 8 \0, put 18 \x09: refused 9 - 18\n;
Trial, put 12 \0, put 2 \x01\x01: refused 9 - 2\n;
Trial, put 16 \0, put 10 \x01\x10: refused 9 - 10\n;
Trial, put 20 \0, put 18 \x09: refused 9 - 18\n;
Trial, put 0 \0, put 18 \x09: refused 9 - 18\n;
# Lengths of texts, the end of the file, binding ends, texts;
Trial, put 2 \x01\x01, put 44 \u{C9}: refused 9 - 2\n;
Trial, put 18 \x09, cut 44: refused 9 - 18\n;
Trial, put 10 \x01\x10, cut 24: refused 9 - 10\n;
Trial, put 10 \x01\x10, cut 63: refused 9 - 10\n;
Trial, put 18 \x09, add \x20: refused 9 - 18\n;
Trial, put 2 \x01\x01, put 32 \x02: refused 9 - 2\n;
Trial, put 18 \x09, put 34 \x02: refused 9 - 18\n;
Trial, put 10 \x01\x10, put 46 $: refused 9 - 10\n;
Trial, put 18 \x09, put 53 $: refused 9 - 18\n;
";

// Contents, before each other and what is behind them.
pub const CONTENTS: &str = "\
Trial, put 4 \0, put 0 \0: refused 6 - 0\n;
Trial, put 8 \0, put 4 \0: refused 6 - 4\n;
Trial, put 12 \0, put 8 \0: refused 6 - 8\n;
Trial, put 16 \0, put 12 \0: refused 6 - 12\n;
Trial, put 20 \0, put 16 \0: refused 6 - 16\n;
Trial, put 20 \0, put 0 \0: refused 6 - 0\n;
# Lengths of texts;
Trial, put 20 \0, put 44 \u{C9}: refused 6 - 20\n;
Trial, put 8 \0, put 51 \u{C9}: refused 6 - 8\n;
Trial, put 16 \0, cut 44: refused 6 - 16\n;
Trial, put 0 \0, cut 24: refused 6 - 0\n;
# The end of the file, binding ends, texts;
Trial, put 12 \0, add \x20: refused 6 - 12\n;
Trial, put 4 \0, cut 63: refused 6 - 4\n;
Trial, put 20 \0, put 32 \x02: refused 6 - 20\n;
Trial, put 8 \0, put 34 \x02: refused 6 - 8\n;
Trial, put 4 \0, put 46 $: refused 6 - 4\n;
Trial, put 16 \0, put 53 $: refused 6 - 16\n;
";

// Lengths of texts, before each other and what is tested behind them.
pub const LENGTHS: &str = "\
Trial, put 51 \u{C9}, put 44 \u{C9}: refused 9 - 44\n;
Eight, put 36 \u{C9}, put 32 \u{C9}: refused 9 - 32\n;
Eight, put 28 \u{C8}, put 32 \u{C9}: refused 7 - 60\n;
# A length that the file does not hold is not looked at; one that it holds is, before what is cut behind it;
Trial, put 44 \u{C9}, cut 45: refused 7 - 45\n;
Trial, put 51 \u{C9}, cut 52: refused 7 - 52\n;
Trial, put 44 \u{C9}, cut 46: refused 9 - 44\n;
Trial, put 51 \u{C9}, cut 53: refused 9 - 51\n;
Trial, put 44 \u{C9}, cut 52: refused 9 - 44\n;
# The end of the file, binding ends, texts;
Trial, put 44 \u{C9}, add \x20: refused 9 - 44\n;
Trial, put 51 \u{C9}, add \x20: refused 9 - 51\n;
Trial, put 51 \u{C9}, put 32 \x02: refused 9 - 51\n;
Trial, cut 44, put 34 \x02: refused 7 - 44\n;
Trial, cut 51, put 32 \x02: refused 7 - 51\n;
Trial, put 51 \u{C9}, put 46 $: refused 9 - 51\n;
Trial, put 51 \u{C9}, put 53 $: refused 9 - 51\n;
Trial, cut 51, put 46 $: refused 7 - 51\n;
";

// The end of the file, before binding ends and texts.
pub const FILE_END: &str = "\
Trial, add \x20, put 32 \x02: refused 7 - 65\n;
Trial, cut 63, put 34 \x02: refused 7 - 63\n;
Trial, add \x20, put 46 $: refused 7 - 65\n;
Trial, cut 63, put 53 $: refused 7 - 63\n;
Ring, add \x20, put 62 \x03: refused 7 - 91\n;
Longest, add \x20, put 1048 \0\x01: refused 7 - 51817\n;
Longest, add \x20, put 50190 \0\x01: refused 7 - 51817\n;
Longest, cut 51815, put 50202 $: refused 7 - 51815\n;
";

// Binding ends, before each other and texts.
pub const BINDING_ENDS: &str = "\
Trial, put 34 \x02, put 32 \x02: refused 8 - 32\n;
Ring, put 48 \x03, put 38 \x03: refused 8 - 38\n;
Ring, put 60 \x03, put 50 \x03: refused 8 - 50\n;
Ring, put 62 \x03, put 48 \x03: refused 8 - 48\n;
Longest, put 50188 \0\x01, put 1050 \0\x01: refused 8 - 1050\n;
Trial, put 32 \x02, put 46 $: refused 8 - 32\n;
Trial, put 34 \x02, put 53 $: refused 8 - 34\n;
Ring, put 62 \x03, put 74 $: refused 8 - 62\n;
Trial, put 34 \x02, put 49 \x20\x20: refused 8 - 34\n;
Trial, put 34 \x02, put 49 c6: refused 8 - 34\n;
Longest, put 50190 \0\x01, put 51815 $: refused 8 - 50190\n;
";

// Texts: the first faulty rule, and its first fault.
pub const TEXTS: &str = "\
Trial, put 53 $, put 46 $: refused 1 0 0\n;
Trial, put 53 $, put 49 \x20\x20: refused 2 0 5\n;
Trial, put 53 $, put 49 c6: refused 3 0 3\n;
Trial, put 53 ), put 49 $: refused 1 0 3\n;
Eight, put 58 x, put 54 c6: refused 3 6 0\n;
Limits, put 66 !, put 61 !: refused 4 0 32\n;
Limits, put 66 !, put 62 $: refused 1 0 32\n;
Trial, put 46 ) $m1: refused 2 0 0\n;
Trial, put 46 m1 $): refused 1 0 3\n;
Limits, put 66 !, put 114 $: refused 1 1 47\n;
Limits, put 66 !, put 113 c6: refused 3 1 47\n;
";
