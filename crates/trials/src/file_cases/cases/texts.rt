// One fault in a text.

// Each refusal of a text, in the first rule and in later ones.
pub const TEXTS: &str = "\
# Unknown words and stray bytes;
Trial, put 46 a: refused 1 0 0\n;
Trial, put 46 \u{FF}: refused 1 0 0\n;
Trial, put 48 _: refused 1 0 2\n;
Trial, put 48 \x09: refused 1 0 2\n;
Trial, put 48 \0: refused 1 0 2\n;
Trial, put 49 $: refused 1 0 3\n;
Trial, put 53 X: refused 1 1 0\n;
Trial, put 63 _: refused 1 1 9\n;
Eight, put 30 x: refused 1 0 0\n;
Eight, put 42 x: refused 1 3 0\n;
Eight, put 58 x: refused 1 7 0\n;
Longest, put 50202 not: refused 1 0 0\n;
Longest, put 51815 $: refused 1 7 199\n;
# Words that cannot follow, and unfinished rules;
Trial, put 49 ): refused 2 0 3\n;
Trial, put 49 \x20\x20: refused 2 0 5\n;
Trial, put 59 \x20: refused 2 1 8\n;
Trial, put 62 \x20\x20: refused 2 1 11\n;
NoPlace, put 24 \0, cut 26: refused 2 0 0\n;
NoPlace, put 26 \x20\x20\x20: refused 2 0 3\n;
Eight, put 50 \x20\x20: refused 2 5 2\n;
Longest, put 51815 !: refused 2 7 199\n;
# Marks and conditions out of range;
Trial, put 49 c6: refused 3 0 3\n;
Trial, put 56 m32: refused 3 1 3\n;
Trial, put 62 c6: refused 3 1 9\n;
Eight, put 58 c9: refused 3 7 0\n;
# A 33rd level, and a 33rd row;
Limits, put 61 !: refused 4 0 32\n;
Limits, put 66 !: refused 5 1 49\n;
";
