// The texts, each with what reading it must give: `TEXT: ROWS`, the rows of its table, each as OPERATION.FIRST.SECOND, or
// `TEXT: refused NUMBER at byte BYTE`. `FRONT,TIMES,PART,BACK` stands for a text that has a part so many times.
//
// Each ends with a semicolon. What each must give is worked out by hand from docs/RULE_TEXT.md.
pub mod built;
pub mod damaged;
pub mod plain;
pub mod valid;
